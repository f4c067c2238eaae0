//! Counts that stop at the largest number.

ghost use Rattle.std.specs.Prelude.{◌≡◌};
ghost use Rattle.drive_pictures.specs.Counts.{plus};

/// A sum, which stops at 2^64 - 1.
pub fn plus(count: u64, more: u64) -> u64
    ensures { result ≡ plus count more }
{
    count.saturating_add(more)
}
