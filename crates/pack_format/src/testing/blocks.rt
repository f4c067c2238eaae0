//! Bytes of a block that are all one, and where two blocks differ.
ghost use Rattle.std.specs.Prelude.{◌≡◌, ◌≢◌, ◌<◌, ℕ, IfNone, IfSome, replicate, slice_index};

/// A block of one byte.
pub(crate) fn all(byte: u8) -> [u8; 512]
    ensures { result ≡ replicate 512 byte }
{
    [byte; 512]
}

/// A place at which two blocks differ, the first one; None exactly where they are the same.
pub(crate) fn first_difference(one: &[u8; 512], other: &[u8; 512]) -> Option<u16>
    ensures same { IfNone result (one.now ≡ other.now) }
    ensures first { IfSome result (λ at. (k : ℕ) → k < at → slice_index one.now k ≡ slice_index other.now k) }
    ensures differ { IfSome result (λ at. (at < 512) × (slice_index one.now at ≢ slice_index other.now at)) }
{
    if one == other {
        return None;
    }
    for at in 0..512u16 {
        if one[usize::from(at)] != other[usize::from(at)] {
            return Some(at);
        }
    }
    None
}
