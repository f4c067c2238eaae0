// A row of bits, one for each unit, which says which units position, so that the lowest such unit is found at once.
ghost use Rattle.std.specs.Prelude.{◌≡◌, ◌≢◌, ◌<◌, ◌==◌, ℕ, true, false, length, IfSome, IfNone};
ghost use Rattle.driver_machine.specs.Events.{can_arrive};
ghost use Rattle.hp_units.specs.Row.{is_on, unit_in, IsRow};

use crate::unit::DiskUnit;

/// The row with the bit of a unit on, or off.
fn with_bit(row: u32, u: u8, on: bool) -> u32
    requires { u < 32 }
    ensures own { is_on result u ≡ on }
    ensures others { (k : ℕ) → k < 32 → k ≢ u → is_on result k ≡ is_on row k }
{
    if on { row | 1 << u } else { row & !(1 << u) }
}

/// The row with the bit of unit `u` as that unit is now.
pub fn noted(row: u32, u: u8, units: &[DiskUnit]) -> u32
    requires unit { u < 32 }
    requires size { length units.now ≡ 32 }
    requires others { (k : ℕ) → k < 32 → k ≢ u → is_on row k ≡ can_arrive (unit_in units.now k) }
    ensures { IsRow result units.now }
{
    with_bit(row, u, units[usize::from(u)].is_positioning())
}

/// The lowest bit that is on. None if no bit is on.
pub fn lowest(row: u32) -> Option<u8>
    ensures on { IfSome result (λ u. (u < 32) × (is_on row u ≡ true)) }
    ensures below { IfSome result (λ u. (k : ℕ) → k < u → is_on row k ≡ false) }
    ensures none { IfNone result ((k : ℕ) → is_on row k ≡ false) }
{
    if row == 0 {
        return None;
    }
    Some(row.trailing_zeros() as u8)
}
