// Words that name a unit and a kind of drive.
ghost use Rattle.std.specs.Prelude.{◌≡◌, ◌<◌, IfSome};
ghost use Rattle.command_parts.specs.Fields.{kind_named, unit_named};

use mass_text::{Radix, number};
use pack_geometry::{DriveKind, kind_of};

/// Reads a unit in decimal, 0 to 31. None if the word is not such a number.
pub fn unit_in(word: &str) -> Option<u8>
    ensures unit { result ≡ unit_named word.now }
    ensures small { IfSome result (λ unit. unit < 32) }
{
    let unit = number(word.as_bytes(), Radix::Decimal, 31).ok()?;
    Some(unit as u8)
}

/// The kind of drive that a word names. None if it names none.
pub fn kind_in(word: &str) -> Option<DriveKind>
    ensures { result ≡ kind_named word.now }
{
    kind_of(word.as_bytes())
}
