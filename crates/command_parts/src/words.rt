// The words of a transfer.
ghost use Rattle.std.specs.Prelude.{◌≡◌, ◌<◌, ◌≤◌, ◌^◌, map, IfSome};
ghost use Rattle.std.specs.String.{string_bytes};
ghost use Rattle.command_parts.specs.Fields.{kind_named, unit_named};
ghost use Rattle.command_parts.specs.Words.{IsInRange, IsTarget, dump_named, part_named, place_named, raw_named, size_named, sized_named, target_of, written_named};

use crate::fields::{kind_in, unit_in};
use mass_text::{Radix, number};
use pack_geometry::DriveKind;
use partitions::Part;
use script_lines::part_field;

/// Where a transfer begins: a unit with a drive of this kind, a partition of the unit, and a byte of the partition, counted from 0.
#[derive(Clone, Copy)]
pub struct Target {
    pub unit: u8,
    pub kind: DriveKind,
    pub part: Part,
    pub at: u64,
}

/// Where the bytes of the source are written.
#[derive(Clone, Copy)]
pub enum Writing {
    /// From a byte of a partition on.
    Raw { target: Target },
    /// To the end of partition `b`, filled up with zeros to whole blocks.
    Dump { unit: u8, kind: DriveKind },
}

/// What is transferred.
#[derive(Clone, Copy)]
pub enum Transfer {
    /// `size` bytes of a partition are read.
    Read { target: Target, size: u32 },
    /// The bytes of the source are written.
    Write { writing: Writing },
}

/// A partition's letter.
fn part_in(word: &str) -> Option<Part>
    ensures { result ≡ part_named word.now }
{
    part_field(word.as_bytes()).ok()
}

/// A place in a partition in decimal, below 2^40.
fn place_in(word: &str) -> Option<u64>
    ensures place { result ≡ place_named word.now }
    ensures small { IfSome result (λ at. at < 2 ^ 40) }
{
    number(word.as_bytes(), Radix::Decimal, 1_099_511_627_775).ok()
}

/// A number of bytes in decimal, 16,777,216 at the most.
fn size_in(word: &str) -> Option<u32>
    ensures size { result ≡ size_named word.now }
    ensures few { IfSome result (λ size. size ≤ 16777216) }
{
    let size = number(word.as_bytes(), Radix::Decimal, 16_777_216).ok()?;
    Some(size as u32)
}

/// A unit, a kind, a partition and a place.
fn target_in(unit: &str, kind: &str, part: &str, at: &str) -> Option<Target>
    ensures named { result ≡ target_of (unit_named unit.now) (kind_named kind.now) (part_named part.now) (place_named at.now) }
    ensures valid { IfSome result IsTarget }
{
    let unit = unit_in(unit)?;
    let kind = kind_in(kind)?;
    let part = part_in(part)?;
    let at = place_in(at)?;
    Some(Target {
        unit,
        kind,
        part,
        at,
    })
}

/// What `raw write` transfers, by a unit, a kind, a partition and a place; None for another verb.
fn written_in(verb: &str, unit: &str, kind: &str, part: &str, at: &str) -> Option<Transfer>
    ensures named { result ≡ written_named verb.now unit.now kind.now part.now at.now }
    ensures valid { IfSome result IsInRange }
{
    if verb != "write" {
        return None;
    }
    let target = target_in(unit, kind, part, at)?;
    Some(Transfer::Write {
        writing: Writing::Raw { target },
    })
}

/// What `raw read` transfers, by a unit, a kind, a partition, a place and a number of bytes; None for another verb.
fn sized_in(
    verb: &str,
    unit: &str,
    kind: &str,
    part: &str,
    at: &str,
    size: &str,
) -> Option<Transfer>
    ensures named { result ≡ sized_named verb.now unit.now kind.now part.now at.now size.now }
    ensures valid { IfSome result IsInRange }
{
    if verb != "read" {
        return None;
    }
    let target = target_in(unit, kind, part, at)?;
    let size = size_in(size)?;
    Some(Transfer::Read { target, size })
}

/// What `raw` transfers, by its verb, a unit, a kind and the words after them. `read` takes a partition, a place in it below 2^40, and
/// a number of bytes, at most 16,777,216. `write` takes a partition and a place. None if the words are neither of these.
pub fn raw_in(verb: &str, unit: &str, kind: &str, rest: &[String]) -> Option<Transfer>
    ensures named { result ≡ raw_named verb.now unit.now kind.now (map string_bytes rest.now) }
    ensures valid { IfSome result IsInRange }
{
    match rest {
        [part, at] => written_in(verb, unit, kind, part.as_str(), at.as_str()),
        [part, at, size] => sized_in(verb, unit, kind, part.as_str(), at.as_str(), size.as_str()),
        [] => None,
        [_] => None,
        [_, _, _, _, ..] => None,
    }
}

/// What `dump` transfers, by a unit and a kind of drive. None if the words do not name them.
pub fn dump_in(unit: &str, kind: &str) -> Option<Transfer>
    ensures named { result ≡ dump_named unit.now kind.now }
    ensures valid { IfSome result IsInRange }
{
    let unit = unit_in(unit)?;
    let kind = kind_in(kind)?;
    Some(Transfer::Write {
        writing: Writing::Dump { unit, kind },
    })
}
