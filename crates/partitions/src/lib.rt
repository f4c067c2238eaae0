//! The partitions of the drives, and the admission of requests to them. The sizes and the first cylinders are this
//! project's own choice; a pack that another system divided has that system's.
//!
//! What is proved: `part_of`, `part_range` and `admit` are exact for each kind; a partition, and a range inside it, have
//! data blocks only.
#![tactic(auto)]

ghost use Rattle.std.specs.Prelude.{◌≡◌, ◌<◌, ◌≤◌, ◌+◌, ◌↔◌, ◌⊎◌, ℕ, IsSome};
ghost use Rattle.pack_geometry.specs.Geometry.{limit_of};
ghost use Rattle.partitions.specs.declared.Part.{Part};
ghost use Rattle.partitions.specs.Partitions.{letter_of, extent_of, size_of, first_of, admission};

use pack_geometry::{DriveKind, data_limit, geometry_of};

/// A drive's partitions.
#[derive(Clone, Copy)]
pub enum Part {
    A,
    B,
    C,
    D,
    E,
    F,
    G,
    H,
}

/// The blocks of a partition: the number of its first block on the pack, and how many blocks it has.
#[derive(Clone, Copy)]
pub struct PartRange {
    pub first: u32,
    pub size: u32,
}

/// How a request fits its partition: it covers blocks inside, and then `first` is its first block on the pack; it begins
/// exactly at the end of the partition; or it covers blocks outside.
#[derive(Clone, Copy, PartialEq, Eq)]
pub enum Admission {
    Inside { first: u32 },
    Eof,
    Outside,
}

/// The partition that a letter names, `a` to `h`. None exactly if the letter is not one of these.
pub fn part_of(letter: u8) -> Option<Part>
    ensures named { (part : Part) → (result ≡ Some part) ↔ (letter ≡ letter_of part) }
    ensures found { IsSome result ↔ ((97 ≤ letter) × (letter ≤ 104)) }
{
    match letter {
        b'a' => Some(Part::A),
        b'b' => Some(Part::B),
        b'c' => Some(Part::C),
        b'd' => Some(Part::D),
        b'e' => Some(Part::E),
        b'f' => Some(Part::F),
        b'g' => Some(Part::G),
        b'h' => Some(Part::H),
        _ => None,
    }
}

/// The blocks of a partition. All of them are data blocks.
pub fn part_range(kind: DriveKind, part: Part) -> PartRange
    ensures first { result.first ≡ first_of kind part }
    ensures size { result.size ≡ size_of kind part }
    ensures data_blocks { result.first + result.size ≤ limit_of kind }
{
    let (cylinder, size) = extent_of(kind, part);
    let geometry = geometry_of(kind);
    PartRange {
        first: cylinder * geometry.tracks * geometry.sectors,
        size,
    }
}

/// The first cylinder and the size of a partition. Partition `c` has all data blocks.
fn extent_of(kind: DriveKind, part: Part) -> (u32, u32)
    ensures { result ≡ extent_of kind part }
{
    match (kind, part) {
        (_, Part::C) => (0, data_limit(kind)),
        (DriveKind::Rp06, Part::A) => (0, 15884),
        (DriveKind::Rp06, Part::B) => (38, 33440),
        (DriveKind::Rp06, Part::D) => (118, 15884),
        (DriveKind::Rp06, Part::E) => (156, 55936),
        (DriveKind::Rp06, Part::F) => (290, 219296),
        (DriveKind::Rp06, Part::G) => (118, 291192),
        (DriveKind::Rm03, Part::A) => (0, 15884),
        (DriveKind::Rm03, Part::B) => (100, 33440),
        (DriveKind::Rm03, Part::D) => (309, 15884),
        (DriveKind::Rm03, Part::E) => (409, 55936),
        (DriveKind::Rm03, Part::F) => (759, 10080),
        (DriveKind::Rm03, Part::G) => (309, 82080),
        (DriveKind::Rm05, Part::A) => (0, 15884),
        (DriveKind::Rm05, Part::B) => (27, 33440),
        (DriveKind::Rm05, Part::G) => (82, 450370),
        _ => (0, 0),
    }
}

/// How a request for `count` blocks, 1 to 127, from `block` of a partition on fits that partition. The result is Eof
/// exactly if the request begins at the partition's size, and Outside exactly if it begins behind that or reaches past
/// it. Otherwise the result is Inside, with the request's first block on the pack; such a range has data blocks only.
pub fn admit(kind: DriveKind, part: Part, block: u32, count: u32) -> Admission
    requires some { 1 ≤ count }
    requires few { count ≤ 127 }
    ensures value { result ≡ admission kind part block count }
    ensures eof { (result ≡ Admission.Eof) ↔ (block ≡ size_of kind part) }
    ensures outside { (result ≡ Admission.Outside)
        ↔ ((size_of kind part < block) ⊎ ((block < size_of kind part) × (size_of kind part < block + count))) }
    ensures inside { (first : ℕ) → (result ≡ Admission.Inside first)
        ↔ ((block + count ≤ size_of kind part) × (first ≡ first_of kind part + block)) }
    ensures data_blocks { (first : ℕ) → result ≡ Admission.Inside first → first + count ≤ limit_of kind }
{
    let range = part_range(kind, part);
    if block == range.size {
        Admission::Eof
    } else if block > range.size || count > range.size - block {
        Admission::Outside
    } else {
        Admission::Inside {
            first: range.first + block,
        }
    }
}
