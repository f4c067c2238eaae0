//! A sector as it lies on the pack: its header, its 512 bytes and their check. The words of the header follow the RP06,
//! RM03 and RM05 manuals; which bits of them this crate's tables use is the project's own choice.
//!
//! What is proved: `header_of`, `header_fault` and `raw_sector` are the header tables. The header of the wanted block
//! shows no fault if the sector is unmarked; if it is marked, it shows Format on an RP06, and BadSector on an RM03 or an RM05.

ghost use Rattle.std.specs.Prelude.{◌≡◌, ◌<◌};
ghost use Rattle.pack_geometry.specs.Geometry.{block_count};
ghost use Rattle.fire_code.specs.Word.{word_remainder};
ghost use Rattle.drive_model.specs.Headers.{cylinder_bits as the_bits, shows_bad as is_bad, header_at, fault_of, fault_as_marked};

use fire_code::{Check, encode};
use pack_geometry::{DriveKind, place_of, sector_word};

/// A sector's header: the word of the cylinder, with the bits above it that say whether the sector is good, and the word
/// `track * 256 + sector`.
#[derive(Clone, Copy)]
pub struct Header {
    pub cylinder_word: u16,
    pub sector_word: u16,
}

/// A sector as it lies on the pack.
#[derive(Drop)]
pub struct RawSector {
    pub header: Header,
    pub body: [u8; 512],
    pub check: Check,
}

/// What is wrong with the header that is read when a block is wanted.
#[derive(Clone, Copy, PartialEq, Eq)]
pub enum HeaderFault {
    /// The format bit is off. A marked sector of an RP06 shows this fault.
    Format,
    /// A bit of a good sector is off. A marked sector of an RM03 or an RM05 shows this fault.
    BadSector,
    /// The header belongs to another sector.
    Compare,
}

// The bits above the cylinder.
fn cylinder_bits(kind: DriveKind, marked: bool) -> u16
    ensures { result ≡ the_bits kind marked }
{
    match (kind, marked) {
        (DriveKind::Rp06, false) => 0o010000,
        (DriveKind::Rp06, true) => 0,
        (DriveKind::Rm03 | DriveKind::Rm05, false) => 0o150000,
        (DriveKind::Rm03 | DriveKind::Rm05, true) => 0o110000,
    }
}

/// The header of a block. It shows whether the sector is marked.
pub fn header_of(kind: DriveKind, block: u32, marked: bool) -> Header
    requires { block < block_count kind }
    ensures header { result ≡ header_at kind block marked }
    ensures shown { fault_of kind result block ≡ fault_as_marked kind marked }
{
    let place = place_of(kind, block);
    Header {
        cylinder_word: place.cylinder as u16 | cylinder_bits(kind, marked),
        sector_word: sector_word(place),
    }
}

/// What is wrong with the header that is read when a block is wanted: the first of these faults that applies. `BadSector`
/// if the kind is RM03 or RM05 and one of the bits 0o100000 and 0o40000 is off; `Format` if the bit 0o10000 is off;
/// `Compare` if the header is not that of the wanted block's place. `None` if nothing is wrong.
pub fn header_fault(kind: DriveKind, header: Header, wanted: u32) -> Option<HeaderFault>
    requires { wanted < block_count kind }
    ensures { result ≡ fault_of kind header wanted }
{
    let word = header.cylinder_word;
    let place = place_of(kind, wanted);
    let cylinder = u32::from(word & 0o1777);
    if shows_bad(kind, word) {
        Some(HeaderFault::BadSector)
    } else if word & 0o10000 == 0 {
        Some(HeaderFault::Format)
    } else if cylinder != place.cylinder || header.sector_word != sector_word(place) {
        Some(HeaderFault::Compare)
    } else {
        None
    }
}

// Whether a bit of a good sector is off.
fn shows_bad(kind: DriveKind, word: u16) -> bool
    ensures { result ≡ is_bad kind word }
{
    match kind {
        DriveKind::Rp06 => false,
        DriveKind::Rm03 | DriveKind::Rm05 => word & 0o100000 == 0 || word & 0o40000 == 0,
    }
}

/// A sector as it is written: the header of the block, the bytes, and the check that makes their word right.
pub fn raw_sector(kind: DriveKind, block: u32, marked: bool, body: &[u8; 512]) -> RawSector
    requires { block < block_count kind }
    ensures header { result.header ≡ header_at kind block marked }
    ensures body { result.body ≡ body.now }
    ensures right { word_remainder result.body result.check.0 ≡ 0 }
{
    RawSector {
        header: header_of(kind, block, marked),
        body: *body,
        check: encode(body),
    }
}
