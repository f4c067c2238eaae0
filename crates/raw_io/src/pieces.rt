// Pieces of a range, each of as many blocks as one request has.
ghost use Rattle.std.specs.Prelude.{◌≡◌, ◌≤◌, ◌<◌, ◌+◌, ◌^◌, ◌↔◌, true, false, IsTrue};
ghost use Rattle.driver_laws.specs.rules.Bytes.{IsOutside};
ghost use Rattle.driver_laws.specs.rules.Pieces.{bytes_among};
ghost use Rattle.raw_io.specs.Pieces.{IsPiece, IsWholeOrOne};

use blocking_io::Request;
use pack_geometry::DriveKind;
use partitions::{Part, part_range};

/// The blocks that a piece of a range touches, and the piece in them: `size` bytes that follow the first `skip`.
#[derive(Clone, Copy)]
pub(crate) struct Piece {
    pub(crate) request: Request,
    pub(crate) skip: usize,
    pub(crate) size: usize,
}

/// Whether a range of `size` bytes that begins at byte `at` of a partition, below 2^40, reaches beyond that partition.
pub fn is_outside(kind: DriveKind, part: Part, at: u64, size: usize) -> bool
    requires { at < 2 ^ 40 }
    ensures { IsTrue result ↔ IsOutside kind part at size }
{
    let bytes = 512 * u64::from(part_range(kind, part).size);
    at > bytes || size as u64 > bytes - at
}

/// A request for `count` blocks of a partition, from `block` on.
fn whole_blocks(unit: u8, part: Part, block: u32, count: u32, write: bool) -> Request
    ensures { result ≡ record { id = 0; unit = unit; part = part; block = block; count = count; write = write; offset = 0; last = 512 } }
{
    Request {
        id: 0,
        unit,
        part,
        block,
        count,
        write,
        offset: 0,
        last: 512,
    }
}

/// The first piece of a range that is read.
pub(crate) fn piece_to_read(unit: u8, part: Part, place: u64, left: usize) -> Piece
    requires some { 1 ≤ left }
    requires few { place + left < 2 ^ 32 }
    ensures { IsPiece unit part false place left result }
{
    let skip = place % 512;
    let count = ((skip + left as u64 + 511) / 512).min(127);
    Piece {
        request: whole_blocks(unit, part, (place / 512) as u32, count as u32, false),
        skip: skip as usize,
        size: ((512 * count - skip) as usize).min(left),
    }
}

/// The first piece of a range that is written: one block that it covers in part, or whole blocks.
pub(crate) fn piece_to_write(unit: u8, part: Part, place: u64, left: usize) -> Piece
    requires some { 1 ≤ left }
    requires few { place + left < 2 ^ 32 }
    ensures piece { IsPiece unit part true place left result }
    ensures whole { IsWholeOrOne result }
{
    let skip = place % 512;
    let block = (place / 512) as u32;
    if skip > 0 || left < 512 {
        Piece {
            request: whole_blocks(unit, part, block, 1, true),
            skip: skip as usize,
            size: ((512 - skip) as usize).min(left),
        }
    } else {
        let count = (left / 512).min(127);
        Piece {
            request: whole_blocks(unit, part, block, count as u32, true),
            skip: 0,
            size: 512 * count,
        }
    }
}

/// How many bytes of a piece lie in its first blocks.
pub(crate) fn bytes_among(blocks: u32, skip: usize, size: usize) -> usize
    requires skip { skip < 512 }
    requires few { blocks ≤ 127 }
    ensures { result ≡ bytes_among blocks skip size }
{
    if blocks == 0 {
        0
    } else {
        (512 * blocks as usize - skip).min(size)
    }
}
