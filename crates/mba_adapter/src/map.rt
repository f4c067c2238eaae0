// The map registers that a transfer uses.
ghost use Rattle.std.specs.Prelude.{◌≡◌, ◌≤◌, ◌<◌, ◌+◌, ◌*◌, ◌++◌, drop, length};
ghost use Rattle.hardware_table.specs.Adapter.{registers_of, bytes_between, registers_used};

use arrayvec::ArrayVec;

// How many bytes blocks skip to skip + count - 1 of a buffer have. The last block of the buffer has `last` bytes.
pub fn bytes_between(blocks: u32, last: u32, skip: u32, count: u32) -> u32
    requires some { 1 ≤ count }
    requires inside { skip + count ≤ blocks }
    requires few { blocks ≤ 127 }
    requires last { last ≤ 512 }
    ensures bytes { result ≡ bytes_between blocks last skip count }
    ensures bound { result ≤ 512 * count }
{
    if skip + count == blocks {
        512 * count - (512 - last)
    } else {
        512 * count
    }
}

// How many registers this many bytes use, from a place of the first frame on.
pub fn registers_used(bytes: u32, offset: u32) -> u32
    requires bytes { bytes ≤ 65024 }
    requires offset { offset < 512 }
    ensures { result ≡ registers_used bytes offset }
{
    (offset + bytes + 511) / 512
}

// Puts frames into the first registers.
fn put_first(registers: &mut [u16], frames: &[u16])
    requires { length frames.now ≤ length registers.old }
    ensures { registers.new ≡ frames.now ++ drop (length frames.now) registers.old }
{
    registers[..frames.len()].copy_from_slice(frames);
}

// A map whose first registers hold these frames. The other registers hold 0.
pub(crate) fn map_of(frames: &[u16]) -> [u16; 256]
    requires { length frames.now ≤ 256 }
    ensures { result ≡ registers_of 256 frames.now }
{
    let mut registers = [0; 256];
    put_first(&mut registers, frames);
    registers
}

// A copy of a buffer's frames.
pub fn copy_of(frames: &[u16]) -> ArrayVec<u16, 128>
    requires { length frames.now ≤ 128 }
    ensures { result.items ≡ frames.now }
{
    let mut copy = ArrayVec::new();
    copy.try_extend_from_slice(frames).unwrap();
    copy
}
