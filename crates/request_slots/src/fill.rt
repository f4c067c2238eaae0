// Buffers that are lent for requests, filled with the bytes of writes, and repaired.
ghost use Rattle.std.specs.Prelude.{◌≡◌, ◌*◌, ◌<◌, ◌+◌, ◌-◌, ◌≤◌, true, ◌++◌, take, drop, length};
ghost use Rattle.main_memory.specs.Bytes.{filled};
ghost use Rattle.main_memory.specs.Frames.{frames_needed};
ghost use Rattle.main_memory.specs.Blocks.{Loan, IsLoan, size_of, span_of, bytes_in};
ghost use Rattle.main_memory.specs.Memory.{IsMemory, IsLent, AreApart, with_block, blocks_of};
ghost use Rattle.driver_machine.specs.Repaired.{repaired};
ghost use Rattle.driver_machine.specs.World.{pieces};
ghost use Rattle.request_slots.specs.Requests.{IsAskable};
ghost use Rattle.request_slots.specs.Lending.{HasLent, Stores};

use crate::asked::Asked;
use driver_machine::ecc_repair::repair;
use main_memory::{Buffer, Cpu, MainMemory, to_bus, to_cpu};

// Piece `k` of the bytes: 512 of them, or those that are left.
fn piece(bytes: &[u8], k: u32) -> &[u8]
    requires { 512 * k ≤ length bytes.now }
    ensures { result.now ≡ take 512 (drop (512 * k) bytes.now) }
{
    let rest = &bytes[512 * k as usize..];
    &rest[..rest.len().min(512)]
}

// Puts bytes at the front of a block.
fn put_front(block: &mut [u8], bytes: &[u8])
    requires { length bytes.now ≤ length block.old }
    ensures { block.new ≡ bytes.now ++ drop (length bytes.now) block.old }
{
    block[..bytes.len()].copy_from_slice(bytes);
}

// Piece `k` of the bytes, followed by zeros.
fn block_at(bytes: &[u8], k: u32) -> [u8; 512]
    requires { 512 * k ≤ length bytes.now }
    ensures { result ≡ filled 512 (take 512 (drop (512 * k) bytes.now)) }
{
    let mut block = [0; 512];
    put_front(&mut block, piece(bytes, k));
    block
}

// Stores piece `k` of the bytes into block `k` of the buffer, which has the same length.
fn store_piece(memory: &mut MainMemory, buffer: &Buffer<Cpu>, k: u32, bytes: &[u8])
    requires shape { IsLoan buffer.now }
    requires lent { IsLent memory.old buffer.now }
    requires inside { k < buffer.now.count }
    requires whole { length bytes.now ≡ size_of buffer.now }
    ensures { Stores memory.old memory.new buffer.now k (take 512 (drop (512 * k) bytes.now)) }
{
    let rest = &bytes[512 * k as usize..];
    match rest.first_chunk::<512>() {
        Some(block) => memory.store(buffer, k, block),
        None => {
            let block = block_at(bytes, k);
            memory.store(buffer, k, &block);
        }
    }
}

// Stores the bytes into the buffer, block by block.
fn fill(memory: &mut MainMemory, buffer: &Buffer<Cpu>, bytes: &[u8])
    requires shape { IsLoan buffer.now }
    requires lent { IsLent memory.old buffer.now }
    requires sound { IsMemory memory.old }
    requires whole { length bytes.now ≡ size_of buffer.now }
    ensures held { blocks_of buffer.now memory.new ≡ pieces buffer.now.count bytes.now }
    ensures others { (other : Loan) → IsLoan other → IsLent memory.old other → AreApart buffer.now other
        → blocks_of other memory.new ≡ blocks_of other memory.old }
    ensures lent { (other : Loan) → IsLent memory.old other → IsLent memory.new other }
    ensures free { memory.new.free ≡ memory.old.free }
    ensures sound { IsMemory memory.new }
{
    for k in 0..buffer.count() {
        store_piece(memory, buffer, k, bytes);
    }
}

// Lends a buffer for a request, with the bytes of a write in it.
pub(crate) fn lend_filled(memory: &mut MainMemory, asked: Asked, bytes: &[u8]) -> Buffer<Cpu>
    requires asked { IsAskable asked bytes.now }
    requires room { frames_needed asked.count asked.offset asked.last ≤ length memory.old.free }
    ensures lent { HasLent memory.old memory.new result asked }
    ensures content { asked.write ≡ true → blocks_of result memory.new ≡ pieces asked.count bytes.now }
{
    let buffer = match memory.lend(asked.count, asked.offset, asked.last) {
        Ok(buffer) => buffer,
        Err(_) => unreachable!(),
    };
    if !asked.write {
        return buffer;
    }
    fill(memory, &buffer, bytes);
    buffer
}

// Repairs block `k` of a buffer.
pub(crate) fn repair_block(
    memory: &mut MainMemory,
    buffer: Buffer<Cpu>,
    k: u32,
    at: u16,
    pattern: u16,
) -> Buffer<Cpu>
    requires lent { IsLent memory.old buffer }
    requires inside { k < buffer.count }
    requires first { 1 ≤ at }
    requires last { at ≤ 4128 }
    requires pattern { pattern < 2048 }
    ensures same_buffer { result ≡ buffer }
    ensures memory { memory.new ≡ with_block buffer k (repaired at pattern (bytes_in (span_of buffer k) memory.old.bytes)) memory.old }
{
    let buffer = to_bus(buffer);
    repair(&mut memory.window(&buffer, k), at, pattern);
    to_cpu(buffer)
}
