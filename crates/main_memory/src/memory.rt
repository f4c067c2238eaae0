// The memory itself: frames lent and given back, and blocks stored and fetched.
ghost use Rattle.std.specs.Prelude.{◌≡◌, ◌<◌, ◌+◌, ◌↔◌, IfOk, OnOk, IfErr, OnErr, IsErr, IsSomeAnd, IfSome, slice_get, length, take, drop, slice_set};
ghost use Rattle.main_memory.specs.Frames.{all_frames, frames_needed, with_frames};
ghost use Rattle.main_memory.specs.Bytes.{front, filled, IsFill};
ghost use Rattle.main_memory.specs.Blocks.{Loan, IsShape, IsLoan, IsSpan, size_at, span_of, bytes_in};
ghost use Rattle.main_memory.specs.Memory.{IsMemory, IsLent, AreApart, with_block, with_span, blocks_of};

use crate::bits::{give_frames, take_frames};
use crate::buffer::{Buffer, Cpu, frames_of};
use crate::frames::Frames;
use crate::span::{Span, fill_span, read_filled, write_front};
use no_memory::NoMemory;
use std::alloc::Global;
use std::marker::Model;
use thiserror::Error;

/// Fewer frames are free than a buffer needs.
#[derive(Debug, Drop, Error)]
#[error("no frames: {free} are free")]
pub struct NoFrames {
    /// How many frames are free.
    pub free: u32,
}

/// How many frames of 512 bytes the memory has.
pub const FRAMES: u32 = 16_384;

/// 16,384 frames of 512 bytes. Each frame is free or lent.
#[derive(Drop)]
pub struct MainMemory {
    bytes: Frames,
    free_words: [u64; 256],
    free: u32,
}

impl Model for MainMemory {
    ghost use Rattle.std.specs.Prelude.{◌≡◌, length};
    ghost use Rattle.main_memory.specs.Frames.{free_frames};
    ghost use Rattle.main_memory.specs.Memory.{Memory, Keeps};

    ghost Value = { Memory };

    ghost view = { λ m. record { bytes = m.bytes; free = free_frames m.free_words } };

    ghost invariant = { λ m. Keeps m.bytes m.free_words m.free };
}

impl MainMemory {
    /// Takes the memory; all frames are free. `NoMemory` if the memory is not available.
    pub fn new(alloc: Global) -> Result<MainMemory, NoMemory>
        ensures free { IfOk result (λ memory. memory.free ≡ all_frames) }
        ensures every { IfOk result (λ memory. length memory.free ≡ 16384) }
        ensures sound { IfOk result IsMemory }
    {
        let bytes = Frames::new(alloc)?;
        Ok(MainMemory {
            bytes,
            free_words: [u64::MAX; 256],
            free: FRAMES,
        })
    }

    /// Lends a buffer of `count` blocks, from 1 to 127. The last block has `last` bytes, from 1 to 512, and the bytes
    /// begin at place `offset` of the first frame, from 0 to 511. The buffer gets as many frames as these bytes reach:
    /// the lowest free frames, in ascending order. `NoFrames` exactly if fewer frames are free; then nothing changes.
    pub fn lend(&mut self, count: u32, offset: u32, last: u32) -> Result<Buffer<Cpu>, NoFrames>
        requires shape { IsShape count offset last }

        // The call is refused exactly if too few frames are free.
        ensures refused { IsErr result ↔ (length self.old.free < frames_needed count offset last) }
        ensures free { IfErr result (λ e. e.free ≡ length self.old.free) }
        ensures unchanged { OnErr result (self.new ≡ self.old) }

        // The buffer gets the lowest free frames, which are then no longer free.
        ensures buffer { IfOk result (λ b. b ≡ record { frames = take (frames_needed count offset last) self.old.free; offset = offset; count = count; last = last }) }
        ensures memory { OnOk result (self.new ≡ record self.old { free = drop (frames_needed count offset last) self.old.free }) }

        // No frame is lent twice.
        ensures lent { IfOk result (λ b. IsLoan b × IsLent self.new b) }
        ensures apart { IfOk result (λ b. (other : Loan) → IsLent self.old other → AreApart b other) }
        ensures others { (other : Loan) → IsLent self.old other → IsLent self.new other }
        ensures sound { IsMemory self.new }
    {
        let needed = (offset + 512 * (count - 1) + last + 511) / 512;
        if self.free < needed {
            return Err(NoFrames { free: self.free });
        }
        let frames = take_frames(&mut self.free_words, needed);
        self.free -= needed;
        Ok(Buffer::of(frames, offset, count, last))
    }

    /// Takes the frames of a buffer back: they are free again.
    pub fn give_back(&mut self, buffer: Buffer<Cpu>)
        requires { IsLent self.old buffer }
        ensures memory { self.new ≡ record self.old { free = with_frames buffer.frames self.old.free } }
        ensures count { length self.new.free ≡ length self.old.free + length buffer.frames }
        ensures others { (other : Loan) → IsLent self.old other → AreApart buffer other → IsLent self.new other }
        ensures sound { IsMemory self.new }
    {
        let frames = frames_of(&buffer);
        give_frames(&mut self.free_words, frames);
        self.free += frames.len() as u32;
    }

    /// Writes block `k` of a buffer, counted from 0: as many of these bytes as the block has, from the first one on.
    pub fn store(&mut self, buffer: &Buffer<Cpu>, k: u32, from: &[u8; 512])
        requires lent { IsLent self.old buffer.now }
        requires inside { k < buffer.now.count }
        ensures memory { self.new ≡ with_block buffer.now k (front (size_at buffer.now k) from.now) self.old }
        ensures held { blocks_of buffer.now self.new ≡ slice_set (blocks_of buffer.now self.old) k (front (size_at buffer.now k) from.now) }
        ensures others { (other : Loan) → IsLoan other → IsLent self.old other → AreApart buffer.now other
            → blocks_of other self.new ≡ blocks_of other self.old }
        ensures lent { (other : Loan) → IsLent self.old other → IsLent self.new other }
        ensures sound { IsMemory self.new }
    {
        self.write(buffer.span_at(k), from);
    }

    /// Reads block `k` of a buffer, counted from 0: the bytes of the block, and then zeros.
    pub fn fetch(&self, buffer: &Buffer<Cpu>, k: u32, into: &mut [u8; 512])
        requires lent { IsLent self.now buffer.now }
        requires inside { k < buffer.now.count }
        ensures block { into.new ≡ filled 512 (bytes_in (span_of buffer.now k) self.now.bytes) }
        ensures held { IsSomeAnd (slice_get (blocks_of buffer.now self.now) k) (λ block. into.new ≡ filled 512 block) }
    {
        self.read(buffer.span_at(k), into);
    }

    /// The byte that all bytes of block `k` of a buffer are, counted from 0, if the memory knows it without reading the block.
    pub fn fill(&self, buffer: &Buffer<Cpu>, k: u32) -> Option<u8>
        requires lent { IsLent self.now buffer.now }
        requires inside { k < buffer.now.count }
        ensures block { IfSome result (λ byte. IsFill byte (bytes_in (span_of buffer.now k) self.now.bytes)) }
        ensures held { IfSome result (λ byte. IsSomeAnd (slice_get (blocks_of buffer.now self.now) k) (IsFill byte)) }
    {
        fill_span(&self.bytes, buffer.span_at(k))
    }

    // Writes the bytes of a span: the first ones of these 512.
    pub(crate) fn write(&mut self, span: Span, from: &[u8; 512])
        requires { IsSpan span }
        ensures memory { self.new ≡ with_span span (front span.len from.now) self.old }
        ensures size { length self.old.bytes ≡ 8388608 }
        ensures sound { IsMemory self.new }
    {
        write_front(&mut self.bytes, span, from);
    }

    // Reads the bytes of a span, and then zeros.
    pub(crate) fn read(&self, span: Span, into: &mut [u8; 512])
        requires { IsSpan span }
        ensures block { into.new ≡ filled 512 (bytes_in span self.now.bytes) }
        ensures size { length self.now.bytes ≡ 8388608 }
    {
        read_filled(&self.bytes, span, into);
    }
}
