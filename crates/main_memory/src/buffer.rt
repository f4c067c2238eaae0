// Buffers: frames that the memory lent, as values that are moved.
ghost use Rattle.std.specs.Prelude.{◌≡◌, ◌<◌, slice_index};
ghost use Rattle.main_memory.specs.Blocks.{IsLoan, size_at, span_of};

use crate::span::Span;
use arrayvec::ArrayVec;
use std::marker::{Model, PhantomData};

/// A buffer in this state belongs to the driver, which stores and fetches its blocks.
#[derive(Clone, Copy)]
pub struct Cpu;

/// A buffer in this state belongs to an adapter, which opens windows on its blocks.
#[derive(Clone, Copy)]
pub struct Bus;

/// Blocks of 512 bytes in frames of main memory. A buffer has its frames in order; the place in the first frame at which
/// its bytes begin, from 0 to 511; the number of its blocks, from 1 to 127; and the number of bytes of its last block,
/// from 1 to 512. A buffer is moved, not copied, between the driver and an adapter. If a buffer is dropped, its frames stay lent.
#[derive(Drop)]
pub struct Buffer<S> {
    frames: ArrayVec<u16, 128>,
    offset: u32,
    count: u32,
    last: u32,
    state: PhantomData<S>,
}

impl<S> Model for Buffer<S> {
    ghost use Rattle.main_memory.specs.Blocks.{Loan, IsLoan};

    ghost Value = { Loan };

    ghost view = { λ b. record { frames = b.frames.items; offset = b.offset; count = b.count; last = b.last } };

    ghost invariant = { λ b. IsLoan (record { frames = b.frames.items; offset = b.offset; count = b.count; last = b.last }) };
}

impl<S> Buffer<S> {
    // A buffer of these frames.
    pub(crate) fn of(frames: ArrayVec<u16, 128>, offset: u32, count: u32, last: u32) -> Buffer<S>
        requires { IsLoan (record { frames = frames.items; offset = offset; count = count; last = last }) }
        ensures value { result ≡ record { frames = frames.items; offset = offset; count = count; last = last } }
        ensures shape { IsLoan result }
    {
        Buffer {
            frames,
            offset,
            count,
            last,
            state: PhantomData,
        }
    }

    /// The place in the first frame at which the buffer's bytes begin, from 0 to 511.
    pub fn offset(&self) -> u32
        ensures { result ≡ self.now.offset }
    {
        self.offset
    }

    /// The number of blocks, from 1 to 127.
    pub fn count(&self) -> u32
        ensures { result ≡ self.now.count }
    {
        self.count
    }

    /// The number of bytes of the last block, from 1 to 512.
    pub fn last(&self) -> u32
        ensures { result ≡ self.now.last }
    {
        self.last
    }

    // How many bytes a block has.
    fn size_at(&self, k: u32) -> u32
        requires { k < self.now.count }
        ensures size { result ≡ size_at self.now k }
        ensures shape { IsLoan self.now }
    {
        let count = self.count;
        if k + 1 == count { self.last } else { 512 }
    }

    // Where a block lies.
    pub(crate) fn span_at(&self, k: u32) -> Span
        requires { k < self.now.count }
        ensures span { result ≡ span_of self.now k }
        ensures shape { IsLoan self.now }
    {
        let frames = self.frames.as_slice();
        Span {
            frame: frame_at(frames, k),
            next: frame_at(frames, k + 1),
            offset: self.offset as usize,
            len: self.size_at(k) as usize,
        }
    }
}

// The frame at a place of the list, and 0 behind its end.
fn frame_at(frames: &[u16], place: u32) -> usize
    ensures { result ≡ slice_index frames.now place }
{
    usize::from(frames.get(place as usize).copied().unwrap_or(0))
}

/// Hands a buffer to an adapter.
pub fn to_bus(buffer: Buffer<Cpu>) -> Buffer<Bus>
    ensures same { result ≡ buffer }
    ensures shape { IsLoan buffer }
{
    Buffer::of(buffer.frames, buffer.offset, buffer.count, buffer.last)
}

/// Hands a buffer back to the driver.
pub fn to_cpu(buffer: Buffer<Bus>) -> Buffer<Cpu>
    ensures same { result ≡ buffer }
    ensures shape { IsLoan buffer }
{
    Buffer::of(buffer.frames, buffer.offset, buffer.count, buffer.last)
}

/// The frames of a buffer, in order.
pub fn frames_of<S>(buffer: &Buffer<S>) -> &[u16]
    ensures frames { result.now ≡ buffer.now.frames }
    ensures shape { IsLoan buffer.now }
{
    buffer.frames.as_slice()
}
