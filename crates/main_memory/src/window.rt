// Windows on blocks of a buffer.
ghost use Rattle.std.specs.Prelude.{◌≡◌, ◌<◌, ◌≤◌, length, slice_index, slice_set};
ghost use Rattle.main_memory.specs.Blocks.{IsSpan};
ghost use Rattle.main_memory.specs.Bytes.{front, filled};
ghost use Rattle.main_memory.specs.Memory.{IsLent};

use crate::buffer::{Buffer, Bus};
use crate::memory::MainMemory;
use crate::span::Span;

/// Block `k` of a buffer as bytes of main memory, in one frame or two. It has 512 bytes, except that the last block has
/// only as many as the buffer has of it. A write through the window changes that block and no other byte of the memory.
/// While the window is open, it borrows the memory.
#[derive(Drop)]
pub struct Window<'a> {
    memory: &'a mut MainMemory,
    span: Span,
    ghost inside: { IsSpan span },
}

impl MainMemory {
    ghost use Rattle.main_memory.specs.Windows.{IsOn, memory_name, memory_of};

    /// Opens a window on block `k` of a buffer, counted from 0.
    pub fn window(&mut self, buffer: &Buffer<Bus>, k: u32) -> Window<'_>
        requires lent { IsLent self.old buffer.now }
        requires inside { k < buffer.now.count }
        ensures same_memory { memory_name result ≡ self.entry.ghost_name }
        ensures unchanged { memory_of result ≡ self.old }
        ensures block { IsOn buffer.now k result }
    {
        Window {
            memory: self,
            span: buffer.span_at(k),
        }
    }
}

impl<'a> Window<'a> {
    ghost use Rattle.main_memory.specs.Windows.{memory_name, memory_of, window_len, window_bytes, Writes};

    /// The number of bytes of the block: 512, except that the last block of a buffer has from 1 to 512.
    pub fn len(&self) -> u32
        ensures len { result ≡ window_len self.now }
        ensures some { 1 ≤ result }
        ensures few { result ≤ 512 }
    {
        self.span.len as u32
    }

    /// Writes the block: the first `len` of these bytes.
    pub fn copy_in(&mut self, from: &[u8; 512])
        ensures same_memory { memory_name self.new ≡ memory_name self.old }
        ensures writes { Writes self.old self.new (front (window_len self.old) from.now) }
        ensures bytes { window_bytes self.new ≡ front (window_len self.old) from.now }
    {
        self.memory.write(self.span, from);
    }

    /// Reads the block: its bytes, and then zeros.
    pub fn copy_out(&self, into: &mut [u8; 512])
        ensures bytes { into.new ≡ filled 512 (window_bytes self.now) }
        ensures whole { length (memory_of self.now).bytes ≡ 8388608 }
    {
        self.memory.read(self.span, into);
    }

    /// Byte `at` of the block. `at` is below the window's `len`.
    pub fn get(&self, at: u32) -> u8
        requires { at < window_len self.now }
        ensures byte { result ≡ slice_index (window_bytes self.now) at }
        ensures whole { length (memory_of self.now).bytes ≡ 8388608 }
    {
        let mut bytes = [0; 512];
        self.copy_out(&mut bytes);
        bytes[at as usize]
    }

    /// Sets byte `at` of the block. `at` is below the window's `len`.
    pub fn set(&mut self, at: u32, byte: u8)
        requires { at < window_len self.old }
        ensures same_memory { memory_name self.new ≡ memory_name self.old }
        ensures writes { Writes self.old self.new (slice_set (window_bytes self.old) at byte) }
        ensures bytes { window_bytes self.new ≡ slice_set (window_bytes self.old) at byte }
    {
        let mut bytes = [0; 512];
        self.copy_out(&mut bytes);
        bytes[at as usize] = byte;
        self.copy_in(&bytes);
    }
}
