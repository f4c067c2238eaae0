// The bytes of all frames, and for each frame the byte that fills it, if that is known.
ghost use Rattle.std.specs.Prelude.{◌≡◌, ◌≤◌, ◌<◌, ◌+◌, ◌*◌, ◌↔◌, ℕ, length, IfOk, IfSome, IsTrue, slice_index, slice_index_or, Some, None};
ghost use Rattle.main_memory.specs.Bytes.{part, with_part, IsFill};

use crate::bytes::Bytes;
use crate::memory::FRAMES;
use std::alloc::{AllocError, Global};
use std::marker::Model;

// The bytes, and for each frame the byte that fills it, if that is known. Bytes that a frame is known to have are not
// written again, so a frame that does not change need not come near the processor.
#[derive(Drop)]
pub struct Frames {
    bytes: Bytes,
    fills: Vec<Option<u8>>,
}

impl Model for Frames {
    ghost use Rattle.std.specs.Prelude.{ℕ, List};
    ghost use Rattle.main_memory.specs.Bytes.{AreFills};

    ghost Value = { List ℕ };

    ghost view = { λ f. f.bytes };

    ghost invariant = { λ f. AreFills f.fills.items f.bytes };
}

// Whether bytes are one byte repeated. The loop has no early exit, so that many bytes are compared at a time.
fn is_fill(bytes: &[u8]) -> bool
    requires { 1 ≤ length bytes.now }
    ensures { IsTrue result ↔ IsFill (slice_index bytes.now 0) bytes.now }
{
    let first = bytes[0];
    let mut differ = 0u8;
    for byte in bytes {
        differ |= *byte ^ first;
    }
    differ == 0
}

// The byte that fills a frame after a write of these bytes, if they are one byte repeated.
fn fill_of(bytes: &[u8; 512]) -> Option<u8>
    ensures { (byte : ℕ) → (result ≡ Some byte) ↔ IsFill byte bytes.now }
{
    if is_fill(bytes) { Some(bytes[0]) } else { None }
}

// What is known of frames whose bytes are all zeros.
fn all_zeros(alloc: Global) -> Result<Vec<Option<u8>>, AllocError>
    ensures frames { IfOk result (λ fills. length fills.items ≡ 16384) }
    ensures zeros { IfOk result (λ fills. (frame : ℕ) → frame < 16384 → slice_index_or fills.items frame None ≡ Some 0) }
{
    let mut fills = Vec::with_capacity(alloc, FRAMES as usize)?;
    for _ in 0..FRAMES {
        fills.push(Some(0))?;
    }
    Ok(fills)
}

impl Frames {
    // Reserves the memory. All bytes are zeros.
    pub fn new(alloc: Global) -> Result<Frames, AllocError>
        ensures { IfOk result (λ frames. length frames ≡ 8388608) }
    {
        let bytes = Bytes::new(alloc)?;
        let fills = all_zeros(alloc)?;
        Ok(Frames { bytes, fills })
    }

    // Whether a frame is known to be filled with this byte.
    fn is_all(&self, frame: usize, byte: u8) -> bool
        requires { frame < 16384 }
        ensures { IsTrue result → (k : ℕ) → k < 512 → slice_index self.now (512 * frame + k) ≡ byte }
    {
        self.fills[frame] == Some(byte)
    }

    // Whether a frame is known to be filled with the one byte that all of these bytes are.
    fn has(&self, frame: usize, bytes: &[u8]) -> bool
        requires { frame < 16384 }
        ensures { IsTrue result → (at k : ℕ) → at < 512 → k < length bytes.now
            → slice_index self.now (512 * frame + at) ≡ slice_index bytes.now k }
    {
        let Some(first) = bytes.first() else {
            return true;
        };
        self.is_all(frame, *first) && is_fill(bytes)
    }

    // Writes bytes in a frame, from a place on.
    pub fn put(&mut self, frame: usize, offset: usize, from: &[u8])
        requires frame { frame < 16384 }
        requires inside { offset + length from.now ≤ 512 }
        ensures bytes { self.new ≡ with_part (512 * frame + offset) from.now self.old }
        ensures size { length self.new ≡ 8388608 }
    {
        if self.has(frame, from) {
            return;
        }
        self.fills[frame] = None;
        self.bytes.put(512 * frame + offset, from);
    }

    // Writes all bytes of a frame.
    pub(crate) fn put_whole(&mut self, frame: usize, from: &[u8; 512])
        requires frame { frame < 16384 }
        ensures bytes { self.new ≡ with_part (512 * frame) from.now self.old }
        ensures size { length self.new ≡ 8388608 }
    {
        let fill = fill_of(from);
        if let Some(byte) = fill
            && self.is_all(frame, byte)
        {
            return;
        }
        self.fills[frame] = fill;
        self.bytes.put(512 * frame, from);
    }

    // Reads bytes of a frame, from a place on.
    pub fn get(&self, frame: usize, offset: usize, into: &mut [u8])
        requires frame { frame < 16384 }
        requires inside { offset + length into.old ≤ 512 }
        ensures bytes { into.new ≡ part (length into.old) (512 * frame + offset) self.now }
        ensures size { length self.now ≡ 8388608 }
    {
        self.bytes.get(512 * frame + offset, into);
    }

    // The byte that fills a frame, if that is known.
    pub fn fill(&self, frame: usize) -> Option<u8>
        requires { frame < 16384 }
        ensures fill { IfSome result (λ byte. (k : ℕ) → k < 512 → slice_index self.now (512 * frame + k) ≡ byte) }
        ensures size { length self.now ≡ 8388608 }
    {
        self.fills[frame]
    }
}
