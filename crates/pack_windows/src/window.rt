ghost use Rattle.std.specs.Prelude.{◌≡◌, ℕ, ◌<◌, ◌≤◌, ◌+◌, ◌*◌, ◌⊎◌, if◌then◌else◌, List, [], ◌∷◌, ◌++◌, take, drop, IsTrue, IfSome, OnOk, length, slice_index};
ghost use Rattle.pack_geometry.specs.Pack.{window, with_window, with_block, block_at};
ghost use Rattle.outside_traits.specs.Causes.{HasCause};
ghost use Rattle.outside_traits.specs.Files.{file_of};
ghost use Rattle.pack_windows.specs.Parts.{IsPart};

use outside_traits::traits::StoreFailed;
use outside_traits::wide_packs::{Part, WidePacks, place_in_image};
use std::alloc::Global;
use std::marker::Model;

/// How many bytes of an image are read ahead at first.
const FIRST_SIZE: usize = 4096;

/// How many bytes of an image are read ahead if reading goes on. One piece of the first size and three of this size hold
/// the longest request, which has 127 blocks.
const LAST_SIZE: usize = 20480;

/// Some bytes of an image or of marks, and the place of the first of them in the image or the marks. The room of a window
/// stays when the window has fewer bytes.
#[derive(Drop)]
pub struct Window {
    at: u64,
    size: usize,
    room: Vec<u8>,
}

impl Model for Window {
    ghost use Rattle.std.specs.Prelude.{◌≤◌, length, take};
    ghost use Rattle.pack_windows.specs.Parts.{Part};

    ghost Value = { Part };

    ghost view = { λ w. record { at = w.at; bytes = take w.size w.room.items } };

    ghost invariant = { λ w. w.size ≤ length w.room.items };
}

/// Makes room for `size` bytes, and says whether there is so much room.
fn make_room(room: &mut Vec<u8>, size: usize) -> bool
    ensures { IsTrue result → size ≤ length room.new.items }
{
    room.len() >= size || room.resize(size, 0).is_ok()
}

/// Reads `size` bytes of a unit's image or marks, from a place on, to the front of a room.
fn read_front<W: WidePacks>(
    packs: &mut W,
    unit: u8,
    part: Part,
    at: u64,
    size: usize,
    room: &mut [u8],
) -> Result<(), StoreFailed>
    requires unit { unit < 32 }
    requires room { size ≤ length room.old }
    ensures never_again { IsTrue (W.tells packs.new) → IsTrue (W.tells packs.old) }
    ensures bytes { OnOk result (IsTrue (W.tells packs.new) → take size room.new ≡ window size at (file_of (W.held packs.old unit) part)) }
    ensures same { IsTrue (W.tells packs.new) → W.held packs.new ≡ W.held packs.old }
    ensures cause { HasCause (W.faults packs.old) (W.faults packs.new) result }
{
    packs.read_part(unit, part, at, &mut room[..size])
}

/// Writes bytes at a place inside.
fn put(room: &mut Vec<u8>, first: usize, from: &[u8])
    requires { first + length from.now ≤ length room.old.items }
    ensures { room.new.items ≡ take first room.old.items ++ from.now ++ drop (first + length from.now) room.old.items }
{
    room[first..first + from.len()].copy_from_slice(from);
}

impl Window {
    /// An empty window.
    pub fn new(alloc: Global) -> Window
        ensures { (whole : List ℕ) → IsPart result whole }
    {
        Window {
            at: 0,
            size: 0,
            room: Vec::new(alloc),
        }
    }

    /// Empties the window.
    pub fn clear(&mut self)
        ensures { (whole : List ℕ) → IsPart self.new whole }
    {
        self.size = 0;
    }

    /// The place in the window of `size` bytes from a place of the whole on. None if the window does not have them all.
    fn find(&self, at: u64, size: usize) -> Option<usize>
        ensures { IfSome result (λ i. (self.now.at + i ≡ at) × (i + size ≤ length self.now.bytes)) }
    {
        let first = usize::try_from(at.checked_sub(self.at)?).ok()?;
        let end = first.checked_add(size)?;
        if end > self.size {
            return None;
        }
        Some(first)
    }

    /// Gives the bytes from a place on, as many as fit, if the window has them all. Says whether it does.
    fn read(&self, at: u64, into: &mut [u8]) -> bool
        ensures { (whole : List ℕ) → IsTrue result → IsPart self.now whole → into.new ≡ window (length into.old) at whole }
    {
        let size = into.len();
        let Some(first) = self.find(at, size) else {
            return false;
        };
        into.copy_from_slice(&self.room[first..first + size]);
        true
    }

    /// Gives a block of an image, if the window has it. Says whether it does.
    pub fn read_block(&self, block: u32, into: &mut [u8; 512]) -> bool
        ensures { (image : List ℕ) → IsTrue result → IsPart self.now image → into.new ≡ block_at image block }
    {
        self.read(place_in_image(block), into)
    }

    /// The byte at a place. None if the window does not have it.
    pub fn byte(&self, at: u64) -> Option<u8>
        ensures { (whole : List ℕ) → IfSome result (λ byte. IsPart self.now whole → byte ≡ slice_index whole at) }
    {
        let i = self.find(at, 1)?;
        Some(self.room[i])
    }

    /// Whether the window has none of the `size` bytes from a place on.
    fn is_apart(&self, at: u64, size: usize) -> bool
        ensures { IsTrue result → (at + size ≤ self.now.at) ⊎ (self.now.at + length self.now.bytes ≤ at) }
    {
        if at < self.at {
            self.at - at >= size as u64
        } else {
            at - self.at >= self.size as u64
        }
    }

    /// Follows a write to the whole. If the window has all bytes that were written, it gets the new ones. If it has only
    /// some of them, it is emptied.
    pub fn write(&mut self, at: u64, from: &[u8])
        ensures { (whole : List ℕ) → IsPart self.old whole → IsPart self.new (with_window at from.now whole) }
    {
        match self.find(at, from.len()) {
            Some(first) => put(&mut self.room, first, from),
            None => {
                if !self.is_apart(at, from.len()) {
                    self.clear();
                }
            }
        }
    }

    /// Follows a write of a block to an image.
    pub fn write_block(&mut self, block: u32, from: &[u8; 512])
        ensures { (image : List ℕ) → IsPart self.old image → IsPart self.new (with_block image block from.now) }
    {
        self.write(place_in_image(block), from);
    }

    /// Follows a write of a mark byte, 1 or 0.
    pub fn write_mark(&mut self, block: u32, on: bool)
        ensures { (marks : List ℕ) → IsPart self.old marks
            → IsPart self.new (with_window block ((if on then 1 else 0) ∷ []) marks) }
    {
        self.write(u64::from(block), &[u8::from(on)]);
    }

    /// How many bytes of an image are read ahead from a place on: few at first, and more if the place is directly behind the window.
    pub(crate) fn next_size(&self, at: u64) -> usize {
        if self.size > 0 && self.at.checked_add(self.size as u64) == Some(at) {
            LAST_SIZE
        } else {
            FIRST_SIZE
        }
    }

    /// Reads `size` bytes of a unit's image or marks into the window, from a place on. If that fails, or if there is no memory for
    /// them, the window is empty.
    pub(crate) fn fill<W: WidePacks>(
        &mut self,
        packs: &mut W,
        unit: u8,
        part: Part,
        at: u64,
        size: usize,
    )
        requires { unit < 32 }
        ensures never_again { IsTrue (W.tells packs.new) → IsTrue (W.tells packs.old) }
        ensures part { IsTrue (W.tells packs.new) → IsPart self.new (file_of (W.held packs.old unit) part) }
        ensures same { IsTrue (W.tells packs.new) → W.held packs.new ≡ W.held packs.old }
        ensures faults { W.faults packs.old ≤ W.faults packs.new }
    {
        self.size = 0;
        if !make_room(&mut self.room, size) {
            return;
        }
        if read_front(packs, unit, part, at, size, self.room.as_mut_slice()).is_ok() {
            self.at = at;
            self.size = size;
        }
    }
}
