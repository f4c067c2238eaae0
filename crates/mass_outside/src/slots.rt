ghost use Rattle.std.specs.Prelude.{◌≡◌, ◌+◌, ◌*◌, ◌^◌, ◌<◌, ◌≤◌, ◌++◌, length, take, drop, vec_len, vec_capacity, IfOk, OnOk};
ghost use Rattle.pack_geometry.specs.Pack.{grown, with_window};

use crate::sparse::{Sparse, with_room};
use std::alloc::{AllocError, Global};
use std::marker::Model;

/// What the pack of a unit holds, and for how many blocks it is to have room.
#[derive(Drop)]
pub struct Image {
    /// The unit, from 0 to 31.
    pub unit: u8,
    /// The bytes of the image. Missing bytes read as zeros.
    pub bytes: Vec<u8>,
    /// One byte for each block: 0 means good, and any other byte means marked. Blocks whose bytes are missing are good.
    pub marks: Vec<u8>,
    /// Blocks below this number can be written and marked.
    pub blocks: u32,
}

/// Writes bytes at a place inside.
fn put_at(bytes: &mut [u8], at: usize, from: &[u8])
    requires { at + length from.now ≤ length bytes.old }
    ensures { bytes.new ≡ take at bytes.old ++ from.now ++ drop (at + length from.now) bytes.old }
{
    bytes[at..at + from.len()].copy_from_slice(from);
}

/// Extends the bytes by zeros up to a size for which room is reserved.
#[tactic(auto, unfolding(pack_geometry::specs::Pack::grown))]
fn grow(bytes: &mut Vec<u8>, size: usize)
    requires { size ≤ vec_capacity bytes.old }
    ensures items { bytes.new.items ≡ grown bytes.old.items size }
    ensures long { size ≤ vec_len bytes.new }
    ensures capacity { vec_capacity bytes.old ≤ vec_capacity bytes.new }
{
    if size > bytes.len() {
        // The room is reserved, so this cannot fail.
        let _ = bytes.resize(size, 0);
    }
}

/// Writes bytes at a place for which room is reserved. If the bytes end too early, they are extended by zeros.
#[tactic(auto, unfolding(pack_geometry::specs::Pack::with_window))]
fn write_window(bytes: &mut Vec<u8>, at: usize, from: &[u8])
    requires fits { at + length from.now < 2 ^ 64 }
    requires room { at + length from.now ≤ vec_capacity bytes.old }
    ensures items { bytes.new.items ≡ with_window at from.now bytes.old.items }
    ensures capacity { vec_capacity bytes.old ≤ vec_capacity bytes.new }
{
    grow(bytes, at + from.len());
    put_at(bytes.as_mut_slice(), at, from);
}

/// The pack of a unit in memory. Its room is reserved when the slot is made.
#[derive(Drop)]
pub struct Slot {
    image: Sparse,
    marks: Vec<u8>,
}

impl Model for Slot {
    ghost use Rattle.std.specs.Prelude.{◌≤◌, vec_capacity};
    ghost use Rattle.mass_outside.specs.Slots.{SlotView};

    ghost Value = { SlotView };

    ghost view = { λ s. record { pack = record { image = s.image.image; marks = s.marks.items }; blocks = s.image.blocks } };

    ghost invariant = { λ s. s.image.blocks ≤ vec_capacity s.marks };
}

impl Slot {
    ghost use Rattle.std.specs.Prelude.{nat_lt};
    ghost use Rattle.pack_geometry.specs.Pack.{block_at, is_marked};
    ghost use Rattle.mass_outside.specs.Images.{image_slot};
    ghost use Rattle.mass_outside.specs.Slots.{empty_slot, slot_written, slot_marked};

    /// A slot that holds nothing and has no room.
    pub fn empty(alloc: Global) -> Slot
        ensures { result ≡ empty_slot }
    {
        Slot {
            image: Sparse::empty(alloc),
            marks: Vec::new(alloc),
        }
    }

    /// A slot with the content of an image, and room for its blocks.
    pub fn of(alloc: Global, image: Image) -> Result<Slot, AllocError>
        ensures { IfOk result (λ slot. slot ≡ image_slot image) }
    {
        let marks = with_room(image.marks, image.blocks as usize)?;
        let image = Sparse::of(alloc, image.bytes, image.blocks)?;
        Ok(Slot { image, marks })
    }

    /// The same slot once more.
    pub fn copy(&self, alloc: Global) -> Result<Slot, AllocError>
        ensures { IfOk result (λ slot. slot ≡ self.now) }
    {
        let image = self.image.copy(alloc)?;
        let marks = Vec::from_slice(alloc, self.marks.as_slice())?;
        let marks = with_room(marks, image.blocks() as usize)?;
        Ok(Slot { image, marks })
    }

    /// Whether there is room for a block.
    pub fn has(&self, block: u32) -> bool
        ensures { result ≡ nat_lt block self.now.blocks }
    {
        block < self.image.blocks()
    }

    /// The length of the image, in bytes.
    pub fn length(&self) -> u64
        ensures { result ≡ length self.now.pack.image }
    {
        self.image.length()
    }

    /// Reads a block.
    pub fn read(&self, block: u32, into: &mut [u8; 512])
        ensures { into.new ≡ block_at self.now.pack.image block }
    {
        self.image.read(block, into);
    }

    /// Replaces a block for which there is room.
    pub fn write(&mut self, block: u32, from: &[u8; 512])
        requires { block < self.old.blocks }
        ensures { self.new ≡ slot_written self.old block from.now }
    {
        self.image.write(block, from);
    }

    /// Whether a block is marked.
    pub fn marked(&self, block: u32) -> bool
        ensures { result ≡ is_marked self.now.pack block }
    {
        match self.marks.get(block as usize) {
            Some(byte) => *byte != 0,
            None => false,
        }
    }

    /// Writes the mark byte of a block for which there is room.
    pub fn set_mark(&mut self, block: u32, byte: u8)
        requires { block < self.old.blocks }
        ensures { self.new ≡ slot_marked self.old block byte }
    {
        write_window(&mut self.marks, block as usize, &[byte]);
    }
}
