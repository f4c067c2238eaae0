// The memory's bytes, and reads and writes of parts of them.
ghost use Rattle.std.specs.Prelude.{ℕ, ◌≡◌, ◌≤◌, ◌<◌, ◌+◌, ◌^◌, length, IfOk, slice_index, vec_len, vec_capacity};
ghost use Rattle.main_memory.specs.Bytes.{part, with_part, filled};

use crate::memory::FRAMES;
use std::alloc::{AllocError, Global};
use std::marker::Model;

// How many bytes there are.
const SIZE: usize = FRAMES as usize * 512;

// The bytes of all frames. They are zeros until they are written. The bytes up to the last one that was written are held,
// in room that is reserved for all of them at the beginning.
#[derive(Drop)]
pub struct Bytes {
    held: Vec<u8>,
}

impl Model for Bytes {
    ghost use Rattle.std.specs.Prelude.{ℕ, List, length, vec_capacity};
    ghost use Rattle.main_memory.specs.Bytes.{filled, IsHeld};

    ghost Value = { List ℕ };

    ghost view = { λ b. filled 8388608 b.held.items };

    ghost invariant = { λ b. IsHeld 8388608 (length b.held.items) (vec_capacity b.held) };
}

// Extends bytes by zeros up to a size for which room is reserved.
#[tactic(auto, unfolding(crate::specs::Bytes::filled))]
fn grow(held: &mut Vec<u8>, size: usize)
    requires { size ≤ vec_capacity held.old }
    ensures items { held.new.items ≡ filled size held.old.items }
    ensures reaches { size ≤ vec_len held.new }
    ensures capacity { vec_capacity held.old ≤ vec_capacity held.new }
{
    if size > held.len() {
        // The room is reserved, so this cannot fail.
        let _ = held.resize(size, 0);
    }
}

// Writes bytes at a place inside.
fn put_inside(bytes: &mut [u8], at: usize, from: &[u8])
    requires { at + length from.now ≤ length bytes.old }
    ensures { bytes.new ≡ with_part at from.now bytes.old }
{
    bytes[at..at + from.len()].copy_from_slice(from);
}

// Writes bytes at a place for which room is reserved, and extends the held bytes up to the end of the new ones.
fn put_held(held: &mut Vec<u8>, at: usize, from: &[u8])
    requires fits { at + length from.now < 2 ^ 64 }
    requires room { at + length from.now ≤ vec_capacity held.old }
    ensures items { held.new.items ≡ with_part at from.now (filled (at + length from.now) held.old.items) }
    ensures capacity { vec_capacity held.old ≤ vec_capacity held.new }
{
    grow(held, at + from.len());
    put_inside(held.as_mut_slice(), at, from);
}

// Reads bytes from a place on. There are at least this many before the end.
fn get_inside(bytes: &[u8], at: usize, into: &mut [u8])
    requires { at + length into.old ≤ length bytes.now }
    ensures { into.new ≡ part (length into.old) at bytes.now }
{
    into.copy_from_slice(&bytes[at..at + into.len()]);
}

// Reads bytes from a place on. Bytes behind the end are zeros.
fn get_filled(bytes: &[u8], at: usize, into: &mut [u8])
    requires size { length bytes.now ≤ 8388608 }
    requires inside { at + length into.old ≤ 8388608 }
    ensures { into.new ≡ part (length into.old) at (filled 8388608 bytes.now) }
{
    let first = at.min(bytes.len());
    let there = into.len().min(bytes.len() - first);
    let (front, rest) = into.split_at_mut(there);
    get_inside(bytes, first, front);
    rest.fill(0);
}

impl Bytes {
    // Reserves the memory. All bytes are zeros.
    pub fn new(alloc: Global) -> Result<Bytes, AllocError>
        ensures size { IfOk result (λ bytes. length bytes ≡ 8388608) }
        ensures zeros { IfOk result (λ bytes. (place : ℕ) → slice_index bytes place ≡ 0) }
    {
        Ok(Bytes {
            held: Vec::with_capacity(alloc, SIZE)?,
        })
    }

    // Writes bytes at a place.
    pub fn put(&mut self, at: usize, from: &[u8])
        requires { at + length from.now ≤ 8388608 }
        ensures bytes { self.new ≡ with_part at from.now self.old }
        ensures size { length self.new ≡ 8388608 }
    {
        put_held(&mut self.held, at, from);
    }

    // Reads bytes from a place.
    pub fn get(&self, at: usize, into: &mut [u8])
        requires { at + length into.old ≤ 8388608 }
        ensures bytes { into.new ≡ part (length into.old) at self.now }
        ensures size { length self.now ≡ 8388608 }
    {
        get_filled(self.held.as_slice(), at, into);
    }
}
