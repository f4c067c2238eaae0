// A slot: what the driver keeps about a request.
ghost use Rattle.std.specs.Prelude.{◌≡◌, ◌<◌, true, None, Some, length, slice_set, IsSome, IfOk, replicate};
ghost use Rattle.slab.specs.Slab.{HasRoomFor};
ghost use Rattle.request_slots.specs.declared.slot.Slot.{Slot};
ghost use Rattle.request_slots.specs.Stored.{slot_in, all_slots};

use crate::asked::Asked;
use main_memory::{Buffer, Bus, Cpu};
use outside_traits::traits::NoMemory;
use slab::Slab;
use std::alloc::Global;

// Who has the buffer of a request.
#[derive(Drop)]
pub enum Holder {
    // The driver, which stores, fetches and repairs blocks.
    Driver(Buffer<Cpu>),
    // An adapter, in a transfer.
    Adapter(Buffer<Bus>),
}

// A request in its slot, whether it has ended, and its buffer.
#[derive(Drop)]
pub struct Slot {
    pub asked: Asked,
    pub ended: bool,
    pub buffer: Holder,
}

// This many free slots.
pub(crate) fn free_slots(alloc: Global, count: u32) -> Result<Slab<Slot>, NoMemory>
    ensures { IfOk result (λ slots. all_slots slots ≡ replicate count None) }
{
    match Slab::with_capacity(alloc, count as usize) {
        Ok(slots) if slots.capacity() == count as usize => Ok(slots),
        _ => Err(NoMemory),
    }
}

// The slot of a number.
pub fn slot_at(slots: &Slab<Slot>, number: u32) -> &Slot
    requires { IsSome (slot_in (all_slots slots.now) number) }
    ensures { slot_in (all_slots slots.now) number ≡ Some result.now }
{
    &slots[number as usize]
}

// Takes a slot out. The slot that is put in next gets its number.
pub(crate) fn take_slot(slots: &mut Slab<Slot>, number: u32) -> Slot
    requires { IsSome (slot_in (all_slots slots.old) number) }
    ensures slot { slot_in (all_slots slots.old) number ≡ Some result }
    ensures rest { all_slots slots.new ≡ slice_set (all_slots slots.old) number None }
    ensures next { slots.new.vacant_key ≡ number }
    ensures room { HasRoomFor slots.new 1 }
{
    slots.remove(number as usize)
}

// The request in a slot has ended.
pub(crate) fn end_slot(slots: &mut Slab<Slot>, number: u32)
    requires { IsSome (slot_in (all_slots slots.old) number) }
    ensures { (slot : Slot) × (slot_in (all_slots slots.old) number ≡ Some slot) × (all_slots slots.new ≡ slice_set (all_slots slots.old) number (Some (record slot { ended = true }))) }
{
    slots[number as usize].ended = true;
}

// Puts a slot in, and gives its number.
pub(crate) fn put_slot(slots: &mut Slab<Slot>, slot: Slot) -> usize
    requires { HasRoomFor slots.old 1 }
    ensures next { result ≡ slots.old.vacant_key }
    ensures inside { result < length (all_slots slots.old) }
    ensures free { slot_in (all_slots slots.old) result ≡ None }
    ensures rest { all_slots slots.new ≡ slice_set (all_slots slots.old) result (Some slot) }
{
    slots.insert_reserved(slot)
}
