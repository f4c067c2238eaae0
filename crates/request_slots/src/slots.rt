// The slots themselves.
ghost use Rattle.std.specs.Prelude.{◌≡◌, ◌≢◌, ◌≤◌, ◌<◌, ◌+◌, ◌-◌, ℕ, true, false, min, None, Some, IsSome, IfOk, IfSome, length, replicate, slice_set};
ghost use Rattle.main_memory.specs.Bytes.{filled, IsFill};
ghost use Rattle.main_memory.specs.Frames.{frames_needed};
ghost use Rattle.hardware_table.specs.Adapter.{loaded, completed};
ghost use Rattle.mba_adapter.specs.Loaded.{loaded_buffer};
ghost use Rattle.driver_machine.specs.World.{Held, count_of, block_in};
ghost use Rattle.driver_machine.specs.Acts.{repaired_at};
ghost use Rattle.driver_machine.specs.Guards.{IsApart};
ghost use Rattle.request_slots.specs.Requests.{slot_at, held_at, frames_lent, asked_of, IsAskable, IsWhole, HasFree, IsHeldFor};

mod steps;

use crate::asked::Asked;
use crate::fill::{lend_filled, repair_block};
use crate::slot::{Holder, Slot, end_slot, free_slots, put_slot, slot_at, take_slot};
use main_memory::{FRAMES, MainMemory};
use mba_adapter::{Adapter, Ended};
use outside_traits::traits::NoMemory;
use slab::Slab;
use std::alloc::Global;
use std::marker::Model;

/// The slots of outstanding requests, by number: each is free, or has a request and its buffer.
#[derive(Drop)]
pub struct Slots {
    memory: MainMemory,
    slots: Slab<Slot>,
}

impl Model for Slots {
    ghost use Rattle.std.specs.Prelude.{List, Option};
    ghost use Rattle.driver_machine.specs.World.{Held};

    ghost Value = { List (Option Held) };

    ghost use Rattle.request_slots.specs.Stored.{all_slots, as_seen, IsKept};

    ghost view = { λ s. as_seen s.memory (all_slots s.slots) };

    ghost invariant = { λ s. IsKept s.memory (all_slots s.slots) };
}

impl Slots {
    /// Takes main memory and `count` slots, at most one for each frame; all slots are free. `NoMemory` if the memory is
    /// not available. No later call takes any memory.
    pub fn new(alloc: Global, count: u32) -> Result<Slots, NoMemory>
        ensures { IfOk result (λ s. s ≡ replicate (min count 16384) None) }
    {
        let memory = MainMemory::new(alloc)?;
        let slots = free_slots(alloc, count.min(FRAMES))?;
        Ok(Slots { memory, slots })
    }

    /// The law of slots: each request is whole in its slot, and no two requests share a frame. No more frames are lent
    /// than there are, and each request has at least one.
    pub fn law(&self)
        ensures whole { (p : ℕ) → (h : Held) → slot_at self.now p ≡ Some h → IsWhole h }
        ensures apart { (p q : ℕ) → (g h : Held) → p ≢ q → slot_at self.now p ≡ Some g → slot_at self.now q ≡ Some h
            → IsApart g.loan.frames h.loan.frames }
        ensures frames { frames_lent self.now ≤ 16384 }
        ensures full { ((p : ℕ) → p < length self.now → IsSome (slot_at self.now p)) → length self.now ≤ frames_lent self.now }
    {
        let _ = &self.slots;
    }

    /// How many slots there are.
    pub fn count(&self) -> u32
        ensures { result ≡ length self.now }
    {
        self.slots.capacity() as u32
    }

    /// Puts a request into a free slot, with a buffer, and gives the number of the slot. The bytes of a write go into the buffer.
    pub fn join(&mut self, asked: Asked, bytes: &[u8]) -> u32
        requires free { HasFree self.old }
        requires asked { IsAskable asked bytes.now }
        requires room { frames_lent self.old + frames_needed asked.count asked.offset asked.last ≤ 16384 }
        ensures free { result < length self.old }
        ensures none { slot_at self.old result ≡ None }
        ensures joined { (h : Held) × IsHeldFor asked bytes.now h × (self.new ≡ slice_set self.old result (Some h)) }
    {
        prove!(self.slots.len() < self.slots.capacity());
        let buffer = lend_filled(&mut self.memory, asked, bytes);
        let joined = Slot {
            asked,
            ended: false,
            buffer: Holder::Driver(buffer),
        };
        put_slot(&mut self.slots, joined) as u32
    }

    /// What the request in a slot asks for.
    pub fn asked(&self, slot: u32) -> Asked
        requires { IsSome (slot_at self.now slot) }
        ensures { result ≡ asked_of (held_at self.now slot) }
    {
        slot_at(&self.slots, slot).asked
    }

    /// Hands the buffer of a slot to an adapter, for a transfer of `count` of its blocks, from block `skip` on.
    pub fn load(&mut self, slot: u32, adapter: &mut Adapter, skip: u32, count: u32)
        requires there { IsSome (slot_at self.old slot) }
        requires cpu { (held_at self.old slot).on_bus ≡ false }
        requires free { adapter.old.busy ≡ false }
        requires some { 1 ≤ count }
        requires inside { skip + count ≤ count_of (held_at self.old slot) }
        ensures slots { let h = held_at self.old slot in
            self.new ≡ slice_set self.old slot (Some (record h { on_bus = true })) }
        ensures adapter { let l = (held_at self.old slot).loan in
            adapter.new ≡ loaded l.frames l.offset l.count l.last skip count adapter.old }
    {
        let Slot {
            asked,
            ended,
            buffer,
        } = take_slot(&mut self.slots, slot);
        let Holder::Driver(buffer) = buffer else {
            unreachable!()
        };
        let handed = Slot {
            asked,
            ended,
            buffer: Holder::Adapter(adapter.load(buffer, skip, count)),
        };
        put_slot(&mut self.slots, handed);
    }

    /// Takes the data interrupt: gives the buffer of a slot back to the driver, and says how the transfer ended. The
    /// adapter is free afterwards.
    pub fn complete(&mut self, slot: u32, adapter: &mut Adapter) -> Ended
        requires there { IsSome (slot_at self.old slot) }
        requires bus { (held_at self.old slot).on_bus ≡ true }
        requires completion { adapter.old.completion ≡ true }
        requires loaded { (held_at self.old slot).loan ≡ loaded_buffer adapter.old }
        ensures slots { let h = held_at self.old slot in
            self.new ≡ slice_set self.old slot (Some (record h { on_bus = false })) }
        ensures adapter { adapter.new ≡ completed adapter.old }
        ensures ended { result ≡ record { moved = adapter.old.moved; last = adapter.old.verdict } }
    {
        let Slot {
            asked,
            ended,
            buffer,
        } = take_slot(&mut self.slots, slot);
        let Holder::Adapter(buffer) = buffer else {
            unreachable!()
        };
        let (buffer, outcome) = adapter.complete(buffer);
        let handed = Slot {
            asked,
            ended,
            buffer: Holder::Driver(buffer),
        };
        put_slot(&mut self.slots, handed);
        outcome
    }

    /// Repairs block `k` of the buffer of a slot, counted from 0: flips the burst back whose first place, counted from 1,
    /// is `at`, and whose pattern is `pattern`. What lies behind the end of a short block is not in memory.
    pub fn repair(&mut self, slot: u32, k: u32, at: u16, pattern: u16)
        requires there { IsSome (slot_at self.old slot) }
        requires cpu { (held_at self.old slot).on_bus ≡ false }
        requires inside { k < count_of (held_at self.old slot) }
        requires first { 1 ≤ at }
        requires last { at ≤ 4128 }
        requires pattern { pattern < 2048 }
        ensures { self.new ≡ slice_set self.old slot (Some (repaired_at k at pattern (held_at self.old slot))) }
    {
        let Slot {
            asked,
            ended,
            buffer,
        } = take_slot(&mut self.slots, slot);
        let Holder::Driver(buffer) = buffer else {
            unreachable!()
        };
        let buffer = repair_block(&mut self.memory, buffer, k, at, pattern);
        let repaired = Slot {
            asked,
            ended,
            buffer: Holder::Driver(buffer),
        };
        put_slot(&mut self.slots, repaired);
    }

    /// Ends the request in a slot. The request keeps its slot until it leaves.
    pub fn end(&mut self, slot: u32)
        requires there { IsSome (slot_at self.old slot) }
        ensures { let h = held_at self.old slot in
            self.new ≡ slice_set self.old slot (Some (record h { ended = true })) }
    {
        end_slot(&mut self.slots, slot);
    }

    /// Reads block `k` of the buffer of a slot, counted from 0: the bytes of the block, and then zeros.
    pub fn block(&self, slot: u32, k: u32, into: &mut [u8; 512])
        requires there { IsSome (slot_at self.now slot) }
        requires cpu { (held_at self.now slot).on_bus ≡ false }
        requires inside { k < count_of (held_at self.now slot) }
        ensures { into.new ≡ filled 512 (block_in (held_at self.now slot) k) }
    {
        let Holder::Driver(buffer) = &slot_at(&self.slots, slot).buffer else {
            unreachable!()
        };
        self.memory.fetch(buffer, k, into);
    }

    /// The byte that all bytes of block `k` of the buffer of a slot are, counted from 0, if the memory knows it without reading the block.
    pub fn fill(&self, slot: u32, k: u32) -> Option<u8>
        requires there { IsSome (slot_at self.now slot) }
        requires cpu { (held_at self.now slot).on_bus ≡ false }
        requires inside { k < count_of (held_at self.now slot) }
        ensures { IfSome result (λ byte. IsFill byte (block_in (held_at self.now slot) k)) }
    {
        let Holder::Driver(buffer) = &slot_at(&self.slots, slot).buffer else {
            unreachable!()
        };
        self.memory.fill(buffer, k)
    }

    /// Takes the request out of its slot. The slot and the frames of the request are free again.
    pub fn leave(&mut self, slot: u32)
        requires there { IsSome (slot_at self.old slot) }
        requires cpu { (held_at self.old slot).on_bus ≡ false }
        ensures { self.new ≡ slice_set self.old slot None }
    {
        let Slot { buffer, .. } = take_slot(&mut self.slots, slot);
        let Holder::Driver(buffer) = buffer else {
            unreachable!()
        };
        self.memory.give_back(buffer);
    }
}
