// A request joins, and an answer is taken.
ghost use Rattle.std.specs.Prelude.{◌≡◌, ◌≢◌, ◌≤◌, ◌<◌, ◌+◌, ◌-◌, ◌∷◌, ℕ, true, false, All, None, Some, IsSome, Option, drop, length, slice_set};
ghost use Rattle.std.specs.Option.{option_map_or};
ghost use Rattle.pack_geometry.specs.Geometry.{block_count};
ghost use Rattle.main_memory.specs.Frames.{frames_needed};
ghost use Rattle.driver_machine.specs.declared.Made.{Made};
ghost use Rattle.driver_machine.specs.World.{unit_at, slot_at, held_in};
ghost use Rattle.driver_machine.specs.Acts.{Taken, freed};
ghost use Rattle.driver_machine.specs.Sound.{Sound};
ghost use Rattle.request_slots.specs.Requests.{frames_lent, HasFree, IsAskable};
ghost use Rattle.hp_core.specs.Joins.{MayJoin, IsPut, in_queue, Joins};
ghost use Rattle.hp_core.specs.Done.{DoesSilently};

use crate::driver::{Core, frames_for};
use request_slots::Asked;

impl Core {
    /// A request stands in a free slot, which is given, with the frames that it needs.
    fn put_in_slot(&mut self, asked: Asked, bytes: &[u8]) -> u32
        requires free { HasFree self.old.world.slots }
        requires asked { IsAskable asked bytes.now }
        requires lent { self.old.world.frames ≡ frames_lent self.old.world.slots }
        requires room { self.old.world.frames + frames_needed asked.count asked.offset asked.last ≤ 16384 }
        ensures { IsPut result asked bytes.now self.old self.new }
    {
        let slot = self.slots.join(asked, bytes);
        self.slots.law();
        self.frames += frames_for(asked.count, asked.offset, asked.last);
        slot
    }

    /// A request stands in its unit's queue, by its slot and its first block.
    fn put_in_queue(&mut self, u: u8, slot: u32, first: u32)
        requires slot { slot < length self.old.world.slots }
        requires unit { u < length self.old.world.units }
        requires declared { (unit_at self.old.world u).declared ≡ true }
        requires waits { length (unit_at self.old.world u).queue < length self.old.world.slots }
        requires absent { All (λ w. w.number ≢ slot) (unit_at self.old.world u).queue }
        requires below { first < block_count (unit_at self.old.world u).drive.kind }
        ensures { self.new ≡ in_queue u slot first self.old }
    {
        self.units[usize::from(u)].join(slot, first);
    }

    /// Puts a request into a free slot, with its bytes if it is a write, and into the queue of its unit. Answers the slot.
    pub fn join(&mut self, line: u64, asked: Asked, bytes: &[u8]) -> u32
        requires sound { Sound self.old.world }
        requires may { MayJoin self.old.world asked bytes.now }
        ensures { Joins line result asked bytes.now self.old self.new }
    {
        let slot = self.put_in_slot(asked, bytes);
        self.put_in_queue(asked.unit, slot, asked.first);
        slot
    }

    /// Frees the slot of an answer, if it has one.
    fn vacate(&mut self, slot: Option<u32>)
        requires there { (p : ℕ) → slot ≡ Some p → IsSome (slot_at self.old.world p) }
        requires cpu { (p : ℕ) → slot ≡ Some p → (held_in self.old.world p).on_bus ≡ false }
        ensures { self.new ≡ record self.old { world = record self.old.world { slots = option_map_or (λ p. slice_set self.old.world.slots p None) slot self.old.world.slots } } }
    {
        match slot {
            Some(slot) => self.slots.leave(slot),
            None => {}
        }
    }

    /// The oldest answer is taken, and its slot is free again.
    fn put_take(&mut self)
        requires some { 0 < length self.old.world.answers }
        requires there { (made : Made) → (p : ℕ) → self.old.world.answers ≡ made ∷ drop 1 self.old.world.answers → made.slot ≡ Some p → IsSome (slot_at self.old.world p) }
        requires cpu { (made : Made) → (p : ℕ) → self.old.world.answers ≡ made ∷ drop 1 self.old.world.answers → made.slot ≡ Some p → (held_in self.old.world p).on_bus ≡ false }
        ensures { self.new ≡ record self.old { world = record self.old.world { slots = freed self.old.world.answers self.old.world.slots; answers = drop 1 self.old.world.answers } } }
    {
        match self.answers.first() {
            Some(made) => {
                self.answers.leave();
                self.vacate(made.slot);
            }
            None => unreachable!(),
        }
    }

    /// Takes the oldest answer, and frees its slot if it has one.
    pub fn take(&mut self)
        requires sound { Sound self.old.world }
        requires some { 0 < length self.old.world.answers }
        ensures { DoesSilently self.old self.new Taken }
    {
        self.put_take();
    }
}
