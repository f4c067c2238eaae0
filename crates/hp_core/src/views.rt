// What can be seen of the driver.
ghost use Rattle.std.specs.Prelude.{◌≡◌, ◌<◌, ◌∷◌, ◌==◌, [], drop, not, length, true, false, IsSome, IfSome, IfNone};
ghost use Rattle.main_memory.specs.Bytes.{filled, IsFill};
ghost use Rattle.driver_machine.specs.World.{unit_at, adapter_at, slot_at, held_in, unit_of, block_in};
ghost use Rattle.driver_machine.specs.Events.{can_arrive, can_move, lowest};
ghost use Rattle.driver_machine.specs.Sound.{Sound};
ghost use Rattle.request_slots.specs.Requests.{asked_of};

use crate::driver::Core;
use driver_machine::Made;
use hp_units::DiskUnit;
use hp_units::row::lowest;
use request_slots::Asked;

// The units.
impl Core {
    /// A unit, by reference.
    pub fn unit(&self, u: u8) -> &DiskUnit
        requires { u < length self.now.world.units }
        ensures { result.now ≡ unit_at self.now.world u }
    {
        &self.units[usize::from(u)]
    }

    /// The lowest unit whose drive positions, found in one step. None if no drive positions.
    pub fn positioning(&self) -> Option<u8>
        ensures { result ≡ lowest can_arrive self.now.world.units 0 }
    {
        lowest(self.row)
    }
}

// The adapters.
impl Core {
    /// Whether an adapter has started a transfer that is not completed yet.
    pub fn is_busy(&self, a: u8) -> bool
        requires { a < length self.now.world.adapters }
        ensures { result ≡ (adapter_at self.now.world a).state.busy }
    {
        !self.channels[usize::from(a)].adapter.is_free()
    }

    /// Whether an adapter can move a sector.
    pub fn moves(&self, a: u8) -> bool
        requires { a < length self.now.world.adapters }
        ensures { result ≡ can_move (adapter_at self.now.world a) }
    {
        self.is_busy(a) && !self.has_completed(a)
    }

    /// Whether an adapter's completion is up.
    pub fn has_completed(&self, a: u8) -> bool
        requires { a < length self.now.world.adapters }
        ensures { result ≡ (adapter_at self.now.world a).state.completion }
    {
        self.channels[usize::from(a)].adapter.completion()
    }

    /// Whether the last transfer that an adapter started is a write.
    pub fn writes(&self, a: u8) -> bool
        requires { a < length self.now.world.adapters }
        ensures { result ≡ (adapter_at self.now.world a).state.write }
    {
        self.channels[usize::from(a)].adapter.writes()
    }

    /// Whether any drive of an adapter has its attention up.
    pub fn has_attention(&self, a: u8) -> bool
        requires { a < length self.now.world.adapters }
        ensures { result ≡ not ((adapter_at self.now.world a).state.attentions == 0) }
    {
        self.channels[usize::from(a)].adapter.attentions() != 0
    }

    /// The unit for which an adapter transfers.
    pub fn transferring(&self, a: u8) -> u8
        requires sound { Sound self.now.world }
        requires adapter { a < 4 }
        requires busy { (adapter_at self.now.world a).state.busy ≡ true }
        ensures unit { result ≡ unit_of self.now.world a }
        ensures drive { (adapter_at self.now.world a).state.drive < 8 }
    {
        8 * a + self.channels[usize::from(a)].adapter.drive()
    }

    /// The unit that has waited longest for an adapter. None if no unit waits.
    pub fn first_waiting(&self, a: u8) -> Option<u8>
        requires { a < length self.now.world.adapters }
        ensures some { IfSome result (λ u. (adapter_at self.now.world a).queue ≡ u ∷ drop 1 (adapter_at self.now.world a).queue) }
        ensures none { IfNone result ((adapter_at self.now.world a).queue ≡ []) }
    {
        self.channels[usize::from(a)].first()
    }
}

// The slots, the answers and the text.
impl Core {
    /// The number of slots.
    pub fn slot_count(&self) -> u32
        ensures { result ≡ length self.now.world.slots }
    {
        self.slots.count()
    }

    /// The number of frames that all outstanding requests need together.
    pub fn frames(&self) -> u32
        ensures { result ≡ self.now.world.frames }
    {
        self.frames
    }

    /// What the request in a slot asks.
    pub fn asked(&self, slot: u32) -> Asked
        requires { IsSome (slot_at self.now.world slot) }
        ensures { result ≡ asked_of (held_in self.now.world slot) }
    {
        self.slots.asked(slot)
    }

    /// The oldest answer. None if no answer waits.
    pub fn first_answer(&self) -> Option<Made>
        ensures some { IfSome result (λ made. self.now.world.answers ≡ made ∷ drop 1 self.now.world.answers) }
        ensures none { IfNone result (self.now.world.answers ≡ []) }
    {
        self.answers.first()
    }

    /// Reads block `k` of the request in a slot, counted from 0: its bytes, followed by zeros if the block is short.
    pub fn answer_block(&self, slot: u32, k: u32, into: &mut [u8; 512])
        requires there { IsSome (slot_at self.now.world slot) }
        requires cpu { (held_in self.now.world slot).on_bus ≡ false }
        requires inside { k < (held_in self.now.world slot).loan.count }
        ensures { into.new ≡ filled 512 (block_in (held_in self.now.world slot) k) }
    {
        self.slots.block(slot, k, into);
    }

    /// The byte that fills block `k`, counted from 0, of the request in a slot, if that is known without reading the block. None says
    /// nothing about the block.
    pub fn answer_fill(&self, slot: u32, k: u32) -> Option<u8>
        requires there { IsSome (slot_at self.now.world slot) }
        requires cpu { (held_in self.now.world slot).on_bus ≡ false }
        requires inside { k < (held_in self.now.world slot).loan.count }
        ensures { IfSome result (λ byte. IsFill byte (block_in (held_in self.now.world slot) k)) }
    {
        self.slots.fill(slot, k)
    }
}
