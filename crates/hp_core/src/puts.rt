// What each deed changes, by itself.
ghost use Rattle.std.specs.Prelude.{◌≡◌, ◌<◌, ◌≤◌, ◌+◌, ◌-◌, ◌∷◌, ◌++◌, [], drop, length, true, false, Some, slice_set};
ghost use Rattle.pack_geometry.specs.Geometry.{block_count};
ghost use Rattle.hardware_table.specs.Drive.{is_ready};
ghost use Rattle.transfer_engine.specs.State.{begun};
ghost use Rattle.transfer_engine.specs.Calls.{step_for};
ghost use Rattle.driver_machine.specs.declared.Phase.TheVariants.{Waiting, Transferring};
ghost use Rattle.driver_machine.specs.World.{unit_at, adapter_at, held_in, adapter_of, transfer_of, slot_in_hand, job_of, frames_of};
ghost use Rattle.driver_machine.specs.Acts.{Of, Arrive, Attn, Intr, Search, Do, Pack, Dclr, Rtc, Ready, Repair, Forward, Continue, Try, transferring, commanded, with_state, going_to, no_more_waits, answer_at};
ghost use Rattle.driver_machine.specs.Due.{task_for};
ghost use Rattle.driver_machine.specs.Guards.{Allowed};
ghost use Rattle.driver_machine.specs.Sound.{Sound};
ghost use Rattle.hp_core.specs.State.{refused_in};
ghost use Rattle.hp_core.specs.Deeds.{did};
ghost use Rattle.hp_core.specs.Done.{HasHand};

use crate::driver::{Core, frames_for};
use driver_machine::{Answer, AnswerKind, Made, RetryStep};
use hardware_table::{Moved, adapter_law};
use hp_interrupts::shows_late;
use hp_units::row::noted;
use pack_geometry::Place;
use transfer_engine::Segment;

impl Core {
    /// The positioning of a drive ends.
    pub(crate) fn put_arrive(&mut self, line: u64, u: u8, id: u32)
        requires sound { Sound self.old.world }
        requires may { Allowed self.old.world (Of line u id Arrive) }
        ensures { self.new ≡ did self.old (Of line u id Arrive) }
    {
        self.units[usize::from(u)].arrive();
        self.row = noted(self.row, u, self.units.as_slice());
        self.channels[usize::from(u / 8)].raise(u % 8);
    }

    /// The attention of a drive is taken.
    pub(crate) fn put_attend(&mut self, line: u64, u: u8, id: u32, taken: u32)
        requires sound { Sound self.old.world }
        requires may { Allowed self.old.world (Of line u id (Attn taken)) }
        ensures { self.new ≡ did self.old (Of line u id (Attn taken)) }
    {
        self.units[usize::from(u)].attend(taken);
        self.channels[usize::from(u / 8)].lower(u % 8);
    }

    /// SEARCH.
    pub(crate) fn put_search(&mut self, line: u64, u: u8, id: u32, target: Place, sector: u32)
        requires sound { Sound self.old.world }
        requires may { Allowed self.old.world (Of line u id (Search target sector)) }
        ensures { self.new ≡ did self.old (Of line u id (Search target sector)) }
    {
        let job = self.job(u);
        self.units[usize::from(u)].search(target, sector, job);
        self.row = noted(self.row, u, self.units.as_slice());
    }

    /// RECAL, SEEK or OFFSET.
    pub(crate) fn put_step(&mut self, line: u64, u: u8, id: u32, step: RetryStep, taken: u32)
        requires sound { Sound self.old.world }
        requires may { Allowed self.old.world (Of line u id (Do step taken)) }
        ensures { self.new ≡ did self.old (Of line u id (Do step taken)) }
    {
        self.units[usize::from(u)].step(step, taken);
        self.row = noted(self.row, u, self.units.as_slice());
    }

    /// PACK.
    pub(crate) fn put_pack(&mut self, line: u64, u: u8, id: u32)
        requires sound { Sound self.old.world }
        requires may { Allowed self.old.world (Of line u id Pack) }
        ensures { self.new ≡ did self.old (Of line u id Pack) }
    {
        self.units[usize::from(u)].pack();
    }

    /// DCLR.
    pub(crate) fn put_clear(&mut self, line: u64, u: u8, id: u32, moved: u32, verdict: Moved)
        requires sound { Sound self.old.world }
        requires may { Allowed self.old.world (Of line u id (Dclr moved verdict)) }
        ensures { self.new ≡ did self.old (Of line u id (Dclr moved verdict)) }
    {
        self.units[usize::from(u)].clear(moved, verdict);
    }

    /// RTC.
    pub(crate) fn put_centre(&mut self, line: u64, u: u8, id: u32)
        requires sound { Sound self.old.world }
        requires may { Allowed self.old.world (Of line u id Rtc) }
        ensures { self.new ≡ did self.old (Of line u id Rtc) }
    {
        self.units[usize::from(u)].centre();
    }

    /// The unit is ready with a new transfer.
    pub(crate) fn put_begin(&mut self, line: u64, u: u8, id: u32)
        requires sound { Sound self.old.world }
        requires may { Allowed self.old.world (Of line u id (Ready (begun (job_of (unit_at self.old.world u).drive.kind (held_in self.old.world (slot_in_hand (unit_at self.old.world u))))))) }
        ensures { self.new ≡ did self.old (Of line u id (Ready (begun (job_of (unit_at self.old.world u).drive.kind (held_in self.old.world (slot_in_hand (unit_at self.old.world u))))))) }
    {
        let job = self.job(u);
        self.units[usize::from(u)].begin(job);
        self.channels[usize::from(u / 8)].wait(u);
    }

    /// The unit is ready with the transfer that it has.
    pub(crate) fn put_ready(&mut self, line: u64, u: u8, id: u32)
        requires sound { Sound self.old.world }
        requires may { Allowed self.old.world (Of line u id (Ready (transfer_of (unit_at self.old.world u)))) }
        ensures { self.new ≡ did self.old (Of line u id (Ready (transfer_of (unit_at self.old.world u)))) }
    {
        self.units[usize::from(u)].ready();
        self.channels[usize::from(u / 8)].wait(u);
    }

    /// The blocks that follow come next.
    pub(crate) fn put_continue(&mut self, line: u64, u: u8, id: u32, moved: u32)
        requires sound { Sound self.old.world }
        requires may { Allowed self.old.world (Of line u id (Continue moved)) }
        ensures { self.new ≡ did self.old (Of line u id (Continue moved)) }
    {
        self.units[usize::from(u)].go_on(moved);
    }

    /// The replacement of the next sector comes next.
    pub(crate) fn put_forward(&mut self, line: u64, u: u8, id: u32, moved: u32, index: u8)
        requires sound { Sound self.old.world }
        requires may { Allowed self.old.world (Of line u id (Forward moved index)) }
        ensures { self.new ≡ did self.old (Of line u id (Forward moved index)) }
    {
        let _index = self.units[usize::from(u)].forward(moved);
    }

    /// A try failed.
    pub(crate) fn put_try(
        &mut self,
        line: u64,
        u: u8,
        id: u32,
        moved: u32,
        block: u32,
        failures: u32,
    )
        requires sound { Sound self.old.world }
        requires may { Allowed self.old.world (Of line u id (Try moved block failures (task_for (step_for moved (transfer_of (unit_at self.old.world u))) ((transfer_of (unit_at self.old.world u)).done + moved)))) }
        ensures { self.new ≡ did self.old (Of line u id (Try moved block failures (task_for (step_for moved (transfer_of (unit_at self.old.world u))) ((transfer_of (unit_at self.old.world u)).done + moved)))) }
    {
        self.units[usize::from(u)].retry(moved);
    }

    /// The data interrupt is taken: the registers show why the transfer ended.
    pub(crate) fn put_interrupt(&mut self, line: u64, u: u8, id: u32)
        requires sound { Sound self.old.world }
        requires may { Allowed self.old.world (Of line u id (Intr (adapter_at self.old.world (adapter_of u)).state.moved (adapter_at self.old.world (adapter_of u)).state.verdict)) }
        ensures { self.new ≡ did self.old (Of line u id (Intr (adapter_at self.old.world (adapter_of u)).state.moved (adapter_at self.old.world (adapter_of u)).state.verdict)) }
    {
        let slot = self.hand(u);
        let channel = &mut self.channels[usize::from(u / 8)];
        let ended = self.slots.complete(slot, &mut channel.adapter);
        let unit = &mut self.units[usize::from(u)];
        let cause = unit.cause(shows_late(ended.last));
        unit.interrupt(ended.moved, cause);
    }

    /// The next block is repaired.
    pub(crate) fn put_repair(
        &mut self,
        line: u64,
        u: u8,
        id: u32,
        moved: u32,
        at: u16,
        pattern: u16,
    )
        requires sound { Sound self.old.world }
        requires may { Allowed self.old.world (Of line u id (Repair moved at pattern)) }
        ensures { self.new ≡ did self.old (Of line u id (Repair moved at pattern)) }
    {
        let slot = self.hand(u);
        let block = self.unit(u).done() + moved;
        self.slots.repair(slot, block, at, pattern);
        self.units[usize::from(u)].judge_again(moved + 1);
    }

    /// RCOM or WCOM, and the adapter's start.
    pub(crate) fn put_move(&mut self, u: u8, write: bool, segment: Segment)
        requires hand { HasHand self.old.world u }
        requires cpu { (held_in self.old.world (slot_in_hand (unit_at self.old.world u))).on_bus ≡ false }
        requires free { (adapter_at self.old.world (adapter_of u)).state.busy ≡ false }
        requires count { 1 ≤ segment.count }
        requires inside { segment.skip + segment.count ≤ (held_in self.old.world (slot_in_hand (unit_at self.old.world u))).loan.count }
        requires block { segment.block < block_count (unit_at self.old.world u).drive.kind }
        requires ready { is_ready (unit_at self.old.world u).drive.work ≡ true }
        requires online { (unit_at self.old.world u).drive.online ≡ true }
        ensures { self.new ≡ record self.old {
          world = record self.old.world {
            units = slice_set self.old.world.units u (going_to Transferring (transferring write segment.block) (unit_at self.old.world u));
            adapters = slice_set self.old.world.adapters (adapter_of u)
                (with_state (commanded u (held_in self.old.world (slot_in_hand (unit_at self.old.world u))) write segment) (no_more_waits u (adapter_at self.old.world (adapter_of u))));
            slots = slice_set self.old.world.slots (slot_in_hand (unit_at self.old.world u)) (Some (record (held_in self.old.world (slot_in_hand (unit_at self.old.world u))) { on_bus = true }));
          };
        } }
    {
        adapter_law();
        let slot = self.hand(u);
        let channel = &mut self.channels[usize::from(u / 8)];
        channel.leave(u);
        self.slots
            .load(slot, &mut channel.adapter, segment.skip, segment.count);
        channel
            .adapter
            .start(u % 8, segment.block, segment.count, write);
        self.units[usize::from(u)].transfer(write, segment.block);
    }

    /// The request in hand ends, and its answer waits.
    pub(crate) fn put_end(&mut self, line: u64, u: u8, kind: AnswerKind)
        requires hand { HasHand self.old.world u }
        requires blocks { 1 ≤ (held_in self.old.world (slot_in_hand (unit_at self.old.world u))).loan.count }
        requires few { (held_in self.old.world (slot_in_hand (unit_at self.old.world u))).loan.count ≤ 127 }
        requires inside { (held_in self.old.world (slot_in_hand (unit_at self.old.world u))).loan.offset < 512 }
        requires last { (held_in self.old.world (slot_in_hand (unit_at self.old.world u))).loan.last ≤ 512 }
        requires frames { frames_of (held_in self.old.world (slot_in_hand (unit_at self.old.world u))) ≤ self.old.world.frames }
        requires room { length self.old.world.answers + 1 ≤ refused_in self.old.world.answers + length self.old.world.slots }
        ensures { self.new ≡ record self.old {
          world = record self.old.world {
            units = slice_set self.old.world.units u (record (unit_at self.old.world u) { queue = drop 1 (unit_at self.old.world u).queue; phase = Waiting; transfer = None });
            adapters = slice_set self.old.world.adapters (adapter_of u) (no_more_waits u (adapter_at self.old.world (adapter_of u)));
            slots = slice_set self.old.world.slots (slot_in_hand (unit_at self.old.world u)) (Some (record (held_in self.old.world (slot_in_hand (unit_at self.old.world u))) { ended = true }));
            frames = self.old.world.frames - frames_of (held_in self.old.world (slot_in_hand (unit_at self.old.world u)));
            answers = self.old.world.answers ++ answer_at line (Some (slot_in_hand (unit_at self.old.world u))) (held_in self.old.world (slot_in_hand (unit_at self.old.world u))).id kind ∷ [];
          };
        } }
    {
        let slot = self.hand(u);
        let asked = self.slots.asked(slot);
        self.frames -= frames_for(asked.count, asked.offset, asked.last);
        self.units[usize::from(u)].end();
        self.channels[usize::from(u / 8)].leave(u);
        self.slots.end(slot);
        let answer = Answer {
            id: asked.id,
            at: line,
            kind,
        };
        self.answers.push(Made {
            slot: Some(slot),
            answer,
        });
    }
}
