// The whole driver.
ghost use Rattle.std.specs.Prelude.{◌≡◌, ◌<◌, ◌≤◌, [], length, IsSome, MatchResult, Ok, Err};
ghost use Rattle.outside_traits.specs.Puts.{Puts};
ghost use Rattle.outside_traits.specs.Gathers.{Gathers};
ghost use Rattle.main_memory.specs.Frames.{frames_needed};
ghost use Rattle.driver_machine.specs.World.{unit_at, slot_at, held_in, slot_in_hand, job_of};
ghost use Rattle.trace_replay.specs.Moments as moments;
ghost use Rattle.trace_replay.specs.requests.Requests.{Answer as AnswerTold};
ghost use Rattle.trace_replay.specs.Text.{moment_text};
ghost use Rattle.trace_lines.specs.Deeds.{deed_of};
ghost use Rattle.driver_laws.specs.declared.answers.outcome.Stop.TheVariants as stop;
ghost use Rattle.hp_core.specs.Done.{Tells};

use drive_model::NoiseBook;
use driver_laws::answers::outcome::Stop;
use hardware_table::Moved;
use hp_units::DiskUnit;
use outside_traits::Gather;
use outside_traits::traits::{Sink, SinkFailed};
use request_slots::{Answers, Channel, Slots};
use std::marker::Model;
use trace_lines::{Told, clean_line, deed, idle};
use transfer_engine::Job;

/// The whole driver: 32 units, some of which are set up; four adapters; the slots of requests, and the frames that the requests need;
/// the noise that is armed; the answers that wait; and the text of the trace that is still kept.
#[derive(Drop)]
pub struct Core {
    pub(crate) units: Vec<DiskUnit>,
    // A row of bits: which units position.
    pub(crate) row: u32,
    pub(crate) channels: Vec<Channel>,
    pub(crate) slots: Slots,
    pub(crate) frames: u32,
    pub(crate) book: NoiseBook,
    pub(crate) answers: Answers,
    pub(crate) gather: Gather,
}

impl Model for Core {
    ghost use Rattle.hp_core.specs.State.{State, IsKept};

    ghost Value = { State };

    ghost view = { λ d. record {
      world = record {
        units = d.units.items;
        adapters = d.channels.items;
        slots = d.slots;
        frames = d.frames;
        book = d.book;
        answers = d.answers.made;
      };
      kept = d.gather;
    } };

    ghost invariant = { λ d. IsKept d.row d.units.items d.slots d.answers };
}

/// How many frames `count` blocks need that begin `offset` bytes into the first frame. The last block has `last` bytes.
pub fn frames_for(count: u32, offset: u32, last: u32) -> u32
    requires some { 1 ≤ count }
    requires few { count ≤ 127 }
    requires inside { offset < 512 }
    requires last { last ≤ 512 }
    ensures needed { result ≡ frames_needed count offset last }
    ensures few { result ≤ 128 }
{
    (offset + 512 * (count - 1) + last + 511) / 512
}

/// What a call comes to that put text to the trace.
fn sent(put: Result<(), SinkFailed>) -> Result<(), Stop>
    ensures { MatchResult put (λ x. result ≡ Ok x) (λ _. result ≡ Err stop.Sink) }
{
    match put {
        Ok(()) => Ok(()),
        Err(_) => Err(Stop::Sink),
    }
}

impl Core {
    /// Tells the line of a deed.
    pub(crate) fn tell<T: Sink>(
        &mut self,
        number: u64,
        unit: u8,
        id: u32,
        told: Told,
        trace: &mut T,
    ) -> Result<(), Stop>
        ensures { (answer : AnswerTold) → Tells T.tells T.taken T.faults trace.old trace.new self.old self.new result (moment_text (moments.Told number unit id (deed_of answer told))) }
    {
        let text = deed(number, unit, id, told);
        sent(self.gather.put(text.as_bytes(), trace))
    }

    /// Tells the line of a sector that was tried.
    pub(crate) fn tell_sector<T: Sink>(
        &mut self,
        number: u64,
        unit: u8,
        id: u32,
        block: u32,
        verdict: Moved,
        trace: &mut T,
    ) -> Result<(), Stop>
        ensures { Tells T.tells T.taken T.faults trace.old trace.new self.old self.new result (moment_text (moments.Told number unit id (moments.Sector block verdict))) }
    {
        let Moved::Clean = verdict else {
            return self.tell(number, unit, id, Told::Sector { block, verdict }, trace);
        };
        let text = clean_line(number, unit, id, block);
        sent(self.gather.put_short(text.front(), text.len(), trace))
    }

    /// Sends the text that is kept to the trace. Nothing is kept afterwards, even if the trace fails.
    pub fn send<T: Sink>(&mut self, trace: &mut T) -> Result<(), SinkFailed>
        ensures puts { Puts T.tells T.taken T.faults trace.old trace.new result self.old.kept }
        ensures same { self.new ≡ record self.old { kept = [] } }
    {
        self.gather.flush(trace)
    }

    /// The slot of the request in hand.
    pub(crate) fn hand(&self, u: u8) -> u32
        requires unit { u < length self.now.world.units }
        requires some { 0 < length (unit_at self.now.world u).queue }
        ensures { result ≡ slot_in_hand (unit_at self.now.world u) }
    {
        match self.unit(u).head() {
            Some(slot) => slot,
            None => unreachable!(),
        }
    }

    /// What the request in hand asks of its drive.
    pub(crate) fn job(&self, u: u8) -> Job
        requires unit { u < length self.now.world.units }
        requires some { 0 < length (unit_at self.now.world u).queue }
        requires there { IsSome (slot_at self.now.world (slot_in_hand (unit_at self.now.world u))) }
        ensures { result ≡ job_of (unit_at self.now.world u).drive.kind (held_in self.now.world (slot_in_hand (unit_at self.now.world u))) }
    {
        let slot = self.hand(u);
        let asked = self.slots.asked(slot);
        Job {
            kind: self.unit(u).kind(),
            first: asked.first,
            count: asked.count,
            write: asked.write,
        }
    }

    /// Tells the line of a drain that found nothing to do.
    pub fn idle<T: Sink>(&mut self, number: u64, trace: &mut T) -> Result<(), SinkFailed>
        ensures gathers { Gathers T.tells T.taken T.faults trace.old trace.new self.old.kept self.new.kept result (moment_text (moments.Idle number)) }
        ensures world { self.new.world ≡ self.old.world }
    {
        let text = idle(number);
        self.gather.put(text.as_bytes(), trace)
    }

    /// Tells the line of an event that found nothing to do.
    pub(crate) fn tell_idle<T: Sink>(&mut self, number: u64, trace: &mut T) -> Result<(), Stop>
        ensures { Tells T.tells T.taken T.faults trace.old trace.new self.old self.new result (moment_text (moments.Idle number)) }
    {
        sent(self.idle(number, trace))
    }
}
