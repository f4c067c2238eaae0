// Where a script is played: the driver and the desk, with the packs, the sink of the answers and that of the trace.
ghost use Rattle.std.specs.Prelude.{◌≡◌, ◌<◌, ◌≤◌, ◌≢◌, ℕ, List, [], ◌∷◌, false, true, None, Some, IfSome, IfNone, slice_index_or};
ghost use Rattle.trace_lines.specs.answers.AnswerText.{block_text};
ghost use Rattle.driver_machine.specs.Acts.{Taken, after};
ghost use Rattle.driver_machine.specs.Events.{next_event};
ghost use Rattle.driver_machine.specs.Sound.{Sound, AtWork};
ghost use Rattle.driver_machine.specs.Writes.{writes_next};
ghost use Rattle.script_runs.specs.StopsPasses.{AllFlip};
ghost use Rattle.hp_driver.specs.Inputs.{input_of};
ghost use Rattle.hp_driver.specs.Subsystem.{IsAsked, IsThere, asked};
ghost use Rattle.event_player.specs.Answering.{first_blocks, first_line, first_told, IsFirst, HasBlock};
ghost use Rattle.event_player.specs.Calls.{MayGoOn};
ghost use Rattle.event_player.specs.Spots.{Spot, spot, SaysText, Sends, SendsRest, SubmitsAt, ComesAt, IdlesAt};

use crate::desk::{Desk, Forms};
use hp_driver::{Answer, Event, Request, Stop, Subsystem};
use outside_traits::traits::{Packs, Sink, SinkFailed};
use trace_lines::answers::{Tally, answer_line, write_fill};

/// A place where a script is played. Text that is said there is kept; before any answer goes out all lines are sent.
pub(crate) trait Venue {
    /// The driver, what the packs and the sinks tell, and the tally.
    ghost at: { Self → Spot };

    /// The law of the driver, as [`Subsystem::law`].
    fn law(&self)
        ensures sound { Sound (at self.now).driver.world }
        ensures noise { AllFlip (at self.now).driver.world.book.live }
        ensures work { (at self.now).driver.failed ≡ false → AtWork (at self.now).driver.world };

    /// The event that a drain lets happen next.
    fn next_event(&self) -> Option<Event>
        requires going { (at self.now).driver.failed ≡ false }
        ensures next { IfSome result (λ event. next_event (at self.now).driver.world ≡ Some (input_of event)) }
        ensures over { IfNone result (next_event (at self.now).driver.world ≡ None) }
        ensures there { IfSome result (λ event. IsThere (at self.now).driver.world (input_of event)) };

    /// Whether the next move of an adapter may write a block.
    fn writes(&self, adapter: u8) -> bool
        requires { adapter < 4 }
        ensures { result ≡ writes_next (at self.now).driver.world adapter };

    /// The oldest answer that waits.
    fn answer(&self) -> Option<Answer>
        ensures some { IfSome result (IsFirst (at self.now).driver.world) }
        ensures none { IfNone result ((at self.now).driver.world.answers ≡ []) };

    /// Takes the oldest answer, as one waits.
    fn take_answer(&mut self)
        requires waits { (at self.old).driver.world.answers ≢ [] }
        ensures { at self.new ≡ record (at self.old) { driver = record (at self.old).driver { world = after (at self.old).driver.world Taken } } };

    /// Counts a text, and keeps it. If the text does not fit, all lines are sent first, and then the text that was kept.
    fn say(&mut self, text: &[u8]) -> Result<(), SinkFailed>
        ensures says { SaysText [] text.now result (at self.old) (at self.new) }
        ensures driver { (at self.new).driver ≡ (at self.old).driver };

    /// Counts the oldest answer, which is this one, and says its line.
    fn say_line(&mut self, answer: Answer) -> Result<(), SinkFailed>
        requires first { IsFirst (at self.old).driver.world answer }
        ensures says { SaysText (first_told (at self.old).driver.world answer ∷ []) (first_line (at self.old).driver.world answer) result (at self.old) (at self.new) }
        ensures driver { (at self.new).driver ≡ (at self.old).driver };

    /// Says the line of block `k`, of `size` bytes, of the read that the oldest answer belongs to.
    fn say_block(&mut self, k: u32, size: u32) -> Result<(), SinkFailed>
        requires block { HasBlock (at self.old).driver.world k size }
        ensures says { SaysText [] (block_text k (slice_index_or (first_blocks (at self.old).driver.world (at self.old).driver.world.answers) k [])) result (at self.old) (at self.new) }
        ensures driver { (at self.new).driver ≡ (at self.old).driver };

    /// What is counted so far.
    fn tally(&self) -> Tally
        ensures { result ≡ (at self.now).tally };

    /// Sends all text that is kept, the lines first.
    fn send(&mut self) -> Result<(), SinkFailed>
        ensures { Sends true result (at self.old) (at self.new) };

    /// Sends all text that is kept, the lines first, whatever comes of it.
    fn send_rest(&mut self)
        ensures { SendsRest (at self.old) (at self.new) };

    /// Submits a request at a line, with the bytes if it is a write.
    fn submit(&mut self, number: u64, request: Request, bytes: &[u8]) -> Result<(), SinkFailed>
        requires ready { MayGoOn (at self.old).driver }
        requires asked { IsAsked (at self.old).driver request bytes.now }
        ensures { SubmitsAt number (asked request bytes.now) result (at self.old) (at self.new) };

    /// Lets an event happen at a line.
    fn event(&mut self, number: u64, event: Event) -> Result<(), Stop>
        requires ready { MayGoOn (at self.old).driver }
        requires there { IsThere (at self.old).driver.world (input_of event) }
        ensures { ComesAt number (input_of event) result (at self.old) (at self.new) };

    /// Tells that a drain at a line finds nothing to do.
    fn idle(&mut self, number: u64) -> Result<(), SinkFailed>
        ensures { IdlesAt number result (at self.old) (at self.new) };
}

/// A driver, a desk with its forms, the packs and both sinks, each of which was lent.
#[derive(Drop)]
pub(crate) struct Outlet<'s, 'd, 'f, 'p, 'o, 't, P: Packs, O: Sink, T: Sink> {
    pub subsystem: &'s mut Subsystem,
    pub desk: &'d mut Desk,
    pub forms: &'f mut Forms,
    pub packs: &'p mut P,
    pub out: &'o mut O,
    pub trace: &'t mut T,
}

impl<'s, 'd, 'f, 'p, 'o, 't, P: Packs, O: Sink, T: Sink> Venue
    for Outlet<'s, 'd, 'f, 'p, 'o, 't, P, O, T> {
    ghost at = { λ s. spot P.tells P.held P.faults O.tells O.taken O.faults T.tells T.taken T.faults s.subsystem.now s.desk.now.gather s.desk.now.tally
        s.packs.now s.out.now s.trace.now (s.subsystem.ghost_name ∷ s.desk.ghost_name ∷ s.forms.ghost_name ∷ s.packs.ghost_name ∷ s.out.ghost_name ∷ s.trace.ghost_name ∷ []) };

    fn law(&self) {
        self.subsystem.law();
    }

    fn next_event(&self) -> Option<Event> {
        self.subsystem.next_event()
    }

    fn writes(&self, adapter: u8) -> bool {
        self.subsystem.writes(adapter)
    }

    fn answer(&self) -> Option<Answer> {
        self.subsystem.answer()
    }

    fn take_answer(&mut self) {
        let _ = self.subsystem.take_answer();
    }

    fn say(&mut self, text: &[u8]) -> Result<(), SinkFailed> {
        self.desk.say(text, self.subsystem, self.out, self.trace)
    }

    fn say_line(&mut self, answer: Answer) -> Result<(), SinkFailed> {
        let line = answer_line(answer.at, answer.id, answer.kind);
        self.desk.tally.count_answer(answer.kind);
        self.say(line.as_bytes())
    }

    fn say_block(&mut self, k: u32, size: u32) -> Result<(), SinkFailed> {
        if let Some(byte) = self.subsystem.answer_fill(k) {
            write_fill(&mut self.forms.fill, k, byte);
            let line = &self.forms.fill;
            return self.desk.say_short(
                line.front(),
                line.len(),
                self.subsystem,
                self.out,
                self.trace,
            );
        }
        self.subsystem.answer_block(k, &mut self.forms.block);
        self.forms.write_block(k, size);
        self.desk.say(
            self.forms.line.as_bytes(),
            self.subsystem,
            self.out,
            self.trace,
        )
    }

    fn tally(&self) -> Tally {
        self.desk.tally
    }

    fn send(&mut self) -> Result<(), SinkFailed> {
        self.subsystem.send(self.trace)?;
        self.desk.gather.flush(self.out)
    }

    fn send_rest(&mut self) {
        let _ = self.subsystem.send(self.trace);
        let _ = self.desk.gather.flush(self.out);
    }

    fn submit(&mut self, number: u64, request: Request, bytes: &[u8]) -> Result<(), SinkFailed> {
        self.subsystem.submit(number, request, bytes, self.trace)
    }

    fn event(&mut self, number: u64, event: Event) -> Result<(), Stop> {
        self.subsystem.event(number, event, self.packs, self.trace)
    }

    fn idle(&mut self, number: u64) -> Result<(), SinkFailed> {
        self.subsystem.idle(number, self.trace)
    }
}
