// Refusals, and events that find nothing to do.
ghost use Rattle.std.specs.Prelude.{◌≡◌, ◌∷◌, ◌++◌, [], None};
ghost use Rattle.trace_replay.specs.requests.Requests.{Request};
ghost use Rattle.driver_machine.specs.Acts.{Refuse, Nothing, answer_at};
ghost use Rattle.driver_machine.specs.Guards.{Allowed};
ghost use Rattle.hp_core.specs.Done.{DoesAct};

use crate::driver::Core;
use driver_laws::answers::outcome::Stop;
use driver_machine::{Answer, AnswerKind, Made};
use outside_traits::traits::Sink;
use trace_lines::Told;

impl Core {
    /// The answer to a request that is refused waits.
    fn put_refuse(&mut self, line: u64, id: u32, kind: AnswerKind)
        requires taken { self.old.world.answers ≡ [] }
        ensures { self.new ≡ record self.old { world = record self.old.world { answers = self.old.world.answers ++ answer_at line None id kind ∷ [] } } }
    {
        let answer = Answer { id, at: line, kind };
        self.answers.push(Made { slot: None, answer });
    }

    /// Refuses a request. The answer that says so waits until it is taken.
    pub fn refuse<T: Sink>(
        &mut self,
        line: u64,
        unit: u8,
        id: u32,
        kind: AnswerKind,
        trace: &mut T,
    ) -> Result<(), Stop>
        requires taken { self.old.world.answers ≡ [] }
        ensures { (r : Request) → r.unit ≡ unit → r.id ≡ id → Allowed self.old.world (Refuse line r kind)
            → DoesAct T.tells T.taken T.faults trace.old trace.new self.old self.new result (Refuse line r kind) }
    {
        self.put_refuse(line, id, kind);
        self.tell(line, unit, id, Told::End, trace)
    }

    /// Tells the line of an event that found nothing to do.
    pub fn nothing<T: Sink>(&mut self, line: u64, trace: &mut T) -> Result<(), Stop>
        ensures { DoesAct T.tells T.taken T.faults trace.old trace.new self.old self.new result (Nothing line) }
    {
        self.tell_idle(line, trace)
    }
}
