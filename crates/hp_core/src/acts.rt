// The acts at the request in hand of a unit.
ghost use Rattle.std.specs.Prelude.{◌≡◌};
ghost use Rattle.driver_machine.specs.Guards.{Allowed};
ghost use Rattle.driver_machine.specs.Sound.{Sound};
ghost use Rattle.hp_core.specs.Deeds.{act_of, did};
ghost use Rattle.hp_core.specs.Done.{DoesAct};

use crate::deed::{Deed, told_of};
use crate::driver::Core;
use driver_laws::answers::outcome::Stop;
use outside_traits::traits::Sink;

impl Core {
    /// What a deed changes.
    fn put(&mut self, line: u64, u: u8, id: u32, deed: Deed)
        requires sound { Sound self.old.world }
        requires may { Allowed self.old.world (act_of self.old.world line u id deed) }
        ensures { self.new ≡ did self.old (act_of self.old.world line u id deed) }
    {
        match deed {
            Deed::Arrive => self.put_arrive(line, u, id),
            Deed::Attend { taken } => self.put_attend(line, u, id, taken),
            Deed::Interrupt => self.put_interrupt(line, u, id),
            Deed::Search { target, sector } => self.put_search(line, u, id, target, sector),
            Deed::Step { step, taken } => self.put_step(line, u, id, step, taken),
            Deed::Transfer { write, segment } => self.put_move(u, write, segment),
            Deed::Pack => self.put_pack(line, u, id),
            Deed::Clear { moved, verdict } => self.put_clear(line, u, id, moved, verdict),
            Deed::Centre => self.put_centre(line, u, id),
            Deed::Ready => self.put_ready(line, u, id),
            Deed::Begin => self.put_begin(line, u, id),
            Deed::Repair { moved, at, pattern } => self.put_repair(line, u, id, moved, at, pattern),
            Deed::Forward { moved, index } => self.put_forward(line, u, id, moved, index),
            Deed::Continue { moved } => self.put_continue(line, u, id, moved),
            Deed::Try {
                moved,
                block,
                failures,
            } => self.put_try(line, u, id, moved, block, failures),
            Deed::End { kind } => self.put_end(line, u, kind),
        }
    }

    /// Does a deed for the request in hand of a unit, and tells its line, if it has one.
    pub fn act<T: Sink>(
        &mut self,
        line: u64,
        u: u8,
        id: u32,
        deed: Deed,
        trace: &mut T,
    ) -> Result<(), Stop>
        requires sound { Sound self.old.world }
        requires may { Allowed self.old.world (act_of self.old.world line u id deed) }
        ensures { DoesAct T.tells T.taken T.faults trace.old trace.new self.old self.new result (act_of self.old.world line u id deed) }
    {
        self.put(line, u, id, deed);
        match told_of(deed) {
            Some(told) => self.tell(line, u, id, told, trace),
            None => Ok(()),
        }
    }
}
