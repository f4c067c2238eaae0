// What a submission does.
ghost use Rattle.std.specs.Prelude.{◌≡◌, ◌∷◌, []};
ghost use Rattle.trace_replay.specs.requests.Requests.{Request};
ghost use Rattle.driver_machine.specs.World.{adapter_of};
ghost use Rattle.driver_machine.specs.Acts.{Refuse};
ghost use Rattle.driver_machine.specs.Events.{followed, adapter_start};
ghost use Rattle.driver_machine.specs.Guards.{Allowed};
ghost use Rattle.driver_machine.specs.Sound.{Sound, AtWork};
ghost use Rattle.hp_core.specs.Joins.{MayJoin};
ghost use Rattle.hp_driver.specs.Done.{DoesActs};
ghost use Rattle.hp_driver.specs.Submissions.{MayRefuse, Submits};

use crate::turns::{due, start_adapter};
use driver_machine::AnswerKind;
use hp_core::{Asked, Core, Stop};
use outside_traits::traits::Sink;

/// Refuses a request of a unit, and then starts the unit's adapter. Stops if the trace fails.
pub fn refuse<T: Sink>(
    core: &mut Core,
    line: u64,
    unit: u8,
    id: u32,
    kind: AnswerKind,
    trace: &mut T,
) -> Result<(), Stop>
    requires sound { Sound core.old.world }
    requires may { MayRefuse core.old.world line unit id kind }
    ensures { (r : Request) → r.unit ≡ unit → r.id ≡ id → Allowed core.old.world (Refuse line r kind)
        → DoesActs T.tells T.taken T.faults trace.old trace.new core.old core.new result
        (followed (Refuse line r kind ∷ []) (adapter_start line (adapter_of r.unit)) core.old.world) }
{
    core.refuse(line, unit, id, kind, trace)?;
    start_adapter(core, line, unit / 8, trace)
}

/// Puts a request into a free slot, with its bytes if it is a write; then does what is due at its unit, and starts the unit's adapter.
/// No task may be due anywhere before the call. Stops if the trace fails.
pub fn join<T: Sink>(
    core: &mut Core,
    line: u64,
    asked: Asked,
    bytes: &[u8],
    trace: &mut T,
) -> Result<(), Stop>
    requires sound { Sound core.old.world }
    requires work { AtWork core.old.world }
    requires may { MayJoin core.old.world asked bytes.now }
    ensures { Submits T.tells T.taken T.faults trace.old trace.new core.old core.new result line asked bytes.now }
{
    core.join(line, asked, bytes);
    due(core, line, asked.unit, trace)?;
    start_adapter(core, line, asked.unit / 8, trace)
}
