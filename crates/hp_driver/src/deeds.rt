// The deed that is due at a unit.
ghost use Rattle.std.specs.Prelude.{◌≡◌, ◌≢◌, ◌<◌, ◌∷◌, [], true, false, drop, IfOk};
ghost use Rattle.std.specs.Option.{option_map};
ghost use Rattle.hardware_table.specs.Adapter.{AdapterState};
ghost use Rattle.hp_core.specs.declared.deed.Deed.{Deed};
ghost use Rattle.hp_core.specs.Deeds.{deed_in};
ghost use Rattle.hp_core.specs.Requests.{asked_of};
ghost use Rattle.driver_machine.specs.declared.Phase.TheVariants.{Queued, Due};
ghost use Rattle.driver_machine.specs.World.{Held, unit_at, adapter_at, adapter_of};
ghost use Rattle.driver_machine.specs.Due.{next_of, deed_for, command_of};
ghost use Rattle.driver_machine.specs.Events.{in_hand, next_acts};
ghost use Rattle.driver_machine.specs.Sound.{Sound};
ghost use Rattle.hp_driver.specs.Done.{DoesActs};
ghost use Rattle.hp_driver.specs.Free.{IsFree};
ghost use Rattle.hp_driver.specs.Hand.{IsAskedAt, hand_at};

use crate::hand::asked_in_hand;
use crate::starts::{command, failed, next_step, start};
use crate::verdicts::judge;
use driver_machine::{Cause, Phase, Task};
use hp_core::{Asked, Core, Deed, DiskUnit, Stop};
use outside_traits::traits::Sink;

/// The deed of a task that is due.
fn task_deed(unit: &DiskUnit, asked: Asked, task: Task) -> Deed
    requires hand { IsAskedAt unit.now asked }
    requires phase { unit.now.phase ≡ Due task }
    ensures { (h : Held) → (a : AdapterState) → asked ≡ asked_of h → deed_in result unit.now h a ≡ deed_for task unit.now h }
{
    match task {
        Task::Clear { moved, verdict } => Deed::Clear { moved, verdict },
        Task::Judge { moved, verdict } => judge(unit, asked, moved, verdict),
        Task::Steps { taken } => next_step(unit, asked, taken),
        Task::Command => command(unit, asked),
        Task::GiveUp { done } => failed(Cause::Fault { attempts: 28 }, done),
    }
}

/// The deed that is due at a unit for the request in hand. None if the unit waits for an event.
fn due_deed(unit: &DiskUnit, asked: Asked) -> Option<Deed>
    requires hand { IsAskedAt unit.now asked }
    ensures { (h : Held) → (a : AdapterState) → asked ≡ asked_of h → option_map (λ (d : Deed). deed_in d unit.now h a) result ≡ next_of unit.now h }
{
    match unit.phase() {
        Phase::Waiting => Some(start(unit, asked)),
        Phase::Due { task } => Some(task_deed(unit, asked, task)),
        Phase::Positioning { .. } | Phase::Queued | Phase::Transferring => None,
    }
}

/// Does the one deed that is due at a unit, if one is, and says whether one was. A transfer command that is due at once wants the
/// unit's adapter free. At Err a call of the trace failed.
pub(crate) fn next_deed<T: Sink>(
    core: &mut Core,
    line: u64,
    u: u8,
    trace: &mut T,
) -> Result<bool, Stop>
    requires sound { Sound core.old.world }
    requires unit { u < 32 }
    requires free { IsFree core.old.world u }
    ensures does { DoesActs T.tells T.taken T.faults trace.old trace.new core.old core.new result (next_acts line u core.old.world) }
    ensures some { IfOk result (λ more. more ≡ true → next_acts line u core.old.world ≢ []) }
    ensures none { IfOk result (λ more. more ≡ false → next_acts line u core.old.world ≡ []) }
    ensures sound { IfOk result (λ more. Sound core.new.world) }
    ensures free { IfOk result (λ more. IsFree core.new.world u) }
{
    let Some(asked) = asked_in_hand(core, u) else {
        return Ok(false);
    };
    let Some(deed) = due_deed(core.unit(u), asked) else {
        return Ok(false);
    };
    core.act(line, u, asked.id, deed, trace)?;
    Ok(true)
}

/// Gives the first unit in the queue of its adapter, which is free, what is due for its transfer command: PACK, after which the command
/// is due; the command itself; or the end of its request, after which the unit is started. Err means that a call of the trace failed.
pub(crate) fn choose<T: Sink>(core: &mut Core, line: u64, u: u8, trace: &mut T) -> Result<(), Stop>
    requires sound { Sound core.old.world }
    requires unit { u < 32 }
    requires phase { (unit_at core.old.world u).phase ≡ Queued }
    requires first { (adapter_at core.old.world (adapter_of u)).queue ≡ u ∷ drop 1 (adapter_at core.old.world (adapter_of u)).queue }
    requires idle { (adapter_at core.old.world (adapter_of u)).state.busy ≡ false }
    ensures does { DoesActs T.tells T.taken T.faults trace.old trace.new core.old core.new result
        (in_hand line u (command_of (unit_at core.old.world u) (hand_at core.old.world u)) core.old.world) }
    ensures sound { IfOk result (λ _. Sound core.new.world) }
    ensures free { IfOk result (λ _. IsFree core.new.world u) }
{
    match asked_in_hand(core, u) {
        Some(asked) => {
            let deed = command(core.unit(u), asked);
            core.act(line, u, asked.id, deed, trace)
        }
        None => unreachable!(),
    }
}
