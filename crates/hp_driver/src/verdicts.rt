// What the verdict of a transfer asks for.
ghost use Rattle.std.specs.Prelude.{◌≡◌};
ghost use Rattle.hardware_table.specs.Adapter.{AdapterState};
ghost use Rattle.hardware_table.specs.declared.Moved.TheVariants.{Clean, Marked};
ghost use Rattle.hp_core.specs.Deeds.{deed_in};
ghost use Rattle.hp_core.specs.Requests.{asked_of};
ghost use Rattle.driver_machine.specs.declared.Phase.TheVariants.{Due};
ghost use Rattle.driver_machine.specs.declared.Task.TheVariants.{Judge};
ghost use Rattle.driver_machine.specs.World.{UnitView, Held};
ghost use Rattle.driver_machine.specs.Due.{done_with, finished, forward_of, judged, deed_for};
ghost use Rattle.hp_driver.specs.Hand.{IsAskedAt};

use crate::starts::failed;
use driver_machine::{AnswerKind, Cause};
use hardware_table::Moved;
use hp_core::{Asked, Deed, DiskUnit};

/// The answer to a request all of whose blocks moved.
fn answer(asked: Asked) -> AnswerKind
    ensures { (h : Held) → asked ≡ asked_of h → result ≡ finished h }
{
    if asked.write {
        AnswerKind::WriteOk
    } else {
        AnswerKind::ReadOk {
            count: asked.count,
            last: asked.last,
        }
    }
}

/// So many sectors moved clean, with which this many blocks are done: the request ends, or its next blocks come.
fn finish(asked: Asked, moved: u32, done: u32) -> Deed
    ensures { (v : UnitView) → (h : Held) → (a : AdapterState) → asked ≡ asked_of h → done ≡ done_with moved v → deed_in result v h a ≡ judged moved Clean v h }
{
    if done == asked.count {
        let kind = answer(asked);
        Deed::End { kind }
    } else {
        Deed::Continue { moved }
    }
}

/// The sector that follows `moved` others is marked: its replacement comes next, or the request ends when this many blocks are done.
fn replace(unit: &DiskUnit, asked: Asked, moved: u32, done: u32) -> Deed
    requires hand { IsAskedAt unit.now asked }
    requires phase { unit.now.phase ≡ Due (Judge moved Marked) }
    requires done { done ≡ done_with moved unit.now }
    ensures { (h : Held) → (a : AdapterState) → deed_in result unit.now h a ≡ forward_of moved unit.now }
{
    match unit.entry(moved) {
        Some(index) => Deed::Forward { moved, index },
        None => failed(Cause::Unforwarded, done),
    }
}

/// What a verdict asks for after `moved` sectors that moved clean, if no offset is set.
fn follow(unit: &DiskUnit, asked: Asked, moved: u32, verdict: Moved) -> Deed
    requires hand { IsAskedAt unit.now asked }
    requires phase { unit.now.phase ≡ Due (Judge moved verdict) }
    ensures { (h : Held) → (a : AdapterState) → asked ≡ asked_of h → deed_in result unit.now h a ≡ judged moved verdict unit.now h }
{
    let done = unit.done() + moved;
    match verdict {
        Moved::Clean => finish(asked, moved, done),
        Moved::Burst { at, pattern } => Deed::Repair { moved, at, pattern },
        Moved::Offline => failed(Cause::Offline, done),
        Moved::Marked => replace(unit, asked, moved, done),
        Moved::Faulted(_) | Moved::Hard => {
            let (block, failures) = unit.failing(moved);
            Deed::Try {
                moved,
                block,
                failures,
            }
        }
    }
}

/// Judges a verdict. If an offset is set, RTC comes first.
pub(crate) fn judge(unit: &DiskUnit, asked: Asked, moved: u32, verdict: Moved) -> Deed
    requires hand { IsAskedAt unit.now asked }
    requires phase { unit.now.phase ≡ Due (Judge moved verdict) }
    ensures { (h : Held) → (a : AdapterState) → asked ≡ asked_of h → deed_in result unit.now h a ≡ deed_for (Judge moved verdict) unit.now h }
{
    if unit.is_centred() {
        follow(unit, asked, moved, verdict)
    } else {
        Deed::Centre
    }
}
