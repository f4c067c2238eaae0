// The commands that are due. The drive status is read before each of them.
ghost use Rattle.std.specs.Prelude.{◌≡◌, drop};
ghost use Rattle.hardware_table.specs.Adapter.{AdapterState};
ghost use Rattle.trace_replay.specs.declared.requests.answers.AnswerKind.TheVariants.{Error};
ghost use Rattle.hp_core.specs.declared.deed.Deed.TheVariants.{End};
ghost use Rattle.hp_core.specs.Deeds.{deed_in};
ghost use Rattle.hp_core.specs.Requests.{asked_of};
ghost use Rattle.driver_machine.specs.declared.Phase.TheVariants.{Due};
ghost use Rattle.driver_machine.specs.declared.Task.TheVariants.{Steps};
ghost use Rattle.driver_machine.specs.World.{Held, transfer_of};
ghost use Rattle.driver_machine.specs.Due.{sensed, start_of, step_of, steps_of, command_of};
ghost use Rattle.hp_driver.specs.Hand.{IsAskedAt};

use driver_machine::{AnswerKind, Cause};
use hp_core::{Asked, Deed, DiskUnit};
use hp_interrupts::Sensed;
use pack_geometry::place_of;
use trace_replay::seek_engine::Position;

/// The end of a request with an error. `done` of its blocks are done.
pub(crate) fn failed(cause: Cause, done: u32) -> Deed
    ensures { result ≡ End (Error cause done) }
{
    let kind = AnswerKind::Error { cause, done };
    Deed::End { kind }
}

/// What the drive status makes of a command that is due: the command, PACK before it, or the end of the request in its place. `writes`
/// says whether the command is the transfer command of a write.
fn sensed(unit: &DiskUnit, writes: bool, command: Deed) -> Deed
    ensures { (h : Held) → (a : AdapterState) → deed_in result unit.now h a ≡ sensed writes unit.now (deed_in command unit.now h a) }
{
    match unit.sensed(writes) {
        Sensed::Offline => failed(Cause::Offline, unit.done()),
        Sensed::Locked => failed(Cause::Locked, unit.done()),
        Sensed::Go => {
            if unit.needs_pack() {
                Deed::Pack
            } else {
                command
            }
        }
    }
}

/// The start of a unit for a first try at the request in hand: it positions, or is ready at once.
pub(crate) fn start(unit: &DiskUnit, asked: Asked) -> Deed
    requires hand { IsAskedAt unit.now asked }
    ensures { (h : Held) → (a : AdapterState) → asked ≡ asked_of h → deed_in result unit.now h a ≡ start_of unit.now h }
{
    let target = place_of(unit.kind(), asked.first);
    match unit.position(target) {
        Position::Ready | Position::Seek { .. } => Deed::Begin,
        Position::Search { sector, .. } => sensed(unit, false, Deed::Search { target, sector }),
    }
}

/// The next step of a retry, after `taken` steps; if all have been taken, the unit is ready.
pub(crate) fn next_step(unit: &DiskUnit, asked: Asked, taken: u32) -> Deed
    requires hand { IsAskedAt unit.now asked }
    requires phase { unit.now.phase ≡ Due (Steps taken) }
    ensures { (h : Held) → (a : AdapterState) → deed_in result unit.now h a ≡ step_of (drop taken (steps_of (transfer_of unit.now))) taken unit.now }
{
    match unit.next_step(taken, asked.write) {
        Some(step) => {
            let taken = taken + 1;
            sensed(unit, false, Deed::Step { step, taken })
        }
        None => Deed::Ready,
    }
}

/// The transfer command, at once or when the adapter takes the unit.
pub(crate) fn command(unit: &DiskUnit, asked: Asked) -> Deed
    ensures { (h : Held) → (a : AdapterState) → asked ≡ asked_of h → deed_in result unit.now h a ≡ command_of unit.now h }
{
    let transfer = Deed::Transfer {
        write: asked.write,
        segment: unit.segment(),
    };
    sensed(unit, asked.write, transfer)
}
