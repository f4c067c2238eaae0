// What each event does.
ghost use Rattle.std.specs.Prelude.{◌≡◌, ◌<◌};
ghost use Rattle.driver_machine.specs.World.{adapter_at};
ghost use Rattle.driver_machine.specs.Events as events;
ghost use Rattle.driver_machine.specs.Events.{each, drives};
ghost use Rattle.driver_machine.specs.Sound.{Sound};
ghost use Rattle.hp_driver.specs.Done.{DoesActs};
ghost use Rattle.driver_machine.specs.Writes.{writes_next};

use crate::hand::{asked_in_hand, id_in_hand};
use crate::turns::{due, start_adapter};
use driver_machine::Phase;
use hp_core::{Core, Deed, Stop};
use outside_traits::traits::Sink;

/// Ends the positioning of a unit's drive, if the drive is positioning. Stops if the trace fails.
pub fn arrive<T: Sink>(core: &mut Core, line: u64, u: u8, trace: &mut T) -> Result<(), Stop>
    requires sound { Sound core.old.world }
    requires unit { u < 32 }
    ensures { DoesActs T.tells T.taken T.faults trace.old trace.new core.old core.new result (events.arrive_acts line u core.old.world) }
{
    if !core.unit(u).is_positioning() {
        return core.nothing(line, trace);
    }
    let Some(asked) = asked_in_hand(core, u) else {
        return Ok(());
    };
    core.act(line, u, asked.id, Deed::Arrive, trace)
}

/// Whether the next sector that an adapter moves may be written.
pub fn writes(core: &Core, a: u8) -> bool
    requires sound { Sound core.now.world }
    requires adapter { a < 4 }
    ensures { result ≡ writes_next core.now.world a }
{
    core.moves(a) && core.writes(a)
}

/// Whether an interrupt of an adapter can be delivered.
pub(crate) fn interrupts(core: &Core, a: u8) -> bool
    requires sound { Sound core.now.world }
    requires adapter { a < 4 }
    ensures { result ≡ events.can_attend (adapter_at core.now.world a) }
{
    core.has_completed(a) || core.has_attention(a)
}

/// Takes the data interrupt of an adapter, if its completion is up, and does what is then due.
fn data_interrupt<T: Sink>(core: &mut Core, line: u64, a: u8, trace: &mut T) -> Result<(), Stop>
    requires sound { Sound core.old.world }
    requires adapter { a < 4 }
    ensures { DoesActs T.tells T.taken T.faults trace.old trace.new core.old core.new result (events.data_interrupt line a core.old.world) }
{
    if !core.has_completed(a) {
        return Ok(());
    }
    let u = core.transferring(a);
    let id = id_in_hand(core, u);
    core.act(line, u, id, Deed::Interrupt, trace)?;
    due(core, line, u, trace)
}

/// How many steps of a retry are taken when a positioning ends.
fn steps_taken(phase: Phase) -> u32
    ensures { result ≡ events.steps_taken phase }
{
    match phase {
        Phase::Positioning { taken } => taken,
        Phase::Waiting | Phase::Queued | Phase::Transferring | Phase::Due { .. } => 0,
    }
}

/// Takes the attention of drive 0 to 7 of an adapter, if it is up, and does what is then due.
fn attention<T: Sink>(
    core: &mut Core,
    line: u64,
    a: u8,
    drive: u8,
    trace: &mut T,
) -> Result<(), Stop>
    requires sound { Sound core.old.world }
    requires adapter { a < 4 }
    requires drive { drive < 8 }
    ensures { DoesActs T.tells T.taken T.faults trace.old trace.new core.old core.new result (events.attention line a drive core.old.world) }
{
    let u = 8 * a + drive;
    let unit = core.unit(u);
    if !unit.is_raised() {
        return Ok(());
    }
    let taken = steps_taken(unit.phase());
    let id = id_in_hand(core, u);
    core.act(line, u, id, Deed::Attend { taken }, trace)?;
    due(core, line, u, trace)
}

/// The attentions of an adapter's drives are taken, one after another.
fn attentions<T: Sink>(core: &mut Core, line: u64, a: u8, trace: &mut T) -> Result<(), Stop>
    requires sound { Sound core.old.world }
    requires adapter { a < 4 }
    ensures { DoesActs T.tells T.taken T.faults trace.old trace.new core.old core.new result (each (events.attention line a) drives core.old.world) }
{
    for drive in 0..8u8 {
        attention(core, line, a, drive, trace)?;
    }
    Ok(())
}

/// Delivers an adapter's interrupt, if one is pending: takes its data interrupt and the attentions of its drives, and then starts the
/// adapter. Stops if the trace fails.
pub fn attend<T: Sink>(core: &mut Core, line: u64, a: u8, trace: &mut T) -> Result<(), Stop>
    requires sound { Sound core.old.world }
    requires adapter { a < 4 }
    ensures { DoesActs T.tells T.taken T.faults trace.old trace.new core.old core.new result (events.attend_acts line a core.old.world) }
{
    if !interrupts(core, a) {
        return core.nothing(line, trace);
    }
    data_interrupt(core, line, a, trace)?;
    attentions(core, line, a, trace)?;
    start_adapter(core, line, a, trace)
}
