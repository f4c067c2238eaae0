// What is due at a unit, and the start of an adapter: one turn after another, until nothing is left to do.
ghost use Rattle.std.specs.Prelude.{◌≡◌, ◌<◌, [], false, IfOk};
ghost use Rattle.driver_machine.specs.Events.{due_acts, choose_acts, adapter_start};
ghost use Rattle.driver_machine.specs.Sound.{Sound};
ghost use Rattle.hp_driver.specs.Done.{DoesActs};
ghost use Rattle.hp_driver.specs.Free.{IsFree};

use crate::deeds::{choose, next_deed};
use hp_core::{Core, Stop};
use outside_traits::traits::Sink;

/// How many deeds follow an interrupt at most: those of the phase, for the volume, and for the offset.
const DEEDS_OF_INTERRUPT: u64 = 8;

/// How many deeds come at most for each request that ends.
const DEEDS_OF_REQUEST: u64 = 3;

/// Does what is due at a unit, 0 to 31, until nothing is due. A transfer command comes only if the unit's adapter is free. Stops if the
/// trace fails.
pub fn due<T: Sink>(core: &mut Core, line: u64, u: u8, trace: &mut T) -> Result<(), Stop>
    requires sound { Sound core.old.world }
    requires unit { u < 32 }
    requires free { IsFree core.old.world u }
    ensures { DoesActs T.tells T.taken T.faults trace.old trace.new core.old core.new result (due_acts line u core.old.world) }
{
    for _ in 0..DEEDS_OF_INTERRUPT + DEEDS_OF_REQUEST * u64::from(core.unit(u).queue_len()) {
        let more = next_deed(core, line, u, trace)?;
        if !more {
            return Ok(());
        }
    }
    Ok(())
}

/// If an adapter is free, the first unit that waits for it gets its transfer command, or what comes in its place, and then what is due
/// at that unit. Says whether a unit did.
fn choose_first<T: Sink>(core: &mut Core, line: u64, a: u8, trace: &mut T) -> Result<bool, Stop>
    requires sound { Sound core.old.world }
    requires adapter { a < 4 }
    ensures does { DoesActs T.tells T.taken T.faults trace.old trace.new core.old core.new result (choose_acts line a core.old.world) }
    ensures none { IfOk result (λ more. more ≡ false → choose_acts line a core.old.world ≡ []) }
{
    if core.is_busy(a) {
        return Ok(false);
    }
    let Some(u) = core.first_waiting(a) else {
        return Ok(false);
    };
    choose(core, line, u, trace)?;
    due(core, line, u, trace)?;
    Ok(true)
}

/// Starts an adapter, 0 to 3: the first unit that waits for it gets what is due, until the adapter is busy or no unit waits. Stops if
/// the trace fails.
pub(crate) fn start_adapter<T: Sink>(
    core: &mut Core,
    line: u64,
    a: u8,
    trace: &mut T,
) -> Result<(), Stop>
    requires sound { Sound core.old.world }
    requires adapter { a < 4 }
    ensures { DoesActs T.tells T.taken T.faults trace.old trace.new core.old core.new result (adapter_start line a core.old.world) }
{
    for _ in 0..2 + u64::from(core.slot_count()) {
        let more = choose_first(core, line, a, trace)?;
        if !more {
            return Ok(());
        }
    }
    Ok(())
}
