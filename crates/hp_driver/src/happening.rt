// An event, over the core.
ghost use Rattle.hp_driver.specs.Inputs.{input_of};
ghost use Rattle.hp_driver.specs.Subsystem.{IsThere};
ghost use Rattle.hp_driver.specs.Calls.{Stands, Happens};

use crate::drain::Event;
use crate::events::{arrive, attend};
use driver_laws::answers::outcome::Stop;
use hp_core::Core;
use outside_traits::traits::{Packs, Sink};

/// An event happens at a line of the script.
pub(crate) fn happen<P: Packs, T: Sink>(
    core: &mut Core,
    line: u64,
    event: Event,
    packs: &mut P,
    trace: &mut T,
) -> Result<(), Stop>
    requires stands { Stands core.old }
    requires there { IsThere core.old.world (input_of event) }
    ensures { Happens P.tells P.held P.faults T.tells T.taken T.faults packs.old packs.new trace.old trace.new core.old core.new result line (input_of event) }
{
    match event {
        Event::Arrive { unit } => arrive(core, line, unit, trace),
        Event::Move { adapter } => core.move_sector(line, adapter, packs, trace),
        Event::Attend { adapter } => attend(core, line, adapter, trace),
        Event::Turn { unit, sector } => {
            core.turn(unit, sector);
            Ok(())
        }
        Event::Noise {
            unit,
            block,
            noise,
            span,
        } => {
            core.arm_noise(unit, block, noise, span);
            Ok(())
        }
        Event::Fault { unit, kind, times } => {
            core.arm(unit, kind, times);
            Ok(())
        }
        Event::Online { unit, on } => {
            core.set_online(unit, on);
            Ok(())
        }
        Event::Lock { unit, on } => {
            core.set_locked(unit, on);
            Ok(())
        }
    }
}
