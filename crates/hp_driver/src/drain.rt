// What can happen to the driver, and what a drain does next.
ghost use Rattle.std.specs.Prelude.{◌≡◌, ◌<◌, Option};
ghost use Rattle.std.specs.Option.{option_map};
ghost use Rattle.driver_machine.specs.Events as events;
ghost use Rattle.driver_machine.specs.Events.{lowest};
ghost use Rattle.driver_machine.specs.Sound.{Sound};
ghost use Rattle.hp_driver.specs.Inputs.{input_of};

use crate::events::interrupts;
use fire_code::Noise;
use hardware_table::{FaultKind, NoiseSpan};
use hp_core::Core;

/// What can happen to the driver, other than a submission.
#[derive(Drop)]
pub enum Event {
    /// The positioning of a unit's drive ends.
    Arrive {
        unit: u8,
    },
    /// An adapter, 0 to 3, moves one sector.
    Move {
        adapter: u8,
    },
    /// An adapter's interrupt is delivered.
    Attend {
        adapter: u8,
    },
    /// A pack turns until a sector comes under the heads.
    Turn {
        unit: u8,
        sector: u32,
    },
    /// Noise is armed at a block of a unit, and lives for a span.
    Noise {
        unit: u8,
        block: u32,
        noise: Noise,
        span: NoiseSpan,
    },
    /// A fault is armed at a unit's drive, for `times` more times.
    Fault {
        unit: u8,
        kind: FaultKind,
        times: u32,
    },
    /// A unit's drive goes online, or offline.
    Online {
        unit: u8,
        on: bool,
    },
    /// A unit's drive is write locked, or unlocked.
    Lock {
        unit: u8,
        on: bool,
    },
}

/// The lowest adapter that can move a sector.
fn next_move(core: &Core) -> Option<u8>
    requires { Sound core.now.world }
    ensures { result ≡ lowest events.can_move core.now.world.adapters 0 }
{
    for a in 0..4u8 {
        if core.moves(a) {
            return Some(a);
        }
    }
    None
}

/// The lowest adapter with an interrupt that can be delivered.
fn next_interrupt(core: &Core) -> Option<u8>
    requires { Sound core.now.world }
    ensures { result ≡ lowest events.can_attend core.now.world.adapters 0 }
{
    for a in 0..4u8 {
        if interrupts(core, a) {
            return Some(a);
        }
    }
    None
}

/// The next event of a drain: the end of a positioning if a drive positions; otherwise the move of a sector if an adapter can move one;
/// otherwise an interrupt. Each of them is that of the lowest unit or adapter. None if nothing can happen.
pub fn next_event(core: &Core) -> Option<Event>
    requires { Sound core.now.world }
    ensures { option_map input_of result ≡ events.next_event core.now.world }
{
    if let Some(unit) = core.positioning() {
        return Some(Event::Arrive { unit });
    }
    if let Some(adapter) = next_move(core) {
        return Some(Event::Move { adapter });
    }
    let adapter = next_interrupt(core)?;
    Some(Event::Attend { adapter })
}
