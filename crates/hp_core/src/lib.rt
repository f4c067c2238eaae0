//! The acts of the driver. Each act changes the driver's units, adapters, slots and answers, and tells its line to a trace.
//!
//! What is proved: `Core` holds units, adapters, slots, noise and waiting answers together. `act` does a deed for the request in hand of
//! a unit, and other methods do the other acts. Each requires the invariant, and that the act may come, and states the act's outcome
//! (`DoesAct`, `DoesSilently`, `DoesMove`): the world after the call is that of the act even if the trace fails. If the packs fail, the
//! next block of a write is left old or new, and a read changes no block. Lines are kept, up to 64 KiB, and `send` passes them on.
#![tactic(auto)]

mod acts;
mod conditions;
mod deed;
mod driver;
mod ends;
mod puts;
mod sectors;
mod start;
mod submission;
mod views;

pub use deed::Deed;
pub use driver::{Core, frames_for};
pub use driver_laws::answers::outcome::Stop;
pub use hp_units::{DiskUnit, UnitSetup};
pub use request_slots::Asked;
