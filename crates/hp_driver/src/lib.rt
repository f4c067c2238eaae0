//! The driver of the disks, after 4.3BSD's `hp.c` and `mba.c`, as its users call it. Each call performs the acts that the driver's
//! machine gives for it, and tells their lines to a trace.
//!
//! What is proved: `submit` and `event` perform the acts that the machine gives for them (`Submits`, `Comes`): all of them with their
//! text, or the first ones, up to a failure. `next_event` follows the drain's order, and answers None exactly if no request is
//! outstanding. If the packs stop a call, all lines that were kept before it are still kept. `writes` tells beforehand which move may
//! change the packs; every other event leaves them alone, even if they fail. The driver's invariant is that of its model, so a call
//! requires only that no call has failed, that no answer waits, and that what it names is there. Each call keeps the map of blocks that
//! the driver and its packs stand for, whatever calls came before it (`KeepsMaps`, `KeepsMapsIn`, `HoldsMaps`). Only `new` allocates
//! memory.
//!
//! Only tested, in `drive_rows`: worked values, in addition to their proofs.
#![tactic(auto)]

mod admission;
mod deeds;
mod drain;
mod events;
mod hand;
mod happening;
mod starts;
mod submission;
mod subsystem;
mod turns;
mod verdicts;

pub use drain::Event;
pub use driver_laws::answers::outcome::Stop;
pub use driver_machine::{Answer, AnswerKind, Cause};
pub use hp_core::UnitSetup;
pub use subsystem::Subsystem;
pub use trace_replay::requests::Request;
