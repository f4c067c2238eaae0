//! What the driver does, act by act: a machine of acts for the whole driver. One function says what comes next at a unit
//! inside an event, and this function is also the guard of what may come. The definitions stand in `specs/`, and their
//! laws stand in crates above.
//!
//! Defined in `specs/`: what holds between two acts; what comes next at a unit, as one function, which is also the guard;
//! what each deed leaves; the acts of each event; the lines that these acts tell; and the invariant. Its only code is
//! `ecc_repair`, the repair of a sector in memory.
#![tactic(auto)]

use drive_registers::OffsetCode;
use hardware_table::Moved;

pub mod ecc_repair;

pub use trace_replay::requests::{Answer, AnswerKind, Cause};

/// An answer that waits to be taken, and the slot of its request. A request that was refused at its submission has no slot.
#[derive(Clone, Copy)]
pub struct Made {
    pub slot: Option<u32>,
    pub answer: Answer,
}

/// A step of a retry, which comes before the transfer of that retry.
#[derive(Clone, Copy)]
pub enum RetryStep {
    /// The heads go back to cylinder 0.
    Recalibrate,
    /// The heads go to the cylinder of the sector that failed.
    Seek { cylinder: u32 },
    /// The heads move off the centre of the track.
    Offset { code: OffsetCode },
}

/// What comes next for the request in hand, inside an event.
#[derive(Clone, Copy)]
pub enum Task {
    /// DCLR, after an interrupt whose verdict was not clean. `moved` sectors moved clean before that verdict.
    Clear { moved: u32, verdict: Moved },
    /// RTC if an offset is set, and then what the verdict asks for. `moved` sectors moved clean before that verdict.
    Judge { moved: u32, verdict: Moved },
    /// The next step of a retry after its first `taken` steps. If no step is left, the unit becomes ready.
    Steps { taken: u32 },
    /// The transfer command, at once.
    Command,
    /// The end of the request, since all tries at the sector behind `done` blocks failed.
    GiveUp { done: u32 },
}

/// How far a unit is with the head of its queue.
#[derive(Clone, Copy)]
pub enum Phase {
    /// Nothing was begun for the head of the queue, or the queue is empty.
    Waiting,
    /// The unit's drive positions, or has its attention up. `taken` steps of a retry were begun.
    Positioning { taken: u32 },
    /// The unit waits for its adapter.
    Queued,
    /// The unit's adapter transfers for it.
    Transferring,
    /// Inside an event a task is due.
    Due { task: Task },
}
