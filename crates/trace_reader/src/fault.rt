use std::alloc::{AllocError, AllocFailed};
use thiserror::Error;

/// What is wrong with a line of a trace.
#[derive(Clone, Copy, Debug, PartialEq, Eq)]
pub enum TraceKind {
    /// The trace has more than 2^28 bytes.
    Long,
    /// The text is no line of a trace: a word may not stand in its place, is missing or is left over; two words do not have exactly
    /// one blank between them; or a number is out of its range, or has a leading zero.
    Word,
    /// The number of the line is below that of the line before it.
    Order,
    /// The number of the line is beyond the script's last drain, or no line of the script up to that number asks the line's unit
    /// for the request of the line's id.
    Script,
    /// A line before has ended the request of the line's id.
    Ended,
}

/// Why a trace was not read.
#[derive(Clone, Copy, Debug, PartialEq, Eq, Error)]
pub enum TraceFault {
    /// There was no memory.
    #[error("there is no memory")]
    Memory,
    /// The first faulty line, counted from 1, and its fault; the line is 0 if the trace is too long.
    #[error("line {line} of the trace is refused")]
    Refused { line: u64, kind: TraceKind },
}

impl<T: Drop> From<AllocFailed<T>> for TraceFault {
    ghost use Rattle.std.specs.Prelude.{◌≡◌};
    ghost use Rattle.trace_reader.specs.declared.fault.TraceFault.TheVariants.{Memory};

    ghost from_gives = { λ _ e. e ≡ Memory };

    fn from(_: AllocFailed<T>) -> TraceFault {
        TraceFault::Memory
    }
}

impl From<AllocError> for TraceFault {
    ghost use Rattle.std.specs.Prelude.{◌≡◌};
    ghost use Rattle.trace_reader.specs.declared.fault.TraceFault.TheVariants.{Memory};

    ghost from_gives = { λ _ e. e ≡ Memory };

    fn from(_: AllocError) -> TraceFault {
        TraceFault::Memory
    }
}
