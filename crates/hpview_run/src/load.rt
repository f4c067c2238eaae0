// Why a run is not drawn.
use outside_traits::whole::ReadAllFault;
use script_reader::{ReadFault, Script, ScriptKind};
use std::alloc::AllocError;
use thiserror::Error;
use trace_reader::{TraceFault, TraceKind};

/// Why a run is not drawn.
#[derive(Clone, Copy, Debug, PartialEq, Eq, Error)]
pub(crate) enum ViewFault {
    /// There was no memory.
    #[error("there is no memory")]
    Memory,
    /// A call of a source failed.
    #[error("the source failed")]
    Failed,
    /// The script is refused: its first faulty line, and the fault of that line.
    #[error("line {line} is refused")]
    Script { line: u64, kind: ScriptKind },
    /// The trace is refused: its first faulty line, and the fault of that line.
    #[error("trace line {line} is refused")]
    Trace { line: u64, kind: TraceKind },
    /// The run has none of the events that are to be shown: how many events it has.
    #[error("the run has {events} events")]
    Window { events: u64 },
}

/// A script, and its text.
#[derive(Drop)]
pub(crate) struct Loaded {
    pub(crate) script: Script,
    pub(crate) text: Vec<u8>,
}

impl From<AllocError> for ViewFault {
    ghost use Rattle.std.specs.Prelude.{◌≡◌};
    ghost use Rattle.hpview_run.specs.declared.load.ViewFault.TheVariants as faults;

    ghost from_gives = { λ _ e. e ≡ faults.Memory };

    fn from(_: AllocError) -> ViewFault {
        ViewFault::Memory
    }
}

impl From<ReadAllFault> for ViewFault {
    ghost use Rattle.std.specs.Prelude.{◌≡◌};
    ghost use Rattle.hpview_run.specs.Loading.{from_read_all};

    ghost from_gives = { λ f e. e ≡ from_read_all f };

    fn from(fault: ReadAllFault) -> ViewFault {
        match fault {
            ReadAllFault::Memory => ViewFault::Memory,
            ReadAllFault::Failed => ViewFault::Failed,
        }
    }
}

impl From<ReadFault> for ViewFault {
    ghost use Rattle.std.specs.Prelude.{◌≡◌};
    ghost use Rattle.hpview_run.specs.Loading.{from_read};

    ghost from_gives = { λ f e. e ≡ from_read f };

    fn from(fault: ReadFault) -> ViewFault {
        match fault {
            ReadFault::Memory => ViewFault::Memory,
            ReadFault::Refused { line, kind } => ViewFault::Script { line, kind },
        }
    }
}

impl From<TraceFault> for ViewFault {
    ghost use Rattle.std.specs.Prelude.{◌≡◌};
    ghost use Rattle.hpview_run.specs.Loading.{from_trace};

    ghost from_gives = { λ f e. e ≡ from_trace f };

    fn from(fault: TraceFault) -> ViewFault {
        match fault {
            TraceFault::Memory => ViewFault::Memory,
            TraceFault::Refused { line, kind } => ViewFault::Trace { line, kind },
        }
    }
}
