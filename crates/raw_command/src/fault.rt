// Why a transfer was not done, or not told.
use mba_autoconf::AttachFault;
use outside_traits::traits::{NoMemory, SinkFailed};
use outside_traits::whole::ReadAllFault;
use raw_io::RawFault;
use std::alloc::AllocError;
use thiserror::Error;

/// Why a transfer did not complete, or its result was not told.
#[derive(Clone, Copy, Debug, Error)]
pub enum TransferFault {
    /// There was no memory. Nothing was transferred.
    #[error("there is no memory")]
    Memory,
    /// A call of the source failed. Nothing was transferred.
    #[error("the source failed")]
    Source,
    /// The range reaches beyond the partition, or the source has too many bytes. Nothing was transferred.
    #[error("the range reaches beyond the partition")]
    Outside,
    /// The image of the unit is longer than its pack. Nothing was transferred.
    #[error("the image has {length} bytes")]
    TooLong { length: u64 },
    /// The range touches a block that can't be used. The `done` bytes of the range before that block were transferred.
    #[error("a block can't be used, after {done} bytes")]
    Unusable { done: u64 },
    /// A call of the packs failed.
    #[error("the packs failed")]
    Store,
    /// A call of a sink failed.
    #[error("a sink failed")]
    Sink,
}

impl From<AllocError> for TransferFault {
    ghost use Rattle.std.specs.Prelude.{◌≡◌};
    ghost use Rattle.raw_command.specs.declared.fault.TransferFault.TheVariants.{Memory};

    ghost from_gives = { λ _ e. e ≡ Memory };

    fn from(_: AllocError) -> TransferFault {
        TransferFault::Memory
    }
}

impl From<NoMemory> for TransferFault {
    ghost use Rattle.std.specs.Prelude.{◌≡◌};
    ghost use Rattle.raw_command.specs.declared.fault.TransferFault.TheVariants.{Memory};

    ghost from_gives = { λ _ e. e ≡ Memory };

    fn from(_: NoMemory) -> TransferFault {
        TransferFault::Memory
    }
}

impl From<ReadAllFault> for TransferFault {
    ghost use Rattle.std.specs.Prelude.{◌≡◌};
    ghost use Rattle.raw_command.specs.Faults.{from_read_all};

    ghost from_gives = { λ f e. e ≡ from_read_all f };

    fn from(fault: ReadAllFault) -> TransferFault {
        match fault {
            ReadAllFault::Memory => TransferFault::Memory,
            ReadAllFault::Failed => TransferFault::Source,
        }
    }
}

impl From<AttachFault> for TransferFault {
    ghost use Rattle.std.specs.Prelude.{◌≡◌};
    ghost use Rattle.raw_command.specs.Faults.{from_attach};

    ghost from_gives = { λ f e. e ≡ from_attach f };

    fn from(fault: AttachFault) -> TransferFault {
        match fault {
            AttachFault::TooLong { length } => TransferFault::TooLong { length },
            AttachFault::Store => TransferFault::Store,
        }
    }
}

impl From<RawFault> for TransferFault {
    ghost use Rattle.std.specs.Prelude.{◌≡◌};
    ghost use Rattle.raw_command.specs.Faults.{from_raw};

    ghost from_gives = { λ f e. e ≡ from_raw f };

    fn from(fault: RawFault) -> TransferFault {
        match fault {
            RawFault::Outside => TransferFault::Outside,
            RawFault::Unusable { done } => TransferFault::Unusable { done },
            RawFault::Store => TransferFault::Store,
            RawFault::Sink => TransferFault::Sink,
        }
    }
}

impl From<SinkFailed> for TransferFault {
    ghost use Rattle.std.specs.Prelude.{◌≡◌};
    ghost use Rattle.raw_command.specs.declared.fault.TransferFault.TheVariants.{Sink};

    ghost from_gives = { λ _ e. e ≡ Sink };

    fn from(_: SinkFailed) -> TransferFault {
        TransferFault::Sink
    }
}
