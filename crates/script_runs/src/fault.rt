use driver_laws::answers::outcome::Stop;
use outside_traits::traits::{NoMemory, SinkFailed};
use std::alloc::AllocError;
use thiserror::Error;

/// Why a script was not played to its end.
#[derive(Clone, Copy, Debug, Error)]
pub enum PlayFault {
    /// There was no memory. Nothing was played.
    #[error("there is no memory")]
    Memory,
    /// The image of a unit is longer than its pack. Nothing was played.
    #[error("the image of unit {unit} has {length} bytes")]
    TooLong { unit: u8, length: u64 },
    /// A call of the packs failed.
    #[error("the packs failed")]
    Store,
    /// A call of a sink failed.
    #[error("a sink failed")]
    Sink,
}

impl From<NoMemory> for PlayFault {
    ghost use Rattle.std.specs.Prelude.{◌≡◌};
    ghost use Rattle.script_runs.specs.declared.fault.PlayFault.TheVariants.{Memory};

    ghost from_gives = { λ _ e. e ≡ Memory };

    fn from(_: NoMemory) -> PlayFault {
        PlayFault::Memory
    }
}

impl From<AllocError> for PlayFault {
    ghost use Rattle.std.specs.Prelude.{◌≡◌};
    ghost use Rattle.script_runs.specs.declared.fault.PlayFault.TheVariants.{Memory};

    ghost from_gives = { λ _ e. e ≡ Memory };

    fn from(_: AllocError) -> PlayFault {
        PlayFault::Memory
    }
}

impl From<SinkFailed> for PlayFault {
    ghost use Rattle.std.specs.Prelude.{◌≡◌};
    ghost use Rattle.script_runs.specs.declared.fault.PlayFault.TheVariants.{Sink};

    ghost from_gives = { λ _ e. e ≡ Sink };

    fn from(_: SinkFailed) -> PlayFault {
        PlayFault::Sink
    }
}

impl From<Stop> for PlayFault {
    ghost use Rattle.std.specs.Prelude.{◌≡◌};
    ghost use Rattle.script_runs.specs.Faults.{from_stop};

    ghost from_gives = { λ stop e. e ≡ from_stop stop };

    fn from(stop: Stop) -> PlayFault {
        match stop {
            Stop::Store => PlayFault::Store,
            Stop::Sink => PlayFault::Sink,
        }
    }
}
