// What refuses or stops a raw transfer.
use blocking_io::Stop;
use thiserror::Error;

/// Why a raw transfer did not complete.
#[derive(Clone, Copy, Debug, Drop, Error)]
pub enum RawFault {
    /// The range reaches beyond the partition. Nothing was done.
    #[error("the range reaches beyond the partition")]
    Outside,
    /// The range touches a block that can't be used. The `done` bytes of the range before that block were transferred.
    #[error("a block can't be used, after {done} bytes")]
    Unusable { done: u64 },
    /// A call on the packs failed.
    #[error("the packs failed")]
    Store,
    /// A call of the trace failed.
    #[error("the trace failed")]
    Sink,
}

impl From<Stop> for RawFault {
    ghost use Rattle.std.specs.Prelude.{◌≡◌};
    ghost use Rattle.raw_io.specs.Calls.{fault_of};

    ghost from_gives = { λ stop e. e ≡ fault_of stop };

    fn from(stop: Stop) -> RawFault {
        match stop {
            Stop::Store => RawFault::Store,
            Stop::Sink => RawFault::Sink,
        }
    }
}
