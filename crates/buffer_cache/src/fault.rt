// Why a block was not read or written through the cache.
use crate::Stop;
use thiserror::Error;

/// Why a block was not read or written through the cache.
#[derive(Clone, Copy, Debug, Drop, Error)]
pub enum CacheFault {
    /// The block can't be used. Nothing was done.
    #[error("the block can't be used")]
    Unusable,
    /// The packs or the trace failed.
    #[error("the packs or the trace failed")]
    Stop(Stop),
}

impl From<Stop> for CacheFault {
    ghost use Rattle.std.specs.Prelude.{◌≡◌};
    ghost use Rattle.buffer_cache.specs.declared.fault.CacheFault.TheVariants.{Stop};

    ghost from_gives = { λ stop e. e ≡ Stop stop };

    fn from(stop: Stop) -> CacheFault {
        CacheFault::Stop(stop)
    }
}
