use bad144_table::InsertFault;
use outside_traits::traits::{SinkFailed, StoreFailed};
use thiserror::Error;

/// Why a call of the tool did not do what it was asked.
#[derive(Debug, Drop, Error)]
pub enum ToolFault {
    /// No copy of the table is both unmarked and the text of a table.
    #[error("no table")]
    NoTable,
    /// The block is at or above the data limit.
    #[error("reserved")]
    Reserved,
    /// The block is listed already, at this index.
    #[error("listed at {0}")]
    Listed(u8),
    /// The table has 126 entries.
    #[error("full")]
    Full,
    /// The replacement with this index would be written, but is marked.
    #[error("replacement {0} is marked")]
    Spare(u8),
    /// The image has `length` bytes, more than the pack.
    #[error("{length} bytes are too many")]
    TooLong { length: u64 },
    /// A call of the packs failed.
    #[error("the packs failed")]
    Store,
    /// A call of the sink failed.
    #[error("the sink failed")]
    Sink,
}

impl From<StoreFailed> for ToolFault {
    ghost use Rattle.std.specs.Prelude.{◌≡◌};
    ghost use Rattle.bad144_tool.specs.declared.fault.ToolFault.TheVariants.{Store};

    ghost from_gives = { λ _ e. e ≡ Store };

    fn from(_: StoreFailed) -> ToolFault {
        ToolFault::Store
    }
}

impl From<SinkFailed> for ToolFault {
    ghost use Rattle.std.specs.Prelude.{◌≡◌};
    ghost use Rattle.bad144_tool.specs.declared.fault.ToolFault.TheVariants.{Sink};

    ghost from_gives = { λ _ e. e ≡ Sink };

    fn from(_: SinkFailed) -> ToolFault {
        ToolFault::Sink
    }
}

impl From<InsertFault> for ToolFault {
    ghost use Rattle.std.specs.Prelude.{◌≡◌};
    ghost use Rattle.bad144_tool.specs.Faults.{from_insert};

    ghost from_gives = { λ f e. e ≡ from_insert f };

    fn from(fault: InsertFault) -> ToolFault {
        match fault {
            InsertFault::Reserved => ToolFault::Reserved,
            InsertFault::Listed(i) => ToolFault::Listed(i),
            InsertFault::Full => ToolFault::Full,
        }
    }
}
