use outside_traits::traits::{NoMemory, StoreFailed};
use thiserror::Error;

/// Why a pack was not formatted.
#[derive(Debug, Drop, Error)]
pub enum FormatFault {
    /// There was no memory. Nothing was written.
    #[error("there is no memory")]
    Memory,
    /// The image has `length` bytes, more than the pack.
    #[error("{length} bytes are too many")]
    TooLong {
        length: u64,
    },
    /// `found` data blocks are marked, more than the 126 that a table can list.
    #[error("{found} marked blocks are too many")]
    TooMany {
        found: u32,
    },
    /// The replacement with this index would be used, but is marked.
    #[error("replacement {0} is marked")]
    Spare(u8),
    /// All five copies of the table are marked.
    #[error("no copy is unmarked")]
    NoCopy,
    /// A block did not come back as it was written. `at` is the place of the first byte that differs. If the block was found marked
    /// when it was read back, it gave nothing; then `at` is 0, and `read` is the complement of what was written.
    #[error("byte {at} of block {block} was written as {wrote} and read as {read}")]
    Differs {
        block: u32,
        at: u16,
        wrote: u8,
        read: u8,
    },
    /// A call of the packs failed.
    #[error("the packs failed")]
    Store,
}

impl From<StoreFailed> for FormatFault {
    ghost use Rattle.std.specs.Prelude.{◌≡◌};
    ghost use Rattle.pack_format.specs.declared.fault.FormatFault.TheVariants.{Store};

    ghost from_gives = { λ _ e. e ≡ Store };

    fn from(_: StoreFailed) -> FormatFault {
        FormatFault::Store
    }
}

impl From<NoMemory> for FormatFault {
    ghost use Rattle.std.specs.Prelude.{◌≡◌};
    ghost use Rattle.pack_format.specs.declared.fault.FormatFault.TheVariants.{Memory};

    ghost from_gives = { λ _ e. e ≡ Memory };

    fn from(_: NoMemory) -> FormatFault {
        FormatFault::Memory
    }
}
