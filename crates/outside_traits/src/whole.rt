ghost use Rattle.std.specs.Prelude.{◌≡◌, ◌⊎◌, ◌+◌, ◌<◌, ◌≤◌, ◌^◌, IsTrue, [], ◌++◌, length, IfOk, IsErrOf};
ghost use Rattle.outside_traits.specs.Causes.{Rose};
ghost use Rattle.outside_traits.specs.Puts.{Puts};

use crate::traits::{Sink, SinkFailed, Source, SourceFailed};
use std::alloc::{AllocError, Global};
use thiserror::Error;

/// Writes all bytes. If a call of the sink fails, the sink has taken a front of them.
pub fn write_all<O: Sink>(out: &mut O, from: &[u8]) -> Result<(), SinkFailed>
    ensures { Puts O.tells O.taken O.faults out.old out.new result from.now }
{
    let mut done = 0;
    while done < from.len() {
        done += out.write(&from[done..])?;
    }
    Ok(())
}

/// Why a source was not read to its end.
#[derive(Clone, Copy, Debug, Error)]
pub enum ReadAllFault {
    /// There was no memory for its bytes.
    #[error("there is no memory")]
    Memory,
    /// A call of the source failed.
    #[error("the source failed")]
    Failed,
}

impl From<AllocError> for ReadAllFault {
    ghost use Rattle.std.specs.Prelude.{◌≡◌};
    ghost use Rattle.outside_traits.specs.declared.whole.ReadAllFault.TheVariants.{Memory};

    ghost from_gives = { λ _ e. e ≡ Memory };

    fn from(_: AllocError) -> ReadAllFault {
        ReadAllFault::Memory
    }
}

impl From<SourceFailed> for ReadAllFault {
    ghost use Rattle.std.specs.Prelude.{◌≡◌};
    ghost use Rattle.outside_traits.specs.declared.whole.ReadAllFault.TheVariants.{Failed};

    ghost from_gives = { λ _ e. e ≡ Failed };

    fn from(_: SourceFailed) -> ReadAllFault {
        ReadAllFault::Failed
    }
}

/// Reads a source to its end, or until it gave more bytes than a limit. At most one byte more than the limit is taken from the source.
pub fn read_all<S: Source>(
    alloc: Global,
    source: &mut S,
    limit: usize,
) -> Result<Vec<u8>, ReadAllFault>
    requires { limit < 2 ^ 40 }
    ensures never_again { IsTrue (S.tells source.new) → IsTrue (S.tells source.old) }
    ensures bytes { IfOk result (λ bytes. IsTrue (S.tells source.new) → S.left source.old ≡ bytes.items ++ S.left source.new) }
    ensures end { IfOk result (λ bytes. IsTrue (S.tells source.new) → (S.left source.new ≡ []) ⊎ (limit < length bytes.items)) }
    ensures bound { IfOk result (λ bytes. length bytes.items ≤ limit + 1) }
    ensures taken { IsTrue (S.tells source.new) → length (S.left source.old) ≤ length (S.left source.new) + limit + 1 }
    ensures later { S.faults source.old ≤ S.faults source.new }
    ensures failed { IsErrOf result ReadAllFault.Failed → Rose (S.faults source.old) (S.faults source.new) }
{
    let mut bytes = Vec::new(alloc);
    let mut piece = [0u8; 4096];
    while bytes.len() <= limit {
        let room = piece.len().min(limit + 1 - bytes.len());
        let count = source.read(&mut piece[..room])?;
        if count == 0 {
            return Ok(bytes);
        }
        bytes.extend_from_slice(&piece[..count])?;
    }
    Ok(bytes)
}
