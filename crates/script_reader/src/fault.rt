use script_lines::ScriptKind;
use std::alloc::AllocFailed;
use thiserror::Error;

/// Why a script was not read.
#[derive(Clone, Copy, Debug, PartialEq, Eq, Error)]
pub enum ReadFault {
    /// There was no memory.
    #[error("there is no memory")]
    Memory,
    /// The first faulty line, counted from 1, and its fault. The line is 0 if the script is too long.
    #[error("line {line} is refused")]
    Refused { line: u64, kind: ScriptKind },
}

impl<T: Drop> From<AllocFailed<T>> for ReadFault {
    ghost use Rattle.std.specs.Prelude.{◌≡◌};
    ghost use Rattle.script_reader.specs.declared.fault.ReadFault.TheVariants.{Memory};

    ghost from_gives = { λ _ e. e ≡ Memory };

    fn from(_: AllocFailed<T>) -> ReadFault {
        ReadFault::Memory
    }
}
