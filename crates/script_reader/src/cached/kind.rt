ghost use Rattle.std.specs.Prelude.{◌≡◌};
ghost use Rattle.script_reader.specs.cached.Kinds.{kind_of, IsCachedKind};

use script_lines::ScriptKind;
use std::alloc::AllocFailed;
use thiserror::Error;

/// What is wrong with a line.
#[derive(Clone, Copy, Debug)]
pub enum CachedKind {
    /// A word is not one that may stand there, a field is missing, or one is left over.
    Word,
    /// A field is no number, or its number is out of range.
    Number,
    /// The unit was not declared.
    UnitUnknown,
    /// The unit was declared before.
    UnitTwice,
    /// The count of blocks is not 1 to 127.
    Count,
    /// The byte of a write is not two hexadecimal digits.
    Data,
    /// A unit is declared behind a line with another word.
    LateUnit,
    /// Line number 1,000,001 or request number 65,537.
    TooMany,
    /// The line has more than 140,000 bytes.
    LineLong,
    /// The script has more than 16 MiB.
    ScriptLong,
}

impl CachedKind {
    /// The same of any script.
    pub fn script_kind(self) -> ScriptKind
        ensures { result ≡ kind_of self }
    {
        match self {
            CachedKind::Word => ScriptKind::Word,
            CachedKind::Number => ScriptKind::Number,
            CachedKind::UnitUnknown => ScriptKind::UnitUnknown,
            CachedKind::UnitTwice => ScriptKind::UnitTwice,
            CachedKind::Count => ScriptKind::Count,
            CachedKind::Data => ScriptKind::Data,
            CachedKind::LateUnit => ScriptKind::LateUnit,
            CachedKind::TooMany => ScriptKind::TooMany,
            CachedKind::LineLong => ScriptKind::LineLong,
            CachedKind::ScriptLong => ScriptKind::ScriptLong,
        }
    }

    /// What is wrong, of the kinds that come here.
    pub(crate) fn named(kind: ScriptKind) -> CachedKind
        requires { IsCachedKind kind }
        ensures { kind_of result ≡ kind }
    {
        match kind {
            ScriptKind::Word => CachedKind::Word,
            ScriptKind::Number => CachedKind::Number,
            ScriptKind::UnitUnknown => CachedKind::UnitUnknown,
            ScriptKind::UnitTwice => CachedKind::UnitTwice,
            ScriptKind::Count => CachedKind::Count,
            ScriptKind::Data => CachedKind::Data,
            ScriptKind::LateUnit => CachedKind::LateUnit,
            ScriptKind::TooMany => CachedKind::TooMany,
            ScriptKind::LineLong => CachedKind::LineLong,
            ScriptKind::ScriptLong => CachedKind::ScriptLong,
            ScriptKind::IdTwice | ScriptKind::Bits => unreachable!(),
        }
    }
}

/// Why a script was not read.
#[derive(Clone, Copy, Debug, Error)]
pub enum CachedRefusal {
    /// There was no memory.
    #[error("there is no memory")]
    Memory,
    /// The first faulty line, counted from 1, and its fault; the line is 0 where the script is too long.
    #[error("line {line} is refused")]
    Refused { line: u64, kind: CachedKind },
}

impl<T: Drop> From<AllocFailed<T>> for CachedRefusal {
    ghost use Rattle.std.specs.Prelude.{◌≡◌};
    ghost use Rattle.script_reader.specs.declared.cached.kind.CachedRefusal.TheVariants.{Memory};

    ghost from_gives = { λ _ e. e ≡ Memory };

    fn from(_: AllocFailed<T>) -> CachedRefusal {
        CachedRefusal::Memory
    }
}
