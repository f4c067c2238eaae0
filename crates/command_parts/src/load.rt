ghost use Rattle.std.specs.Prelude.{◌≡◌, ◌+◌, ◌≤◌, IsTrue, [], length, IfOk, IfErr, IsErrOf};
ghost use Rattle.outside_traits.specs.Causes.{Rose};
ghost use Rattle.script_reader.specs.Grammar.{Spells, IsRefused};
ghost use Rattle.script_reader.specs.Stored.{lines_in};
ghost use Rattle.script_lines.specs.Words.{all_verbs};
ghost use Rattle.script_reader.specs.cached.Scripts.{Spells as CachedSpells, IsRefused as CachedRefused};
ghost use Rattle.command_parts.specs.Loading.{Means, MeansCached, RefusesAll, longest};

use outside_traits::traits::Source;
use outside_traits::whole::{ReadAllFault, read_all};
use script_reader::cached::{CachedRefusal, CachedScript, cached_grammar_law, read_cached};
use script_reader::{ReadFault, Script, ScriptKind, grammar_law, read_script};
use std::alloc::Global;
use thiserror::Error;

/// The most bytes of a script: 16 MiB.
const LONGEST: usize = 16_777_216;

/// Why a script was not loaded.
#[derive(Clone, Copy, Debug, Error)]
pub enum LoadFault {
    /// There was no memory.
    #[error("there is no memory")]
    Memory,
    /// A call of the source failed.
    #[error("the source failed")]
    Failed,
    /// The first faulty line, and its fault.
    #[error("line {line} is refused")]
    Refused { line: u64, kind: ScriptKind },
}

impl From<ReadAllFault> for LoadFault {
    ghost use Rattle.command_parts.specs.Loading.{from_read_all};
    ghost use Rattle.std.specs.Prelude.{◌≡◌};

    ghost from_gives = { λ f e. e ≡ from_read_all f };

    fn from(fault: ReadAllFault) -> LoadFault {
        match fault {
            ReadAllFault::Memory => LoadFault::Memory,
            ReadAllFault::Failed => LoadFault::Failed,
        }
    }
}

impl From<ReadFault> for LoadFault {
    ghost use Rattle.command_parts.specs.Loading.{from_read};
    ghost use Rattle.std.specs.Prelude.{◌≡◌};

    ghost from_gives = { λ f e. e ≡ from_read f };

    fn from(fault: ReadFault) -> LoadFault {
        match fault {
            ReadFault::Memory => LoadFault::Memory,
            ReadFault::Refused { line, kind } => LoadFault::Refused { line, kind },
        }
    }
}

impl From<CachedRefusal> for LoadFault {
    ghost use Rattle.command_parts.specs.Loading.{from_cached};
    ghost use Rattle.std.specs.Prelude.{◌≡◌};

    ghost from_gives = { λ f e. e ≡ from_cached f };

    fn from(fault: CachedRefusal) -> LoadFault {
        match fault {
            CachedRefusal::Memory => LoadFault::Memory,
            CachedRefusal::Refused { line, kind } => LoadFault::Refused {
                line,
                kind: kind.script_kind(),
            },
        }
    }
}

/// Reads the script that a source gives, to its end or to 16 MiB and one byte. Ok comes only if the source's bytes spell a script, and
/// `Refused` only if they spell none; it names the first fault. `Failed` comes only if the source's count of faults rose in this call,
/// and `Memory` only if there was no memory.
pub fn load<S: Source>(alloc: Global, source: &mut S) -> Result<Script, LoadFault>
    ensures never_again { IsTrue (S.tells source.new) → IsTrue (S.tells source.old) }
    ensures spells { IfOk result (λ script. Spells all_verbs script.text (lines_in script) script.count) }
    ensures ok { IfOk result (λ script. IsTrue (S.tells source.new) → Spells all_verbs (S.left source.old) (lines_in script) script.count) }
    ensures end { IfOk result (λ script. IsTrue (S.tells source.new) → S.left source.new ≡ []) }
    ensures taken { IsTrue (S.tells source.new) → length (S.left source.old) ≤ length (S.left source.new) + longest + 1 }
    ensures refused { IfErr result (λ fault. IsTrue (S.tells source.new) → RefusesAll Means (IsRefused all_verbs) fault (S.left source.old)) }
    ensures later { S.faults source.old ≤ S.faults source.new }
    ensures failed { IsErrOf result LoadFault.Failed → Rose (S.faults source.old) (S.faults source.new) }
{
    grammar_law();
    let bytes = read_all(alloc, source, LONGEST)?;
    let script = read_script(alloc, bytes)?;
    Ok(script)
}

/// Reads the script of a cache that a source gives, as `load` does, but by the grammar of these scripts.
pub fn load_cached<S: Source>(alloc: Global, source: &mut S) -> Result<CachedScript, LoadFault>
    ensures never_again { IsTrue (S.tells source.new) → IsTrue (S.tells source.old) }
    ensures ok { IfOk result (λ script. IsTrue (S.tells source.new) → CachedSpells (S.left source.old) script.lines script.count) }
    ensures end { IfOk result (λ script. IsTrue (S.tells source.new) → S.left source.new ≡ []) }
    ensures taken { IsTrue (S.tells source.new) → length (S.left source.old) ≤ length (S.left source.new) + longest + 1 }
    ensures refused { IfErr result (λ fault. IsTrue (S.tells source.new) → RefusesAll MeansCached CachedRefused fault (S.left source.old)) }
    ensures later { S.faults source.old ≤ S.faults source.new }
    ensures failed { IsErrOf result LoadFault.Failed → Rose (S.faults source.old) (S.faults source.new) }
{
    cached_grammar_law();
    let bytes = read_all(alloc, source, LONGEST)?;
    let script = read_cached(alloc, bytes)?;
    Ok(script)
}
