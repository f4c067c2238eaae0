// Reads the script and the trace from outside.
ghost use Rattle.std.specs.Prelude.{◌≡◌, ◌⊎◌, ℕ, ◌≤◌, Bool, IsTrue, List, IfOk, IfErr, IsErrOf};
ghost use Rattle.outside_traits.specs.Causes.{Rose};
ghost use Rattle.hpview_run.specs.declared.words.Command.{Command};
ghost use Rattle.hpview_run.specs.Loading.{IsRead, Loads, Refuses};

use crate::load::{Loaded, ViewFault};
use outside_traits::traits::Source;
use outside_traits::whole::read_all;
use script_reader::read_script;
use std::alloc::Global;

/// The most bytes of a script: 16 MiB.
const LONGEST_SCRIPT: usize = 16_777_216;

/// The most bytes of a trace: 256 MiB.
const LONGEST_TRACE: usize = 268_435_456;

/// Reads the script that a source gives, up to its end or up to 16 MiB and one byte.
pub(crate) fn load_script<S: Source>(alloc: Global, source: &mut S) -> Result<Loaded, ViewFault>
    ensures never_again { IsTrue (S.tells source.new) → IsTrue (S.tells source.old) }
    ensures loads { IfOk result (λ loaded. Loads loaded.text.items loaded.script) }
    ensures read { IfOk result (λ loaded. IsTrue (S.tells source.new) → S.left source.old ≡ loaded.text.items) }
    ensures refused { IfErr result (λ fault. (command : Command) (tells : Bool) (trace : List ℕ) → IsTrue (S.tells source.new) → Refuses command tells fault (S.left source.old) trace) }
    ensures later { S.faults source.old ≤ S.faults source.new }
    ensures failed { IsErrOf result ViewFault.Failed → Rose (S.faults source.old) (S.faults source.new) }
{
    let text = read_all(alloc, source, LONGEST_SCRIPT)?;
    let copy = Vec::from_slice(alloc, text.as_slice())?;
    match read_script(alloc, copy) {
        Ok(script) => Ok(Loaded { script, text }),
        Err(fault) => Err(ViewFault::from(fault)),
    }
}

/// Reads the trace that a source gives, up to its end or up to 256 MiB and one byte.
pub(crate) fn load_trace<T: Source>(alloc: Global, source: &mut T) -> Result<Vec<u8>, ViewFault>
    ensures never_again { IsTrue (T.tells source.new) → IsTrue (T.tells source.old) }
    ensures read { IfOk result (λ bytes. IsTrue (T.tells source.new) → IsRead 268435456 (T.left source.old) bytes.items) }
    ensures none { IfErr result (λ fault. (fault ≡ ViewFault.Memory) ⊎ (fault ≡ ViewFault.Failed)) }
    ensures later { T.faults source.old ≤ T.faults source.new }
    ensures failed { IsErrOf result ViewFault.Failed → Rose (T.faults source.old) (T.faults source.new) }
{
    match read_all(alloc, source, LONGEST_TRACE) {
        Ok(bytes) => Ok(bytes),
        Err(fault) => Err(ViewFault::from(fault)),
    }
}
