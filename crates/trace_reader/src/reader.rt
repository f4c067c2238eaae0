ghost use Rattle.std.specs.Prelude.{◌≡◌, ◌<◌, ◌-◌, ℕ, ◌⊎◌, List, Ok, IfOk, IfErr};
ghost use Rattle.script_reader.specs.Stored.{Stored};
ghost use Rattle.trace_reader.specs.declared.fault.TraceKind.{TraceKind};
ghost use Rattle.trace_reader.specs.declared.line.TraceLine.{TraceLine};
ghost use Rattle.trace_reader.specs.Grammar.{Spells, Refuses, IsRefused};
ghost use Rattle.trace_reader.specs.RoundTrip.{ReadsAsTold, WritesAsRead, ReadsOfRun};

use crate::fault::TraceFault;
use crate::left::TraceLines;
use crate::line::TraceLine;
use script_reader::Script;
use std::alloc::Global;

/// Reads a trace from its bytes, beside the script of its run. Each line ends with LF, which may be missing at the very end. The
/// trace is refused exactly if the bytes spell no trace of the script. The refusal has the first fault: line 0 and `Long` for more
/// than 2^28 bytes, and otherwise the first faulty line and its kind. If the script has no line at all, no line is refused as
/// `Script`. `Memory` says only that there was no memory. The call takes time in proportion to the bytes.
pub fn read_trace(
    alloc: Global,
    bytes: &[u8],
    script: &Script,
) -> Result<Vec<TraceLine>, TraceFault>
    ensures ok { IfOk result (λ lines. Spells script.now bytes.now lines.items) }
    ensures err { IfErr result (λ fault. Refuses script.now bytes.now fault) }
{
    let mut left = TraceLines::new(alloc, bytes, script)?;
    let mut lines = Vec::new(alloc);
    'lines: loop {
        match left.next()? {
            Some(found) => lines.push(found.line)?,
            None => return Ok(lines),
        }
    }
}

/// The law of traces and their texts, both ways: the text of the moments of a run is read as what those moments tell; and what is
/// read belongs to a run, and is written again as the bytes from which it was read, with LF after the last line.
pub fn round_trip_law()
    ensures told { ReadsAsTold }
    ensures written { WritesAsRead }
    ensures of_run { ReadsOfRun }
{}

/// The law of the grammar: beside a script, bytes spell one list of lines or have one first fault; never both, and never neither.
pub fn grammar_law()
    ensures one_trace { (script : Stored) (bytes : List ℕ) (lines others : List TraceLine) → Spells script bytes lines → Spells script bytes others → lines ≡ others }
    ensures no_fault { (script : Stored) (bytes : List ℕ) (lines : List TraceLine) → Spells script bytes lines → (number : ℕ) (kind : TraceKind) → ¬ IsRefused script bytes number kind }
    ensures one_fault { (script : Stored) (bytes : List ℕ) (number other : ℕ) (kind kind_other : TraceKind) → IsRefused script bytes number kind → IsRefused script bytes other kind_other → (number ≡ other) × (kind ≡ kind_other) }
    ensures some { (script : Stored) (bytes : List ℕ) → ((lines : List TraceLine) × Spells script bytes lines) ⊎ ((number : ℕ) × (kind : TraceKind) × IsRefused script bytes number kind) }
{}
