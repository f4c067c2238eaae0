ghost use Rattle.std.specs.Prelude.{◌≡◌, ◌⊎◌, ◌↔◌, ℕ, IsTrue, List, IfOk, IfErr, IsErrOf, None, Some};
ghost use Rattle.outside_traits.specs.Causes.{Rose};
ghost use Rattle.hpview_run.specs.declared.words.Command.{Command};
ghost use Rattle.hpview_run.specs.declared.status.Status.TheVariants.{Done, Usage, Refused, SourceFailed, SinkFailed, OutOfMemory, NoEvent};
ghost use Rattle.hpview_run.specs.Drawing.{Draws, HasDrawn, HasStopped, TellsNone, TellsRefusal, Told};
ghost use Rattle.hpview_run.specs.Loading.{Loads, Refuses};
ghost use Rattle.hpview_run.specs.Inputs.{AreRight, AreFaulty, HaveNone, NoScriptFault, NoTraceFault, OneTrace};
ghost use Rattle.run_view.specs.Legal.{ReadsLegal};
ghost use Rattle.hpview_run.specs.Statuses.{status_code, IsViewCode};
ghost use Rattle.hpview_run.specs.Words.{command_of as the_command, usage_text};

use crate::draw::draw_run;
use crate::load::{Loaded, ViewFault};
use crate::put::{put_fault, put_picture, put_usage};
use crate::sources::{load_script, load_trace};
use crate::status::Status;
use crate::words::{Command, command_of};
use outside_traits::traits::{Sink, Source};
use run_view::legal_law;
use std::alloc::Global;

/// Draws the run of a script and of the trace that a source gives.
fn drawn_beside<T: Source>(
    alloc: Global,
    command: Command,
    loaded: &Loaded,
    trace: &mut T,
) -> Result<Vec<u8>, ViewFault>
    requires { Loads loaded.now.text.items loaded.now.script }
    ensures ok { IfOk result (λ picture. IsTrue (T.tells trace.new) → Draws command loaded.now.text.items (T.left trace.old) picture.items) }
    ensures refused { IfErr result (λ fault. Refuses command (T.tells trace.new) fault loaded.now.text.items (T.left trace.old)) }
    ensures failed { IsErrOf result ViewFault.Failed → Rose (T.faults trace.old) (T.faults trace.new) }
{
    match load_trace(alloc, trace) {
        Ok(bytes) => draw_run(alloc, command, loaded, bytes.as_slice()),
        Err(fault) => Err(fault),
    }
}

/// Draws the run of the script and the trace that two sources give.
fn drawn<S: Source, T: Source>(
    alloc: Global,
    command: Command,
    script: &mut S,
    trace: &mut T,
) -> Result<Vec<u8>, ViewFault>
    ensures ok { IfOk result (λ picture. IsTrue (S.tells script.new) → IsTrue (T.tells trace.new) → Draws command (S.left script.old) (T.left trace.old) picture.items) }
    ensures refused { IfErr result (λ fault. IsTrue (S.tells script.new) → Refuses command (T.tells trace.new) fault (S.left script.old) (T.left trace.old)) }
    ensures failed { IsErrOf result ViewFault.Failed → Rose (S.faults script.old) (S.faults script.new) ⊎ Rose (T.faults trace.old) (T.faults trace.new) }
{
    match load_script(alloc, script) {
        Ok(loaded) => drawn_beside(alloc, command, &loaded, trace),
        Err(fault) => Err(fault),
    }
}

/// Draws the run of the script and the trace that two sources give, and prints what is drawn on `out`.
fn run_command<S: Source, T: Source, O: Sink>(
    alloc: Global,
    command: Command,
    script: &mut S,
    trace: &mut T,
    out: &mut O,
) -> Status
    ensures no_usage { ¬ (result ≡ Usage) }
    ensures done { result ≡ Done → HasDrawn command (S.tells script.new) (S.left script.old) (T.tells trace.new) (T.left trace.old) (O.tells out.new) (O.taken out.old) (O.taken out.new) }
    ensures stopped { result ≡ SinkFailed → HasStopped command (S.tells script.new) (S.left script.old) (T.tells trace.new) (T.left trace.old) (O.tells out.new) (O.taken out.old) (O.taken out.new) }
    ensures refused { result ≡ Refused → TellsRefusal (S.tells script.new) (S.left script.old) (T.tells trace.new) (T.left trace.old)
        (O.tells out.new) (O.taken out.old) (O.taken out.new) (O.faults out.old) (O.faults out.new) }
    ensures none { result ≡ NoEvent → TellsNone command (S.tells script.new) (S.left script.old) (T.tells trace.new) (T.left trace.old)
        (O.tells out.new) (O.taken out.old) (O.taken out.new) (O.faults out.old) (O.faults out.new) }
    ensures source { result ≡ SourceFailed → Rose (S.faults script.old) (S.faults script.new) ⊎ Rose (T.faults trace.old) (T.faults trace.new) }
    ensures sink { result ≡ SinkFailed → Rose (O.faults out.old) (O.faults out.new) }
    ensures silent { (result ≡ SourceFailed) ⊎ (result ≡ OutOfMemory) → out.new ≡ out.old }
{
    match drawn(alloc, command, script, trace) {
        Ok(picture) => put_picture(picture.as_slice(), out),
        Err(fault) => put_fault(fault, out),
    }
}

/// The law of right inputs: what spells a script, or a trace beside a script, has no fault, and spells one trace; and the trace of a
/// legal run spells one.
fn inputs_law()
    ensures script { NoScriptFault }
    ensures trace { NoTraceFault }
    ensures one { OneTrace }
    ensures legal { ReadsLegal }
{
    script_reader::grammar_law();
    trace_reader::grammar_law();
    legal_law();
}

/// Runs the command that the words name, and answers the code of its `Status`. The source `script` gives the text of a script, the
/// source `trace` gives the trace of its run, and what is drawn or printed goes to `out`.
///
/// `svg` and `text` draw the run, `tsv` prints a line for each request, and `json` prints trace events for a viewer. Each of them
/// covers all events of the run. If two numbers follow, it covers the events from the first number to the second, counted from 1.
/// `summary` prints a line for each drive and a line for all drives, always of the whole run.
///
/// | code | status | comes | printed on `out` |
/// |---|---|---|---|
/// | 0 | Done | if the run is drawn | the picture |
/// | 2 | Usage | exactly if the words are no command | the usage |
/// | 3 | Refused | only if the script's bytes are no script, or the trace's bytes are no trace of the script, and so not that of a legal run; then never 0 | `refused line L KIND`, or `refused trace line L KIND` |
/// | 4 | SourceFailed | only if a source's count of faults rose | nothing |
/// | 5 | SinkFailed | only if the count of faults of `out` rose | a front of the picture |
/// | 9 | OutOfMemory | if there was no memory | nothing |
/// | 10 | NoEvent | only if the run has none of the events that the words name; then never 0 | `refused window E`, of a run with E events |
pub fn view<S: Source, T: Source, O: Sink>(
    alloc: Global,
    words: &[String],
    script: &mut S,
    trace: &mut T,
    out: &mut O,
) -> u8
    ensures usage { (result ≡ status_code Usage) ↔ (the_command words.now ≡ None) }
    ensures usage_told { result ≡ status_code Usage → IsTrue (O.tells out.new) → Told (O.taken out.old) (O.taken out.new) usage_text (O.faults out.old) (O.faults out.new) }
    ensures statuses { IsViewCode result }
    ensures done { (command : Command) → the_command words.now ≡ Some command → result ≡ status_code Done →
        HasDrawn command (S.tells script.new) (S.left script.old) (T.tells trace.new) (T.left trace.old) (O.tells out.new) (O.taken out.old) (O.taken out.new) }
    ensures stopped { (command : Command) → the_command words.now ≡ Some command → result ≡ status_code SinkFailed →
        HasStopped command (S.tells script.new) (S.left script.old) (T.tells trace.new) (T.left trace.old) (O.tells out.new) (O.taken out.old) (O.taken out.new) }
    ensures refused { result ≡ status_code Refused → TellsRefusal (S.tells script.new) (S.left script.old) (T.tells trace.new) (T.left trace.old)
        (O.tells out.new) (O.taken out.old) (O.taken out.new) (O.faults out.old) (O.faults out.new) }
    ensures right { IsTrue (S.tells script.new) → IsTrue (T.tells trace.new) → AreRight (S.left script.old) (T.left trace.old) → ¬ (result ≡ status_code Refused) }
    ensures faulty { (command : Command) → the_command words.now ≡ Some command → IsTrue (S.tells script.new) → IsTrue (T.tells trace.new) →
        AreFaulty (S.left script.old) (T.left trace.old) ⊎ HaveNone command (S.left script.old) (T.left trace.old) → ¬ (result ≡ status_code Done) }
    ensures none { (command : Command) → the_command words.now ≡ Some command → result ≡ status_code NoEvent → TellsNone command (S.tells script.new)
        (S.left script.old) (T.tells trace.new) (T.left trace.old) (O.tells out.new) (O.taken out.old) (O.taken out.new) (O.faults out.old) (O.faults out.new) }
    ensures source { result ≡ status_code SourceFailed → Rose (S.faults script.old) (S.faults script.new) ⊎ Rose (T.faults trace.old) (T.faults trace.new) }
    ensures sink { result ≡ status_code SinkFailed → Rose (O.faults out.old) (O.faults out.new) }
    ensures silent { (result ≡ status_code SourceFailed) ⊎ (result ≡ status_code OutOfMemory) → out.new ≡ out.old }
{
    inputs_law();
    match command_of(words) {
        None => put_usage(out).code(),
        Some(command) => run_command(alloc, command, script, trace, out).code(),
    }
}
