// Prints a picture or a line, and gives the status that follows.
ghost use Rattle.std.specs.Prelude.{◌≡◌, ◌⊎◌, ◌++◌, IsTrue};
ghost use Rattle.outside_traits.specs.Causes.{Rose};
ghost use Rattle.outside_traits.specs.Puts.{TakesFront};
ghost use Rattle.hpview_run.specs.declared.status.Status.TheVariants.{Done, Usage, SinkFailed};
ghost use Rattle.hpview_run.specs.Drawing.{Told, TellsFault};
ghost use Rattle.hpview_run.specs.Statuses.{status_of};
ghost use Rattle.hpview_run.specs.Words.{trace_refusal, usage_text, window_refusal};

use crate::load::ViewFault;
use crate::status::Status;
use crate::text::{trace_refusal, usage, window_refusal};
use mass_text::LineBuf;
use outside_traits::traits::Sink;
use outside_traits::whole::write_all;
use script_lines::refusal;

/// Prints a picture.
pub(crate) fn put_picture<O: Sink>(picture: &[u8], out: &mut O) -> Status
    ensures status { (result ≡ Done) ⊎ (result ≡ SinkFailed) }
    ensures done { result ≡ Done → IsTrue (O.tells out.new) → O.taken out.new ≡ O.taken out.old ++ picture.now }
    ensures stopped { result ≡ SinkFailed → IsTrue (O.tells out.new) → TakesFront (O.taken out.old) (O.taken out.new) picture.now }
    ensures sink { result ≡ SinkFailed → Rose (O.faults out.old) (O.faults out.new) }
{
    match write_all(out, picture) {
        Ok(()) => Status::Done,
        Err(_) => Status::SinkFailed,
    }
}

/// Prints a line, as far as the sink takes it.
fn put_line<O: Sink>(line: &LineBuf, out: &mut O)
    ensures { IsTrue (O.tells out.new) → Told (O.taken out.old) (O.taken out.new) line.now (O.faults out.old) (O.faults out.new) }
{
    let _ = write_all(out, line.as_bytes());
}

/// Prints the usage.
pub(crate) fn put_usage<O: Sink>(out: &mut O) -> Status
    ensures status { result ≡ Usage }
    ensures told { IsTrue (O.tells out.new) → Told (O.taken out.old) (O.taken out.new) usage_text (O.faults out.old) (O.faults out.new) }
{
    put_line(&usage(), out);
    Status::Usage
}

/// Prints what is wrong with the script, the trace or the window. Prints nothing if the fault is another one.
pub(crate) fn put_fault<O: Sink>(fault: ViewFault, out: &mut O) -> Status
    ensures status { result ≡ status_of fault }
    ensures told { IsTrue (O.tells out.new) → TellsFault fault (O.taken out.old) (O.taken out.new) (O.faults out.old) (O.faults out.new) }
    ensures silent { (fault ≡ ViewFault.Memory) ⊎ (fault ≡ ViewFault.Failed) → out.new ≡ out.old }
{
    match fault {
        ViewFault::Memory => Status::OutOfMemory,
        ViewFault::Failed => Status::SourceFailed,
        ViewFault::Script { line, kind } => {
            put_line(&refusal(line, kind), out);
            Status::Refused
        }
        ViewFault::Trace { line, kind } => {
            put_line(&trace_refusal(line, kind), out);
            Status::Refused
        }
        ViewFault::Window { events } => {
            put_line(&window_refusal(events), out);
            Status::NoEvent
        }
    }
}
