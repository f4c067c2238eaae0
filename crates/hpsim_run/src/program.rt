ghost use Rattle.std.specs.Prelude.{◌≡◌, None, IfSome};
ghost use Rattle.command_parts.specs.Outside.{outside};
ghost use Rattle.command_parts.specs.Statuses.{status_code};
ghost use Rattle.command_parts.specs.declared.status.Status.TheVariants.{OutOfMemory};
ghost use Rattle.hpsim_run.specs.Ends.{Runs};
ghost use Rattle.pack_commands.specs.Leaves.{LeavesAlone};
ghost use Rattle.pack_commands.specs.Words.{command_of as the_command};

use crate::{Status, run};
use outside_traits::traits::{Packs, Sink, Source};
use std::alloc::Global;

/// Runs the command that the words name and answers its status. All that `crate::run` promises of the command holds. If there was no
/// memory for the words, the status is 9 and nothing is done.
pub fn end_status<S: Source, P: Packs, O: Sink, T: Sink>(
    alloc: Global,
    words: Option<&[String]>,
    script: &mut S,
    packs: &mut P,
    out: &mut O,
    trace: &mut T,
) -> u8
    ensures runs { IfSome words.entry (λ list. Runs (the_command list.now) result
        (outside S.tells S.left S.faults P.tells P.held P.faults P.failed_at O.tells O.taken O.faults T.tells T.taken T.faults script.old packs.old out.old trace.old)
        (outside S.tells S.left S.faults P.tells P.held P.faults P.failed_at O.tells O.taken O.faults T.tells T.taken T.faults script.new packs.new out.new trace.new)) }
    ensures leaves { IfSome words.entry (λ list. LeavesAlone (the_command list.now) result script.old script.new packs.old packs.new out.old out.new trace.old trace.new) }
    // Without words nothing is done.
    ensures no_words { words.entry ≡ None → result ≡ status_code OutOfMemory }
    ensures unread { words.entry ≡ None → script.new ≡ script.old }
    ensures unwritten { words.entry ≡ None → packs.new ≡ packs.old }
    ensures unsaid { words.entry ≡ None → out.new ≡ out.old }
    ensures untraced { words.entry ≡ None → trace.new ≡ trace.old }
{
    match words {
        Some(words) => run(alloc, words, script, packs, out, trace),
        None => Status::OutOfMemory.code(),
    }
}
