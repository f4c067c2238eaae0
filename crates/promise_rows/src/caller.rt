//! A caller of the program that knows only the contract of `run`. From these clauses alone it shows, section by section, what users are
//! told. So its proof fails if a clause of `run` is lost or becomes weaker.

ghost use Rattle.std.specs.Prelude.{◌≡◌, ◌⊎◌, ℕ, Some};
ghost use Rattle.command_parts.specs.Outside.{outside};
ghost use Rattle.pack_commands.specs.Words.{command_of};
ghost use Rattle.pack_commands.specs.declared.words.Command.TheVariants.{Play, Cached, Exercise};
ghost use Rattle.promise_rows.specs.Caller.{AllTell, KeepsTheHeadline, KeepsWhatWasAnswered, KeepsRefusals, KeepsCauses, KeepsPacksTables, KeepsPartitions, KeepsTheCache, KeepsTheExercise};

use bad144_tool::{add_law, mark_law};
use hpsim_run::run;
use outside_traits::traits::{Packs, Sink, Source};
use std::alloc::Global;

/// Runs the command that the words name, over objects that may tell what they hold, and answers its status.
pub fn caller<S: Source, P: Packs, O: Sink, T: Sink>(
    alloc: Global,
    words: &[String],
    script: &mut S,
    packs: &mut P,
    out: &mut O,
    trace: &mut T,
) -> u8
    ensures headline { command_of words.now ≡ Some Play → result ≡ 0 → AllTell (outside S.tells S.left S.faults P.tells P.held P.faults P.failed_at O.tells O.taken O.faults T.tells T.taken T.faults script.new packs.new out.new trace.new) → KeepsTheHeadline (outside S.tells S.left S.faults P.tells P.held P.faults P.failed_at O.tells O.taken O.faults T.tells T.taken T.faults script.old packs.old out.old trace.old) (outside S.tells S.left S.faults P.tells P.held P.faults P.failed_at O.tells O.taken O.faults T.tells T.taken T.faults script.new packs.new out.new trace.new) }
    ensures stopped { command_of words.now ≡ Some Play → (result ≡ 5) ⊎ (result ≡ 6) → AllTell (outside S.tells S.left S.faults P.tells P.held P.faults P.failed_at O.tells O.taken O.faults T.tells T.taken T.faults script.new packs.new out.new trace.new) → (P.held packs.new ≡ P.held packs.old) ⊎ KeepsWhatWasAnswered (outside S.tells S.left S.faults P.tells P.held P.faults P.failed_at O.tells O.taken O.faults T.tells T.taken T.faults script.old packs.old out.old trace.old) (outside S.tells S.left S.faults P.tells P.held P.faults P.failed_at O.tells O.taken O.faults T.tells T.taken T.faults script.new packs.new out.new trace.new) }
    ensures refusals { command_of words.now ≡ Some Play → AllTell (outside S.tells S.left S.faults P.tells P.held P.faults P.failed_at O.tells O.taken O.faults T.tells T.taken T.faults script.new packs.new out.new trace.new) → KeepsRefusals result (outside S.tells S.left S.faults P.tells P.held P.faults P.failed_at O.tells O.taken O.faults T.tells T.taken T.faults script.old packs.old out.old trace.old) (outside S.tells S.left S.faults P.tells P.held P.faults P.failed_at O.tells O.taken O.faults T.tells T.taken T.faults script.new packs.new out.new trace.new) }
    ensures causes { KeepsCauses (command_of words.now) result (outside S.tells S.left S.faults P.tells P.held P.faults P.failed_at O.tells O.taken O.faults T.tells T.taken T.faults script.old packs.old out.old trace.old) (outside S.tells S.left S.faults P.tells P.held P.faults P.failed_at O.tells O.taken O.faults T.tells T.taken T.faults script.new packs.new out.new trace.new) }
    ensures tables { AllTell (outside S.tells S.left S.faults P.tells P.held P.faults P.failed_at O.tells O.taken O.faults T.tells T.taken T.faults script.new packs.new out.new trace.new) → KeepsPacksTables (command_of words.now) result (outside S.tells S.left S.faults P.tells P.held P.faults P.failed_at O.tells O.taken O.faults T.tells T.taken T.faults script.old packs.old out.old trace.old) (outside S.tells S.left S.faults P.tells P.held P.faults P.failed_at O.tells O.taken O.faults T.tells T.taken T.faults script.new packs.new out.new trace.new) }
    ensures partitions { AllTell (outside S.tells S.left S.faults P.tells P.held P.faults P.failed_at O.tells O.taken O.faults T.tells T.taken T.faults script.new packs.new out.new trace.new) → KeepsPartitions (command_of words.now) result (outside S.tells S.left S.faults P.tells P.held P.faults P.failed_at O.tells O.taken O.faults T.tells T.taken T.faults script.old packs.old out.old trace.old) (outside S.tells S.left S.faults P.tells P.held P.faults P.failed_at O.tells O.taken O.faults T.tells T.taken T.faults script.new packs.new out.new trace.new) }
    ensures cached { (capacity : ℕ) → command_of words.now ≡ Some (Cached capacity) → result ≡ 0 → AllTell (outside S.tells S.left S.faults P.tells P.held P.faults P.failed_at O.tells O.taken O.faults T.tells T.taken T.faults script.new packs.new out.new trace.new) → KeepsTheCache capacity (outside S.tells S.left S.faults P.tells P.held P.faults P.failed_at O.tells O.taken O.faults T.tells T.taken T.faults script.old packs.old out.old trace.old) (outside S.tells S.left S.faults P.tells P.held P.faults P.failed_at O.tells O.taken O.faults T.tells T.taken T.faults script.new packs.new out.new trace.new) }
    ensures exercise { (number : ℕ) → command_of words.now ≡ Some (Exercise number) → result ≡ 0 → AllTell (outside S.tells S.left S.faults P.tells P.held P.faults P.failed_at O.tells O.taken O.faults T.tells T.taken T.faults script.new packs.new out.new trace.new) → KeepsTheExercise number (outside S.tells S.left S.faults P.tells P.held P.faults P.failed_at O.tells O.taken O.faults T.tells T.taken T.faults script.old packs.old out.old trace.old) (outside S.tells S.left S.faults P.tells P.held P.faults P.failed_at O.tells O.taken O.faults T.tells T.taken T.faults script.new packs.new out.new trace.new) }
{
    add_law();
    mark_law();
    run(alloc, words, script, packs, out, trace)
}
