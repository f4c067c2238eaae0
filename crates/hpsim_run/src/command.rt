ghost use Rattle.std.specs.Prelude.{◌≡◌, ℕ, None, Some};
ghost use Rattle.command_parts.specs.Outside.{HasItsCause, outside};
ghost use Rattle.raw_command.specs.Endings.{RunsTransfer};
ghost use Rattle.command_parts.specs.declared.words.Transfer.{Transfer};
ghost use Rattle.hpsim_run.specs.Cached.{RunsCached};
ghost use Rattle.script_commands.specs.Exercises.{RunsExercise};
ghost use Rattle.pack_commands.specs.Leaves.{LeavesAlone, TellsUsage};
ghost use Rattle.script_commands.specs.Plays.{RunsPlay};
ghost use Rattle.hpsim_run.specs.Statuses.{IsStatusOf};
ghost use Rattle.hpsim_run.specs.Tools.{RunsTool};
ghost use Rattle.pack_commands.specs.Words.{command_of as the_command};
ghost use Rattle.pack_commands.specs.declared.words.Command.TheVariants.{Play, Cached, Exercise, TransferBytes};

use crate::cached::run_cached;
use command_parts::Status;
use outside_traits::traits::{Packs, Sink, Source};
use outside_traits::whole::write_all;
use pack_commands::{
    Command, command_of, run_add, run_format, run_fresh, run_list, run_mark, usage,
};
use raw_command::run_bytes;
use script_commands::play::run_play;
use script_commands::run_exercise;
use std::alloc::Global;

/// Runs the command that the words name, and answers the code of its `Status`.
///
/// Scripts, and the bytes to be written, come from the source `script`. Answers and results go to `out`, and the lines of a run to `trace`.
///
/// * `play` plays a script over the packs.
/// * `bad144 list U KIND` prints the bad-sector table of a pack. `bad144 add U KIND BLOCK [copy] [mark]` adds a block to the table.
///   `bad144 fresh U KIND SERIAL` writes an empty table. `bad144 mark U KIND` marks the data blocks that the table lists.
/// * `raw read U KIND PART AT LEN` gives bytes of a partition to `out`. `raw write U KIND PART AT` and `dump U KIND` write the bytes of the
///   source to a partition, or to the end of partition `b`. These transfers go through the driver.
/// * `format U KIND SERIAL` tests every block of a pack through the drive, and writes a table of the marked blocks.
/// * `cached N` plays a script of its own grammar over the packs, through a cache with delayed writes. N is the capacity of the cache: 1 to
///   4,096 blocks.
/// * `exercise N` plays the script of the number N over empty packs of its own, and prints its tally.
///
/// | code | status | comes | printed on `out` |
/// |---|---|---|---|
/// | 0 | Done | if the command is done | the answers' text, the tool's text, the exercise's four lines, the bytes that were read, `wrote N`, or `dumped K` |
/// | 2 | Usage | exactly if the words are no command | the usage |
/// | 3 | Refused | only if the source's bytes spell no script; it comes then, unless 4 or 9 comes first | `refused line L KIND` |
/// | 4 | SourceFailed | only if the source's count of faults rose | nothing |
/// | 5 | SinkFailed | only if the count of `out` or of `trace` rose | nothing further |
/// | 6 | PacksFailed | only if the packs' count rose | the answers so far, for `play` and `cached`; otherwise nothing |
/// | 7 | TooLong | only if the image of a declared unit, or of the unit of any other command, is longer than its pack; it comes then, unless 4, 6 or 9 comes, or 10 for a range that is outside | `too long unit U length L` |
/// | 8 | ToolRefused | only if `bad144 add` is refused, or if `bad144 mark` finds no table; it comes then, unless 6 or 7 comes | `refused no table`, `refused reserved`, `refused listed I`, `refused full`, `refused spare I` |
/// | 9 | OutOfMemory | if there was no memory, before the first line was played or the first block read or written; never for `bad144` | nothing |
/// | 10 | TransferRefused | exactly if bytes to be transferred reach beyond the partition, or touch a block that can't be used, unless 4, 5, 6, 7 or 9 comes | `refused outside`; `refused unusable D`, or for a read the bytes before that block |
/// | 11 | FormatRefused | only if `format` refuses the pack; it comes then, unless 6, 7 or 9 comes | `refused too many K`, `refused spare I`, `refused no copy`, `refused differs B` |
pub fn run<S: Source, P: Packs, O: Sink, T: Sink>(
    alloc: Global,
    words: &[String],
    script: &mut S,
    packs: &mut P,
    out: &mut O,
    trace: &mut T,
) -> u8
    // `play`: the headline, what is left after a stop, and each other status.
    ensures play { the_command words.now ≡ Some Play → RunsPlay result
        (outside S.tells S.left S.faults P.tells P.held P.faults P.failed_at O.tells O.taken O.faults T.tells T.taken T.faults script.old packs.old out.old trace.old)
        (outside S.tells S.left S.faults P.tells P.held P.faults P.failed_at O.tells O.taken O.faults T.tells T.taken T.faults script.new packs.new out.new trace.new) }

    // `cached N`, whose N is the capacity of its cache: each request answered at its own line, what is left after a stop, and each other status.
    ensures cached { (capacity : ℕ) → the_command words.now ≡ Some (Cached capacity) → RunsCached capacity result
        (outside S.tells S.left S.faults P.tells P.held P.faults P.failed_at O.tells O.taken O.faults T.tells T.taken T.faults script.old packs.old out.old trace.old)
        (outside S.tells S.left S.faults P.tells P.held P.faults P.failed_at O.tells O.taken O.faults T.tells T.taken T.faults script.new packs.new out.new trace.new) }

    // The tools: those for bad-sector tables, and the formatter.
    ensures tool { RunsTool (the_command words.now) result (P.tells packs.new) (P.held packs.old) (P.held packs.new)
        (O.tells out.new) (O.taken out.old) (O.taken out.new) (O.faults out.old) (O.faults out.new) }

    // `exercise N`, whose N is the number of the script that is played.
    ensures exercise { (number : ℕ) → the_command words.now ≡ Some (Exercise number) →
        RunsExercise number result (O.tells out.new) (O.taken out.old) (O.taken out.new) (O.faults out.old) (O.faults out.new)
        (T.tells trace.new) (T.taken trace.old) (T.taken trace.new) (T.faults trace.old) (T.faults trace.new) }

    // `raw read`, `raw write` and `dump`: bytes of a partition.
    ensures transfer { (transfer : Transfer) → the_command words.now ≡ Some (TransferBytes transfer) → RunsTransfer transfer result
        (outside S.tells S.left S.faults P.tells P.held P.faults P.failed_at O.tells O.taken O.faults T.tells T.taken T.faults script.old packs.old out.old trace.old)
        (outside S.tells S.left S.faults P.tells P.held P.faults P.failed_at O.tells O.taken O.faults T.tells T.taken T.faults script.new packs.new out.new trace.new) }

    // Each status of each command has its cause. Objects that a command does not use stay as they were.
    ensures statuses { IsStatusOf (the_command words.now) result }
    ensures usage { TellsUsage (the_command words.now) result (O.tells out.new) (O.taken out.old) (O.taken out.new) (O.faults out.old) (O.faults out.new) }
    ensures causes { HasItsCause result
        (outside S.tells S.left S.faults P.tells P.held P.faults P.failed_at O.tells O.taken O.faults T.tells T.taken T.faults script.old packs.old out.old trace.old)
        (outside S.tells S.left S.faults P.tells P.held P.faults P.failed_at O.tells O.taken O.faults T.tells T.taken T.faults script.new packs.new out.new trace.new) }
    ensures leaves { LeavesAlone (the_command words.now) result script.old script.new packs.old packs.new out.old out.new trace.old trace.new }
{
    match command_of(words) {
        None => {
            let _ = write_all(out, usage().as_bytes());
            Status::Usage.code()
        }
        Some(Command::Play) => run_play(alloc, script, packs, out, trace).code(),
        Some(Command::ListTable { unit, kind }) => run_list(packs, out, unit, kind).code(),
        Some(
            Command::AddBlock {
                unit,
                kind,
                block,
                way,
            },
        ) => run_add(packs, out, unit, kind, block, way).code(),
        Some(Command::FreshTable { unit, kind, serial }) => {
            run_fresh(packs, out, unit, kind, serial).code()
        }
        Some(Command::MarkBlocks { unit, kind }) => run_mark(packs, out, unit, kind).code(),
        Some(Command::Exercise { number }) => run_exercise(alloc, number, out, trace).code(),
        Some(Command::Cached { capacity }) => {
            run_cached(alloc, capacity, script, packs, out, trace).code()
        }
        Some(Command::FormatPack { unit, kind, serial }) => {
            run_format(alloc, packs, out, unit, kind, serial).code()
        }
        Some(Command::TransferBytes { transfer }) => {
            run_bytes(alloc, transfer, script, packs, out, trace).code()
        }
    }
}
