// The command `play`.
ghost use Rattle.std.specs.Prelude.{Some};
ghost use Rattle.command_parts.specs.Outside.{HasItsCause, outside};
ghost use Rattle.command_parts.specs.Statuses.{status_code};
ghost use Rattle.pack_commands.specs.declared.words.Command.TheVariants.{Play};
ghost use Rattle.pack_commands.specs.Leaves.{LeavesAlone};
ghost use Rattle.script_commands.specs.Plays.{RunsPlay};

use command_parts::load::{LoadFault, load};
use command_parts::{Status, too_long};
use driver_laws::rules::promises::{beginnings_law, promises_law};
use event_player::play::{PlayFault, play};
use outside_traits::traits::{Packs, Sink, Source};
use outside_traits::whole::write_all;
use script_lines::refusal;
use script_reader::grammar_law;
use script_reader::meaning::meaning_law;
use std::alloc::Global;

/// The command `play`: reads a script from the source and plays it over the packs. The answers go to `out`, and the lines of the run to
/// `trace`.
pub fn run_play<S: Source, P: Packs, O: Sink, T: Sink>(
    alloc: Global,
    script: &mut S,
    packs: &mut P,
    out: &mut O,
    trace: &mut T,
) -> Status
    ensures runs { RunsPlay (status_code result)
        (outside S.tells S.left S.faults P.tells P.held P.faults P.failed_at O.tells O.taken O.faults T.tells T.taken T.faults script.old packs.old out.old trace.old)
        (outside S.tells S.left S.faults P.tells P.held P.faults P.failed_at O.tells O.taken O.faults T.tells T.taken T.faults script.new packs.new out.new trace.new) }
    ensures causes { HasItsCause (status_code result)
        (outside S.tells S.left S.faults P.tells P.held P.faults P.failed_at O.tells O.taken O.faults T.tells T.taken T.faults script.old packs.old out.old trace.old)
        (outside S.tells S.left S.faults P.tells P.held P.faults P.failed_at O.tells O.taken O.faults T.tells T.taken T.faults script.new packs.new out.new trace.new) }
    ensures leaves { LeavesAlone (Some Play) (status_code result) script.old script.new packs.old packs.new out.old out.new trace.old trace.new }
{
    promises_law();
    beginnings_law();
    meaning_law();
    grammar_law();
    let script = match load(alloc, script) {
        Ok(script) => script,
        Err(LoadFault::Memory) => return Status::OutOfMemory,
        Err(LoadFault::Failed) => return Status::SourceFailed,
        Err(LoadFault::Refused { line, kind }) => {
            let _ = write_all(out, refusal(line, kind).as_bytes());
            return Status::Refused;
        }
    };
    match play(alloc, &script, packs, out, trace) {
        Ok(_tally) => Status::Done,
        Err(PlayFault::TooLong { unit, length }) => {
            let _ = write_all(out, too_long(unit, length).as_bytes());
            Status::TooLong
        }
        Err(PlayFault::Sink) => Status::SinkFailed,
        Err(PlayFault::Store) => Status::PacksFailed,
        Err(PlayFault::Memory) => Status::OutOfMemory,
    }
}
