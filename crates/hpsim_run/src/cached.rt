// The command `cached`.
ghost use Rattle.std.specs.Prelude.{◌≤◌, Some};
ghost use Rattle.command_parts.specs.Outside.{HasItsCause, outside};
ghost use Rattle.command_parts.specs.Statuses.{status_code};
ghost use Rattle.pack_commands.specs.declared.words.Command.TheVariants.{Cached};
ghost use Rattle.hpsim_run.specs.Cached.{RunsCached};
ghost use Rattle.pack_commands.specs.Leaves.{LeavesAlone};

use cached_run::{CachedPlayFault, play_cached};
use command_parts::load::{LoadFault, load_cached};
use command_parts::{Status, too_long};
use outside_traits::traits::{Packs, Sink, Source};
use outside_traits::whole::write_all;
use script_lines::refusal;
use std::alloc::Global;

/// Reads a script from the source and plays it over the packs through a cache of `capacity` blocks.
pub(crate) fn run_cached<S: Source, P: Packs, O: Sink, T: Sink>(
    alloc: Global,
    capacity: u32,
    script: &mut S,
    packs: &mut P,
    out: &mut O,
    trace: &mut T,
) -> Status
    requires some { 1 ≤ capacity }
    requires few { capacity ≤ 4096 }
    ensures runs { RunsCached capacity (status_code result)
        (outside S.tells S.left S.faults P.tells P.held P.faults P.failed_at O.tells O.taken O.faults T.tells T.taken T.faults script.old packs.old out.old trace.old)
        (outside S.tells S.left S.faults P.tells P.held P.faults P.failed_at O.tells O.taken O.faults T.tells T.taken T.faults script.new packs.new out.new trace.new) }
    ensures causes { HasItsCause (status_code result)
        (outside S.tells S.left S.faults P.tells P.held P.faults P.failed_at O.tells O.taken O.faults T.tells T.taken T.faults script.old packs.old out.old trace.old)
        (outside S.tells S.left S.faults P.tells P.held P.faults P.failed_at O.tells O.taken O.faults T.tells T.taken T.faults script.new packs.new out.new trace.new) }
    ensures leaves { LeavesAlone (Some (Cached capacity)) (status_code result) script.old script.new packs.old packs.new out.old out.new trace.old trace.new }
{
    let script = match load_cached(alloc, script) {
        Ok(script) => script,
        Err(LoadFault::Memory) => return Status::OutOfMemory,
        Err(LoadFault::Failed) => return Status::SourceFailed,
        Err(LoadFault::Refused { line, kind }) => {
            let _ = write_all(out, refusal(line, kind).as_bytes());
            return Status::Refused;
        }
    };
    match play_cached(alloc, &script, capacity, packs, out, trace) {
        Ok(()) => Status::Done,
        Err(CachedPlayFault::TooLong { unit, length }) => {
            let _ = write_all(out, too_long(unit, length).as_bytes());
            Status::TooLong
        }
        Err(CachedPlayFault::Sink) => Status::SinkFailed,
        Err(CachedPlayFault::Store) => Status::PacksFailed,
        Err(CachedPlayFault::Memory) => Status::OutOfMemory,
    }
}
