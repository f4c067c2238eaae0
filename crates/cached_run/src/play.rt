// A script is played to its end.
ghost use Rattle.std.specs.Prelude.{◌≡◌, ◌≤◌, ℕ, [], IsTrue, IfErr, OnOk};
ghost use Rattle.buffer_cache.specs.Calls.{MayUse};
ghost use Rattle.script_runs.specs.Steps.{AreUnits};
ghost use Rattle.script_runs.specs.Stops.{took};
ghost use Rattle.script_runs.specs.Lengths.{IsTooLong};
ghost use Rattle.script_runs.specs.Faults.{AreUntouched, HaveTold, IsBefore, IsPlaying, IsLongFor, Rise};
ghost use Rattle.script_reader.specs.cached.Meaning.{meaning_of};
ghost use Rattle.cached_run.specs.Lines.{IsRoomy};
ghost use Rattle.cached_run.specs.Places.{PlaysScript, place, world_at};
ghost use Rattle.cached_run.specs.Theorem.{CachedPlays, CachedLeaves};

use crate::bench::Bench;
use crate::lines::{play_line, play_sync};
use crate::scene::{Scene, Stand};
use buffer_cache::{Cache, Subsystem};
use outside_traits::traits::{Packs, Sink};
use script_reader::cached::CachedScript;
use script_runs::desk::Desk;
use script_runs::{PlayFault, attach_units};
use std::alloc::Global;

/// Plays the lines of a script over units that are set up for it, and a sync after the last line. The number of the sync is the number
/// of lines plus one.
fn play_lines<S: Scene>(
    script: &CachedScript,
    scene: &mut S,
    desk: &mut Desk,
) -> Result<(), PlayFault>
    requires units { AreUnits (meaning_of script.now) (world_at (S.at scene.old)) }
    requires may { MayUse (S.at scene.old).cache (S.at scene.old).spot.driver }
    requires desk { IsRoomy desk.old.gather desk.old.blocks.items }
    requires empty { (S.at scene.old).cache.entries ≡ [] }
    ensures plays { PlaysScript (meaning_of script.now) result (S.at scene.old) (S.at scene.new) }
    ensures loans { S.loans scene.new ≡ S.loans scene.old }
{
    script.law();
    let number = u64::from(script.count()) + 1;
    for line in script.lines() {
        play_line(line, scene, desk)?;
    }
    play_sync(number, scene)
}

/// Plays the lines of a script over a cache and a driver whose units are set up for it.
fn play_over<P: Packs, O: Sink, T: Sink>(
    script: &CachedScript,
    cache: &mut Cache,
    subsystem: &mut Subsystem,
    desk: &mut Desk,
    packs: &mut P,
    out: &mut O,
    trace: &mut T,
) -> Result<(), PlayFault>
    requires units { AreUnits (meaning_of script.now) subsystem.old.world }
    requires may { MayUse cache.old subsystem.old }
    requires desk { IsRoomy desk.old.gather desk.old.blocks.items }
    requires empty { cache.old.entries ≡ [] }
    ensures { PlaysScript (meaning_of script.now) result
        (place P.tells P.held P.faults O.tells O.taken O.faults T.tells T.taken T.faults cache.old subsystem.old packs.old out.old trace.old)
        (place P.tells P.held P.faults O.tells O.taken O.faults T.tells T.taken T.faults cache.new subsystem.new packs.new out.new trace.new) }
{
    let mut scene = Stand {
        cache,
        subsystem,
        packs,
        out,
        trace,
    };
    play_lines(script, &mut scene, desk)
}

/// Plays a script line by line through a cache of `capacity` blocks, 1 to 4,096, and a sync after its last line. The number of the sync
/// is the number of lines plus one. Each request is answered at its own line, and its answer goes to `out` at once. The lines of the
/// requests that the cache makes go to `trace`.
///
/// The units are attached first, in the order of their lines. `TooLong` names the first unit whose image has more bytes than the blocks
/// of its drive. `Store` comes only if the packs' count of faults rose in this call, and `Sink` only if that of `out` or of `trace`
/// rose. `Memory` comes only before the first line is played, with the packs, `out` and `trace` as they were.
///
/// After Ok the requests were those that an empty cache of `capacity` blocks asks for: a read for each block that it does not hold, and
/// a write for each changed entry that is dropped or synced. Each image is as long as the blocks that were written make it.
///
/// After `Store` and `Sink` each block of the packs holds what some of the blocks that were written up to the line of the stop left,
/// among them those before the last sync that ended. `out` took the answers of all lines before that line, and a front of that line's
/// answer. `trace` took the lines of the requests, up to the request that stopped.
pub fn play_cached<P: Packs, O: Sink, T: Sink>(
    alloc: Global,
    script: &CachedScript,
    capacity: u32,
    packs: &mut P,
    out: &mut O,
    trace: &mut T,
) -> Result<(), PlayFault>
    requires some { 1 ≤ capacity }
    requires most { capacity ≤ 4096 }
    ensures plays { OnOk result (IsTrue (P.tells packs.new) → CachedPlays capacity (meaning_of script.now) (P.held packs.old) (P.held packs.new)
        (took O.tells O.taken O.faults out.old out.new) (took T.tells T.taken T.faults trace.old trace.new)) }
    ensures stopped { IfErr result (λ fault. IsTrue (P.tells packs.new) → CachedLeaves capacity fault (meaning_of script.now) (P.held packs.old) (P.held packs.new) (P.failed_at packs.new)
        (took O.tells O.taken O.faults out.old out.new) (took T.tells T.taken T.faults trace.old trace.new)) }
    ensures fits { IsPlaying result → IsTrue (P.tells packs.new) → (unit n : ℕ) → ¬ (IsTooLong (meaning_of script.now) (P.held packs.old) unit n) }
    ensures too_long { IfErr result (IsLongFor (meaning_of script.now) (P.tells packs.new) (P.held packs.old)) }
    ensures told { HaveTold (P.tells packs.old) (P.tells packs.new) (O.tells out.old) (O.tells out.new) (T.tells trace.old) (T.tells trace.new) }
    ensures causes { Rise (P.faults packs.old) (P.faults packs.new) (O.faults out.old) (O.faults out.new) (T.faults trace.old) (T.faults trace.new) result }
    ensures untouched { IsBefore result → AreUntouched (P.tells packs.new) (P.held packs.old) (P.held packs.new) out.old out.new trace.old trace.new }
{
    script.law();
    let mut bench = {
        let units = attach_units(alloc, script, packs)?;
        Bench::new(alloc, units.as_slice(), capacity)?
    };
    play_over(
        script,
        &mut bench.cache,
        &mut bench.subsystem,
        &mut bench.desk,
        packs,
        out,
        trace,
    )
}
