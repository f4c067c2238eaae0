// A script is played to its end.
ghost use Rattle.std.specs.Prelude.{◌≡◌, ℕ, [], length, IsTrue, IfOk, IfErr, IsErrOf, vec_len};
ghost use Rattle.pack_geometry.specs.PackTable.{AreTablesOf};
ghost use Rattle.script_reader.specs.Grammar.{Spells};
ghost use Rattle.script_reader.specs.Stored.{lines_in};
ghost use Rattle.script_lines.specs.Words.{all_verbs};
ghost use Rattle.script_reader.specs.Meaning.{meaning_of};
ghost use Rattle.trace_replay.specs.Script.{drives_of};
ghost use Rattle.hp_driver.specs.Setups.{setups_of};
ghost use Rattle.script_runs.specs.Steps.{tables_in, AreSetFor};
ghost use Rattle.trace_lines.specs.answers.Counting.{tally_by};
ghost use Rattle.event_player.specs.Plays.{Tallied};
ghost use Rattle.script_runs.specs.Lengths.{IsTooLong};
ghost use Rattle.script_runs.specs.Faults.{IsPlaying, IsBefore, IsLongFor, AreUntouched, HaveTold, Rise};
ghost use Rattle.event_player.specs.Playing.{counted, one_request};
ghost use Rattle.event_player.specs.Saying.{side};
ghost use Rattle.event_player.specs.Spots.{SendsRest, emptied, packs_at};
ghost use Rattle.event_player.specs.Stops.{Leaves};
ghost use Rattle.event_player.specs.Turns.{Begins, IsAtStart, PlaysOver, PlaysTheScript};
ghost use Rattle.script_runs.specs.declared.fault.PlayFault.TheVariants.{Store};
ghost use Rattle.script_runs.specs.Stops.{took};

use crate::counting::{count_noises, count_requests};
use crate::desk::{Desk, Forms};
use crate::drains::drain;
use crate::player::play_line;
use crate::venue::{Outlet, Venue};
use hp_driver::{Subsystem, UnitSetup};
use outside_traits::traits::{Packs, Sink};
use script_reader::meaning::meaning_law;
use script_reader::{Script, read_back_law};
pub use script_runs::PlayFault;
use script_runs::attach_units;
use std::alloc::{AllocError, Global};
pub use trace_lines::answers::Tally;

/// How many bytes the longest write brings: 127 blocks.
const MOST_BYTES: usize = 65_024;

/// So many bytes.
fn bytes(alloc: Global, size: usize) -> Result<Vec<u8>, AllocError>
    ensures { IfOk result (λ bytes. vec_len bytes ≡ size) }
{
    vec![in alloc; 0; size]
}

/// A desk with its forms, and the room for the bytes of the longest write.
#[derive(Drop)]
struct Bench {
    room: Vec<u8>,
    desk: Desk,
    forms: Forms,
}

impl Bench {
    /// A desk at which nothing is gathered yet, for `requests` requests, none of which is answered.
    fn new(alloc: Global, requests: u64) -> Result<Bench, PlayFault>
        ensures room { IfOk result (λ bench. vec_len bench.room ≡ 65024) }
        ensures gather { IfOk result (λ bench. bench.desk.gather ≡ []) }
        ensures tally { IfOk result (λ bench. bench.desk.tally ≡ tally_by requests [] []) }
        ensures memory { IfErr result (λ fault. fault ≡ PlayFault.Memory) }
    {
        let room = bytes(alloc, MOST_BYTES)?;
        let desk = Desk::new(alloc, requests)?;
        let forms = Forms::new();
        Ok(Bench { room, desk, forms })
    }
}

/// Plays the lines of a script over units that are set up for it, and a drain after the last line. The number of the drain is the
/// number of lines plus one. `room` has a place for each byte of the longest write.
fn play_lines<V: Venue>(script: &Script, room: &mut [u8], venue: &mut V) -> Result<Tally, PlayFault>
    requires good { Spells all_verbs script.now.text (lines_in script.now) script.now.count }
    requires starts { IsAtStart (meaning_of script.now) (V.at venue.old) }
    requires room { length room.old ≡ 65024 }
    ensures turns { PlaysTheScript (meaning_of script.now) result (V.at venue.old) (V.at venue.new) }
    ensures tally { IfOk result (λ tally. tally ≡ (V.at venue.new).tally) }
{
    meaning_law();
    read_back_law();
    let number = u64::from(script.count()) + 1;
    for line in script.lines() {
        play_line(script, line, room, venue)?;
    }
    drain(venue, number)?;
    venue.send()?;
    Ok(venue.tally())
}

/// If the packs failed, sends all that is kept, lines first, whatever comes of it.
fn send_rest<V: Venue>(played: Result<Tally, PlayFault>, venue: &mut V)
    ensures sends { IsErrOf played Store → SendsRest (V.at venue.old) (V.at venue.new) }
    ensures same { (IsErrOf played Store → ⊥) → V.at venue.new ≡ V.at venue.old }
{
    if let Err(PlayFault::Store) = played {
        venue.send_rest();
    }
}

/// Plays a script at a venue, and if the packs failed sends the rest.
fn play_all<V: Venue>(script: &Script, room: &mut [u8], venue: &mut V) -> Result<Tally, PlayFault>
    requires good { Spells all_verbs script.now.text (lines_in script.now) script.now.count }
    requires begins { Begins (meaning_of script.now) (V.at venue.old) }
    requires room { length room.old ≡ 65024 }
    ensures plays { PlaysOver (meaning_of script.now) result (V.at venue.old).packs (V.at venue.new).packs (emptied (V.at venue.old).out) (emptied (V.at venue.new).out) (emptied (V.at venue.old).lines) (emptied (V.at venue.new).lines) }
    ensures begun { IsBefore result → ⊥ }
    ensures loans { (V.at venue.new).loans ≡ (V.at venue.old).loans }
{
    meaning_law();
    let played = play_lines(script, room, venue);
    send_rest(played, venue);
    played
}

/// Plays a script over units that are set up for it, as `play` does once they are attached. `Memory` comes only before the first line
/// is played, and `TooLong` never.
fn play_units<P: Packs, O: Sink, T: Sink>(
    alloc: Global,
    script: &Script,
    units: &[UnitSetup],
    packs: &mut P,
    out: &mut O,
    trace: &mut T,
) -> Result<Tally, PlayFault>
    requires good { Spells all_verbs script.now.text (lines_in script.now) script.now.count }
    requires set { AreSetFor (meaning_of script.now) (tables_in (setups_of units.now)) (setups_of units.now) }
    requires tables { IsTrue (P.tells packs.old) → AreTablesOf (drives_of (meaning_of script.now)) (P.held packs.old) (tables_in (setups_of units.now)) }
    ensures plays { PlaysOver (meaning_of script.now) result (packs_at P.tells P.held P.faults packs.old) (packs_at P.tells P.held P.faults packs.new)
        (side O.tells O.taken O.faults out.old []) (side O.tells O.taken O.faults out.new []) (side T.tells T.taken T.faults trace.old []) (side T.tells T.taken T.faults trace.new []) }
    ensures untouched { IsBefore result → AreUntouched (P.tells packs.new) (P.held packs.old) (P.held packs.new) out.old out.new trace.old trace.new }
{
    meaning_law();
    let requests = count_requests(script);
    let noises = count_noises(script);
    let mut bench = Bench::new(alloc, u64::from(requests))?;
    let mut subsystem = Subsystem::new(alloc, units, requests, noises)?;
    let mut venue = Outlet {
        subsystem: &mut subsystem,
        desk: &mut bench.desk,
        forms: &mut bench.forms,
        packs,
        out,
        trace,
    };
    play_all(script, bench.room.as_mut_slice(), &mut venue)
}

/// Plays a script line by line, and a drain after its last line. The number of the drain is the number of lines plus one. The lines of
/// the run are kept for `trace`, and its answers for `out`. They are sent, lines first: before a move that may write a block, when
/// there is no room for more, at the end, and if the packs failed.
///
/// The units are attached first, in the order of their lines. `TooLong` names the first unit whose image has more bytes than the blocks
/// of its drive. `Store` comes only if the packs' count of faults rose in this call, and `Sink` only if that of `out` or of `trace`
/// rose. `Memory` comes only before the first line is played, with the packs, `out` and `trace` as they were.
///
/// The tally counts the script's requests, and the answers of the run with their text, even if `out` does not tell what it took.
///
/// After `Store` and `Sink` it is known how far the script came: `trace` and `out` took fronts of the texts of a run so far, no answer
/// goes out before its lines, and since text was last sent at most one move may have written a block.
pub fn play<P: Packs, O: Sink, T: Sink>(
    alloc: Global,
    script: &Script,
    packs: &mut P,
    out: &mut O,
    trace: &mut T,
) -> Result<Tally, PlayFault>
    requires good { Spells all_verbs script.now.text (lines_in script.now) script.now.count }
    ensures tallied { IfOk result (λ tally. IsTrue (P.tells packs.new) → Tallied (meaning_of script.now) (P.held packs.old) (P.held packs.new)
        (O.tells out.new) (O.taken out.old) (O.taken out.new) (T.tells trace.new) (T.taken trace.old) (T.taken trace.new) tally) }
    ensures requests { IfOk result (λ tally. tally.requests ≡ counted one_request (meaning_of script.now).lines) }
    ensures stopped { IfErr result (λ fault. IsTrue (P.tells packs.new) → Leaves fault (meaning_of script.now) (P.held packs.old) (P.held packs.new) (P.failed_at packs.new)
        (took O.tells O.taken O.faults out.old out.new) (took T.tells T.taken T.faults trace.old trace.new)) }
    ensures fits { IsPlaying result → IsTrue (P.tells packs.new) → (unit n : ℕ) → ¬ (IsTooLong (meaning_of script.now) (P.held packs.old) unit n) }
    ensures too_long { IfErr result (IsLongFor (meaning_of script.now) (P.tells packs.new) (P.held packs.old)) }
    ensures told { HaveTold (P.tells packs.old) (P.tells packs.new) (O.tells out.old) (O.tells out.new) (T.tells trace.old) (T.tells trace.new) }
    ensures causes { Rise (P.faults packs.old) (P.faults packs.new) (O.faults out.old) (O.faults out.new) (T.faults trace.old) (T.faults trace.new) result }
    ensures untouched { IsBefore result → AreUntouched (P.tells packs.new) (P.held packs.old) (P.held packs.new) out.old out.new trace.old trace.new }
{
    meaning_law();
    let units = attach_units(alloc, script, packs)?;
    play_units(alloc, script, units.as_slice(), packs, out, trace)
}
