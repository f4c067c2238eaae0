// A drain: events happen until no request is outstanding.
ghost use Rattle.std.specs.Prelude.{◌≤◌, length};
ghost use Rattle.trace_replay.specs.Script.{Plays, Drain};
ghost use Rattle.event_player.specs.Calls.{MayGoOn};
ghost use Rattle.event_player.specs.Steps.{GoesOnDraining, PlaysDrain};
ghost use Rattle.event_player.specs.Stops.{StopsDraining, StopsInput};
ghost use Rattle.event_player.specs.Turns.{TurnsOut, PlaysAs, StopsAs};

use crate::calls::happen;
use crate::venue::Venue;
use script_runs::PlayFault;

/// The events of a drain after its first one. The drain ends long before the loop could.
fn go_on<V: Venue>(venue: &mut V, number: u64) -> Result<(), PlayFault>
    requires ready { MayGoOn (V.at venue.old).driver }
    ensures { TurnsOut (PlaysAs (GoesOnDraining number) (Plays Drain)) (StopsAs (StopsDraining number)) result (V.at venue.old) (V.at venue.new) }
{
    for turn in 0..u64::MAX {
        let Some(event) = venue.next_event() else {
            return Ok(());
        };
        happen(venue, number, event)?;
    }
    Ok(())
}

/// Drains the driver at a line: events happen until no request is outstanding. If nothing is outstanding at the start, the drain finds
/// nothing to do, and the trace tells so. `number` is the number of the line. Fails with `Store` if a call of the packs failed, and
/// with `Sink` if a call of a sink failed, whose count of faults then rose; never with `Memory` or `TooLong`.
pub(crate) fn drain<V: Venue>(venue: &mut V, number: u64) -> Result<(), PlayFault>
    requires ready { MayGoOn (V.at venue.old).driver }
    requires few { length (V.at venue.old).driver.world.slots ≤ 65536 }
    ensures { TurnsOut (PlaysAs (PlaysDrain number) (Plays Drain)) (StopsAs (StopsInput number Drain)) result (V.at venue.old) (V.at venue.new) }
{
    let Some(first) = venue.next_event() else {
        venue.idle(number)?;
        return Ok(());
    };
    happen(venue, number, first)?;
    go_on(venue, number)?;
    Ok(())
}
