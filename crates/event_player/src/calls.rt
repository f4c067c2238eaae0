// The calls of the driver. A request is submitted, or an event happens; afterwards the waiting answers are said.
ghost use Rattle.hp_driver.specs.Inputs.{input_of};
ghost use Rattle.hp_driver.specs.Subsystem.{IsAsked, IsThere, asked, writes_by};
ghost use Rattle.event_player.specs.Calls.{MayGoOn};
ghost use Rattle.event_player.specs.Spots.{Sends};
ghost use Rattle.event_player.specs.Steps.{PlaysEvent, PlaysSubmission};
ghost use Rattle.event_player.specs.Stops.{EventStops, SubmissionStops};
ghost use Rattle.event_player.specs.Turns.{TurnsOut};

use crate::answers::say_answers;
use crate::venue::Venue;
use hp_driver::{Event, Request};
use outside_traits::traits::SinkFailed;
use script_runs::PlayFault;

/// Submits a request at a line, with the bytes if it is a write, and then says the answers that wait. Fails with `Sink` if a call of a
/// sink failed, whose count of faults then rose.
pub(crate) fn ask<V: Venue>(
    venue: &mut V,
    number: u64,
    request: Request,
    bytes: &[u8],
) -> Result<(), PlayFault>
    requires ready { MayGoOn (V.at venue.old).driver }
    requires asked { IsAsked (V.at venue.old).driver request bytes.now }
    ensures { TurnsOut (PlaysSubmission number (asked request bytes.now)) (SubmissionStops number (asked request bytes.now)) result (V.at venue.old) (V.at venue.new) }
{
    venue.law();
    venue.submit(number, request, bytes)?;
    say_answers(venue)?;
    Ok(())
}

/// Before an event that may write a block all text is sent, lines first.
fn send_ahead<V: Venue>(venue: &mut V, event: &Event) -> Result<(), SinkFailed>
    requires there { IsThere (V.at venue.old).driver.world (input_of event.now) }
    ensures { Sends (writes_by (V.at venue.old).driver.world (input_of event.now)) result (V.at venue.old) (V.at venue.new) }
{
    match event {
        Event::Move { adapter } if venue.writes(*adapter) => venue.send(),
        _ => Ok(()),
    }
}

/// Lets an event happen at a line, and then says the answers that wait. All text is sent before an event that may write a block, lines
/// first. Fails with `Store` if a call of the packs failed, and with `Sink` if a call of a sink failed; the count of faults of that
/// object then rose.
pub(crate) fn happen<V: Venue>(venue: &mut V, number: u64, event: Event) -> Result<(), PlayFault>
    requires ready { MayGoOn (V.at venue.old).driver }
    requires there { IsThere (V.at venue.old).driver.world (input_of event) }
    ensures { TurnsOut (PlaysEvent number (input_of event)) (EventStops number (input_of event)) result (V.at venue.old) (V.at venue.new) }
{
    venue.law();
    send_ahead(venue, &event)?;
    venue.event(number, event)?;
    say_answers(venue)?;
    Ok(())
}
