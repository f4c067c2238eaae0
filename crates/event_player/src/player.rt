// What a line of a script does.
ghost use Rattle.std.specs.Prelude.{◌≡◌, ◌≤◌, ℕ, List, [], length, take, IfSome, IfNone};
ghost use Rattle.std.specs.Box.{box_value};
ghost use Rattle.hardware_table.specs.Noise.{LiveNoise};
ghost use Rattle.script_reader.specs.Formed.{IsWritten};
ghost use Rattle.script_lines.specs.declared.statement.Span.{Span};
ghost use Rattle.script_reader.specs.Stored.{seen, digits_at};
ghost use Rattle.script_lines.specs.Renamed.{renamed, content_by};
ghost use Rattle.script_reader.specs.Meaning.{statement_of, written_of};
ghost use Rattle.trace_replay.specs.Moments.{Played};
ghost use Rattle.trace_replay.specs.Script.{Noise as NoiseInput, Plays};
ghost use Rattle.trace_lines.specs.answers.AnswerText.{said_text};
ghost use Rattle.hp_driver.specs.Inputs.{input_of};
ghost use Rattle.event_player.specs.Calls.{MayGoOn};
ghost use Rattle.event_player.specs.Spots.{SaysText};
ghost use Rattle.event_player.specs.Steps.{IsNoEvent, MayPlay, HasData};
ghost use Rattle.event_player.specs.Turns.{PlaysAt};

use crate::calls::{ask, happen};
use crate::drains::drain;
use crate::venue::Venue;
use fire_code::{Noise, class_of};
use hp_driver::{Event, Request};
use outside_traits::traits::SinkFailed;
use script_reader::meaning::meaning_law;
use script_reader::{Content, Request as Asked, Script, Span, Statement, Stored};
use script_runs::PlayFault;
use trace_lines::answers::noise_line;

/// Says the class of noise that is armed at a line, and counts what it says.
fn say_noise<V: Venue>(venue: &mut V, number: u64, noise: &Noise) -> Result<(), SinkFailed>
    ensures says { (live : LiveNoise) → live.places ≡ noise.now → SaysText [] (said_text (Played number (NoiseInput live))) result (V.at venue.old) (V.at venue.new) }
    ensures driver { (V.at venue.new).driver ≡ (V.at venue.old).driver }
{
    let _ = noise.places();
    let line = noise_line(number, class_of(noise));
    venue.say(line.as_bytes())
}

/// A request as the driver takes it.
fn request_for(asked: &Asked, write: bool) -> Request
    ensures { result ≡ record {
      id = asked.now.id;
      unit = asked.now.unit;
      part = asked.now.part;
      block = asked.now.block;
      count = asked.now.count;
      write = write;
      offset = asked.now.offset;
      last = asked.now.last;
    } }
{
    Request {
        id: asked.id,
        unit: asked.unit,
        part: asked.part,
        block: asked.block,
        count: u32::from(asked.count),
        write,
        offset: u32::from(asked.offset),
        last: u32::from(asked.last),
    }
}

/// Puts the bytes of a write, in whole blocks, to the front of a room, and answers how many bytes it has.
fn put_data(script: &Script, asked: &Asked, content: &Content<Span>, room: &mut [u8]) -> usize
    requires room { length room.old ≡ 65024 }
    requires some { 1 ≤ asked.now.count }
    requires few { asked.now.count ≤ 127 }
    requires last { asked.now.last ≤ 512 }
    requires written { IsWritten asked.now.count (content_by (digits_at script.now.text) content.now) }
    ensures bytes { take result room.new ≡ written_of asked.now (content_by (digits_at script.now.text) content.now) }
    ensures inside { result ≤ length room.new }
    ensures room { length room.new ≡ 65024 }
{
    meaning_law();
    let whole = 512 * asked.count as usize;
    let _ = script.data(content, &mut room[..whole]);
    512 * (asked.count as usize - 1) + asked.last as usize
}

/// The event that a statement is: an arrival, a move, an interrupt, or a condition other than noise. None if it is none of these.
fn event_of(statement: &Statement<Span, Box<Noise>>) -> Option<Event>
    ensures some { IfSome result (λ event. (digits : Span → List ℕ) → statement_of (renamed digits box_value statement.now) ≡ Plays (input_of event)) }
    ensures silent { IfSome result (λ event. (number : ℕ) → said_text (Played number (input_of event)) ≡ []) }
    ensures none { IfNone result (IsNoEvent statement.now) }
{
    match statement {
        Statement::Arrive { unit } => Some(Event::Arrive { unit: *unit }),
        Statement::Turn { unit, sector } => Some(Event::Turn {
            unit: *unit,
            sector: *sector,
        }),
        Statement::Move { adapter } => Some(Event::Move { adapter: *adapter }),
        Statement::Attend { adapter } => Some(Event::Attend { adapter: *adapter }),
        Statement::Fault { unit, what, times } => Some(Event::Fault {
            unit: *unit,
            kind: *what,
            times: *times,
        }),
        Statement::Offline { unit } => Some(Event::Online {
            unit: *unit,
            on: false,
        }),
        Statement::Online { unit } => Some(Event::Online {
            unit: *unit,
            on: true,
        }),
        Statement::Lock { unit } => Some(Event::Lock {
            unit: *unit,
            on: true,
        }),
        Statement::Unlock { unit } => Some(Event::Lock {
            unit: *unit,
            on: false,
        }),
        Statement::Unit { .. }
        | Statement::Read { .. }
        | Statement::Write { .. }
        | Statement::Noise { .. }
        | Statement::Drain => None,
    }
}

/// A line that is no such event: a request, noise, a drain, or one that declares a drive, which does nothing.
fn play_other<V: Venue>(
    script: &Script,
    line: &Stored,
    room: &mut [u8],
    venue: &mut V,
) -> Result<(), PlayFault>
    requires no_event { IsNoEvent line.now.statement }
    requires ready { MayGoOn (V.at venue.old).driver }
    requires may { MayPlay (V.at venue.old).driver (statement_of (seen script.now.text line.now).statement) }
    requires data { HasData (seen script.now.text line.now).statement }
    requires room { length room.old ≡ 65024 }
    ensures { PlaysAt line.now.number (statement_of (seen script.now.text line.now).statement) result (V.at venue.old) (V.at venue.new) }
{
    let number = u64::from(line.number);
    match &line.statement {
        Statement::Read { request } => ask(venue, number, request_for(request, false), &[]),
        Statement::Write { request, content } => {
            let size = put_data(script, request, content, room);
            ask(venue, number, request_for(request, true), &room[..size])
        }
        Statement::Noise {
            unit,
            block,
            span,
            places,
        } => {
            say_noise(venue, number, places)?;
            let event = Event::Noise {
                unit: *unit,
                block: *block,
                noise: places.copy(),
                span: *span,
            };
            happen(venue, number, event)
        }
        Statement::Drain => drain(venue, number),
        _ => Ok(()),
    }
}

/// Plays a line of a script: submits its request, lets its event happen, says and arms its noise, or drains the driver, and in each
/// case says the answers afterwards. A line that declares a drive does nothing. `room` has a place for each byte of the longest write,
/// 65,024 of them. Fails with `Store` if a call of the packs failed, and with `Sink` if a call of a sink failed, whose count of faults
/// then rose; never with `Memory` or `TooLong`.
pub(crate) fn play_line<V: Venue>(
    script: &Script,
    line: &Stored,
    room: &mut [u8],
    venue: &mut V,
) -> Result<(), PlayFault>
    requires ready { MayGoOn (V.at venue.old).driver }
    requires may { MayPlay (V.at venue.old).driver (statement_of (seen script.now.text line.now).statement) }
    requires data { HasData (seen script.now.text line.now).statement }
    requires room { length room.old ≡ 65024 }
    ensures { PlaysAt line.now.number (statement_of (seen script.now.text line.now).statement) result (V.at venue.old) (V.at venue.new) }
{
    match event_of(&line.statement) {
        Some(event) => happen(venue, u64::from(line.number), event),
        None => play_other(script, line, room, venue),
    }
}
