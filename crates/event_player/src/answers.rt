// The answers that wait are counted and said, and then they are taken.
ghost use Rattle.std.specs.Prelude.{◌≡◌, ◌+◌, ◌==◌, ◌<◌, [], ◌∷◌, if◌then◌else◌, OnOk};
ghost use Rattle.driver_laws.specs.answers.Waiting.{all_taken, waiting};
ghost use Rattle.trace_replay.specs.declared.requests.answers.AnswerKind.TheVariants.{ReadOk};
ghost use Rattle.event_player.specs.Answering.{first_told, first_text, first_rest, IsFirst, IsFirstKind};
ghost use Rattle.event_player.specs.Spots.{SaysText};
ghost use Rattle.event_player.specs.Steps.{waiting_text};

use crate::venue::Venue;
use driver_laws::answers::answers::taken_law;
use hp_driver::{Answer, AnswerKind};
use outside_traits::traits::SinkFailed;

/// How many bytes block `k` of `count` has, of which the last one has `last`.
fn block_size(k: u32, count: u32, last: u32) -> u32
    requires { k < count }
    ensures { result ≡ (if k + 1 == count then last else 512) }
{
    if k + 1 == count { last } else { 512 }
}

/// Says the lines of the blocks of the read that the oldest answer belongs to: `count` of them, the last one with `last` bytes.
fn say_blocks<V: Venue>(venue: &mut V, count: u32, last: u32) -> Result<(), SinkFailed>
    requires reads { IsFirstKind (V.at venue.old).driver.world (ReadOk count last) }
    ensures says { SaysText [] (first_rest (V.at venue.old).driver.world (ReadOk count last)) result (V.at venue.old) (V.at venue.new) }
    ensures driver { (V.at venue.new).driver ≡ (V.at venue.old).driver }
{
    venue.law();
    for k in 0..count {
        venue.say_block(k, block_size(k, count, last))?;
    }
    Ok(())
}

/// Says what follows the line of the oldest answer: the blocks of a read.
fn say_rest<V: Venue>(venue: &mut V, kind: AnswerKind) -> Result<(), SinkFailed>
    requires first { IsFirstKind (V.at venue.old).driver.world kind }
    ensures says { SaysText [] (first_rest (V.at venue.old).driver.world kind) result (V.at venue.old) (V.at venue.new) }
    ensures driver { (V.at venue.new).driver ≡ (V.at venue.old).driver }
{
    match kind {
        AnswerKind::ReadOk { count, last } => say_blocks(venue, count, last),
        _ => Ok(()),
    }
}

/// Counts the oldest answer that waits, and says its text.
fn say_answer<V: Venue>(venue: &mut V, answer: Answer) -> Result<(), SinkFailed>
    requires first { IsFirst (V.at venue.old).driver.world answer }
    ensures says { SaysText (first_told (V.at venue.old).driver.world answer ∷ []) (first_text (V.at venue.old).driver.world answer) result (V.at venue.old) (V.at venue.new) }
    ensures driver { (V.at venue.new).driver ≡ (V.at venue.old).driver }
{
    venue.say_line(answer)?;
    say_rest(venue, answer.kind)
}

/// Counts and says the answers that wait, the oldest first, and takes them.
pub(crate) fn say_answers<V: Venue>(venue: &mut V) -> Result<(), SinkFailed>
    ensures says { SaysText (waiting (V.at venue.old).driver.world) (waiting_text (V.at venue.old).driver.world) result (V.at venue.old) (V.at venue.new) }
    ensures taken { OnOk result ((V.at venue.new).driver ≡ record (V.at venue.old).driver { world = all_taken (V.at venue.old).driver.world }) }
{
    taken_law();
    while let Some(answer) = venue.answer() {
        venue.law();
        say_answer(venue, answer)?;
        venue.take_answer();
    }
    Ok(())
}
