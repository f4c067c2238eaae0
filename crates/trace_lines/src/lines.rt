ghost use Rattle.std.specs.Prelude.{◌≡◌};
ghost use Rattle.trace_replay.specs.Moments as moments;
ghost use Rattle.trace_replay.specs.requests.Requests.{Answer};
ghost use Rattle.trace_replay.specs.Text.{moment_text};
ghost use Rattle.trace_lines.specs.Deeds.{deed_of};

use crate::telling::Told;
use crate::words::{put_first, put_last, put_number};
use mass_text::FrontLine;

/// How many bytes a line has at most.
const END: usize = 160;

/// The room of a line.
const ROOM: usize = 224;

/// The text of a line of a trace.
pub type LineText = FrontLine<ROOM, END>;

/// The line of a deed at a unit, for the request with this id. `number` is the number of the script's line. The line of an
/// end says nothing of the answer.
pub fn deed(number: u64, unit: u8, id: u32, told: Told) -> LineText
    ensures { (answer : Answer) → result ≡ moment_text (moments.Told number unit id (deed_of answer told)) }
{
    let mut line = LineText::new();
    line.put_byte(b'\n');
    put_last(&mut line, &told);
    put_number(&mut line, u64::from(id));
    put_number(&mut line, u64::from(unit));
    put_number(&mut line, number);
    put_first(&mut line, &told);
    line
}

/// The line of an event that found nothing to do. `number` is the number of the script's line.
pub fn idle(number: u64) -> LineText
    ensures { result ≡ moment_text (moments.Idle number) }
{
    let mut line = LineText::new();
    line.put_byte(b'\n');
    put_number(&mut line, number);
    line.put_piece(b"idle");
    line
}
