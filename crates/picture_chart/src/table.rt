//! The requests of a chart.

ghost use Rattle.std.specs.Prelude.{◌≡◌, ◌++◌, OnOk};
ghost use Rattle.picture_chart.specs.Pages.{left_out, Grows, HasRows, IsRow};

use crate::ChartLine;
use crate::line::{Done, line_of, line_with};
use crate::rows::put_line;
use drive_pictures::{Request, outcome_word};
use itoa::Buffer;

/// What was asked: whether to write, the unit, the cylinder if the request joined, and the lines of the script that asked and were answered.
fn asked_of(request: &Request) -> ChartLine {
    let mut line = line_of(if request.write { b" write" } else { b" read " });
    line.put_count(u64::from(request.unit), 4);
    match request.cylinder {
        Some(cylinder) => line.put_count(u64::from(cylinder), 8),
        None => line.put_left(b"", 9),
    }
    line.put_count(u64::from(request.line), 7);
    line.put_count(u64::from(request.ended_line), 8);
    line.put(b" ");
    line
}

/// How it went: its blocks, its times, and its number among the served requests of its unit, with a star if it was served out of order.
fn went_of(request: &Request) -> ChartLine {
    let mut line = ChartLine::new();
    line.put_count(request.done, 5);
    line.put_count(request.queued(), 6);
    line.put_count(request.times.way, 6);
    line.put_count(request.times.ready, 6);
    line.put_count(request.times.trans, 6);
    line.put_count(request.turn, 4);
    let is_early = request.is_out_of_order();
    line.put(if is_early { b"*" } else { b" " });
    line
}

/// The line of a request.
fn request_line(request: &Request) -> ChartLine
    ensures { IsRow request.now result }
{
    let asked = asked_of(request);
    let went = went_of(request);
    let mut buffer = Buffer::new();
    let mut line = ChartLine::new();
    line.put_right(buffer.format(request.id).as_bytes(), 10);
    line.put(asked.as_bytes());
    line.put_left(outcome_word(request.outcome).as_bytes(), 11);
    line.put(went.as_bytes());
    line
}

/// Puts the names of the columns.
pub(crate) fn put_names(page: &mut Vec<ChartLine>) -> Done
    ensures { OnOk result (Grows page.old.items page.new.items) }
{
    let names = line_of(
        b"   request op    unit cylinder   asked answered answer       done queued on way  ready  trans  turn",
    );
    put_line(page, names)
}

/// Puts a line for each request.
pub(crate) fn put_requests(page: &mut Vec<ChartLine>, requests: &[Request]) -> Done
    ensures { OnOk result (HasRows requests.now page.old.items page.new.items) }
{
    for request in requests.iter() {
        let line = request_line(request);
        put_line(page, line)?;
    }
    Ok(())
}

/// Puts how many requests are not listed, if there are some.
pub(crate) fn put_left_out(page: &mut Vec<ChartLine>, count: u64) -> Done
    ensures { OnOk result (page.new.items ≡ page.old.items ++ left_out count) }
{
    if count == 0 {
        return Ok(());
    }
    put_line(page, line_with(b"Requests not shown: ", count))
}
