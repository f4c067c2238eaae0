//! The trace events of a plan, in the JSON that Chrome's and Perfetto's viewers read.

ghost use Rattle.std.specs.Prelude.{◌≡◌, fold, get_or, IfOk, OnOk};
ghost use Rattle.run_plan.specs.Events.{with_head, with_name, is_idle, with_bar, with_counter, no_point, with_points, with_lane, with_span, with_arguments, with_request, events_of};

use crate::bars::Bar;
use crate::fields::{put, put_number};
use crate::lanes::{Lane, Point};
use crate::plan::Plan;
use crate::rows::op_word;
use drive_pictures::{Letter, Request, letter_word, outcome_word};
use std::alloc::{AllocError, Global};

/// Puts the start of an event: its phase, its process, which is the adapter, its thread, which is the drive, and its time, which is
/// how many events of the run came before, in microseconds.
#[tactic(auto, unfolding(crate::specs::Events::with_head))]
fn put_head(out: &mut Vec<u8>, phase: &'static str, unit: u8, time: u64) -> Result<(), AllocError>
    ensures { OnOk result (out.new.items ≡ with_head phase.now unit time out.old.items) }
{
    put(out, ",\n{\"ph\":\"")?;
    put(out, phase)?;
    put(out, "\",\"pid\":")?;
    put_number(out, u64::from(unit / 8 + 1))?;
    put(out, ",\"tid\":")?;
    put_number(out, u64::from(unit) + 1)?;
    put(out, ",\"ts\":")?;
    put_number(out, time)
}

/// Puts the name of a process or of a thread.
#[tactic(auto, unfolding(crate::specs::Events::with_name))]
fn put_name(
    out: &mut Vec<u8>,
    what: &'static str,
    unit: u8,
    kind: &'static str,
    word: &'static str,
    number: u8,
) -> Result<(), AllocError>
    ensures { OnOk result (out.new.items ≡ with_name what.now unit kind.now word.now number out.old.items) }
{
    put_head(out, "M", unit, 0)?;
    put(out, ",\"name\":\"")?;
    put(out, what)?;
    put(out, "\",\"args\":{\"name\":\"")?;
    put(out, kind)?;
    put(out, word)?;
    put_number(out, u64::from(number))?;
    put(out, "\"}}")
}

/// Whether a drive does nothing.
fn is_idle(letter: Letter) -> bool
    ensures { result ≡ is_idle letter }
{
    match letter {
        Letter::Idle => true,
        _ => false,
    }
}

/// Puts the slice of a bar, unless the drive is idle: what the drive does, from one event up to another.
#[tactic(auto, unfolding(crate::specs::Events::with_slice))]
fn put_bar(out: &mut Vec<u8>, plan: &Plan, unit: u8, bar: &Bar) -> Result<(), AllocError>
    ensures { OnOk result (out.new.items ≡ with_bar plan.now.window unit out.old.items bar.now) }
{
    if is_idle(bar.letter) {
        return Ok(());
    }
    let from = plan.window.edge(bar.from);
    let to = plan.window.edge(bar.to);
    put_head(out, "X", unit, from)?;
    put(out, ",\"dur\":")?;
    put_number(out, to.saturating_sub(from))?;
    put(out, ",\"name\":\"")?;
    put(out, letter_word(bar.letter))?;
    put(out, "\"}")
}

/// Puts the slices of bars.
fn put_bars(out: &mut Vec<u8>, plan: &Plan, unit: u8, bars: &[Bar]) -> Result<(), AllocError>
    ensures { OnOk result (out.new.items ≡ fold (with_bar plan.now.window unit) out.old.items bars.now) }
{
    for bar in bars.iter() {
        put_bar(out, plan, unit, bar)?;
    }
    Ok(())
}

/// Puts a counter.
#[tactic(auto, unfolding(crate::specs::Events::with_counter))]
fn put_counter(
    out: &mut Vec<u8>,
    unit: u8,
    time: u64,
    word: &'static str,
    number: u64,
) -> Result<(), AllocError>
    ensures { OnOk result (out.new.items ≡ with_counter unit time word.now number out.old.items) }
{
    put_head(out, "C", unit, time)?;
    put(out, ",\"name\":\"")?;
    put(out, word)?;
    put(out, " of unit ")?;
    put_number(out, u64::from(unit))?;
    put(out, "\",\"args\":{\"")?;
    put(out, word)?;
    put(out, "\":")?;
    put_number(out, number)?;
    put(out, "}}")
}

/// The point of a column.
fn point_in(points: &[Point], column: usize) -> Point
    ensures { result ≡ get_or points.now column no_point }
{
    match points.get(column) {
        Some(point) => *point,
        None => Point {
            cylinder: 0,
            waiting: 0,
        },
    }
}

/// Puts the counters of points, column by column.
fn put_points(out: &mut Vec<u8>, plan: &Plan, unit: u8, points: &[Point]) -> Result<(), AllocError>
    ensures { OnOk result (out.new.items ≡ with_points plan.now.window unit points.now out.old.items) }
{
    for column in 0..points.len() {
        let time = plan.window.edge(column);
        let point = point_in(points, column);
        put_counter(out, unit, time, "cylinder", u64::from(point.cylinder))?;
        put_counter(out, unit, time, "queue", point.waiting)?;
    }
    Ok(())
}

/// Puts the events of a lane: its names, its slices and its counters.
#[tactic(auto, unfolding(crate::specs::Events::with_names))]
fn put_lane(out: &mut Vec<u8>, plan: &Plan, lane: &Lane) -> Result<(), AllocError>
    ensures { OnOk result (out.new.items ≡ with_lane plan.now.window out.old.items lane.now) }
{
    put_name(
        out,
        "process_name",
        lane.unit,
        "mba",
        " adapter ",
        lane.unit / 8,
    )?;
    put_name(
        out,
        "thread_name",
        lane.unit,
        lane.kind,
        " unit ",
        lane.unit,
    )?;
    put_bars(out, plan, lane.unit, lane.bars.as_slice())?;
    put_points(out, plan, lane.unit, lane.points.as_slice())
}

/// Puts the start of the event for one end of a request's span, with its time and its phase.
#[tactic(auto, unfolding(crate::specs::Events::with_span))]
fn put_span(
    out: &mut Vec<u8>,
    phase: &'static str,
    time: u64,
    request: &Request,
) -> Result<(), AllocError>
    ensures { OnOk result (out.new.items ≡ with_span phase.now time request.now out.old.items) }
{
    put_head(out, phase, request.unit, time)?;
    put(out, ",\"cat\":\"request\",\"id\":")?;
    put_number(out, u64::from(request.id))?;
    put(out, ",\"name\":\"")?;
    put(out, op_word(request.write))?;
    put(out, " ")?;
    put_number(out, u64::from(request.id))?;
    put(out, "\"")
}

/// Puts the arguments of a request, and the end of its event.
#[tactic(auto, unfolding(crate::specs::Events::with_arguments))]
fn put_arguments(out: &mut Vec<u8>, request: &Request) -> Result<(), AllocError>
    ensures { OnOk result (out.new.items ≡ with_arguments request.now out.old.items) }
{
    put(out, ",\"args\":{\"line\":")?;
    put_number(out, u64::from(request.line))?;
    put(out, ",\"answer\":\"")?;
    put(out, outcome_word(request.outcome))?;
    put(out, "\",\"queued\":")?;
    put_number(out, request.queued())?;
    put(out, ",\"way\":")?;
    put_number(out, request.times.way)?;
    put(out, ",\"ready\":")?;
    put_number(out, request.times.ready)?;
    put(out, ",\"transfer\":")?;
    put_number(out, request.times.trans)?;
    put(out, "}}")
}

/// Puts the span of a request, from its asking to its answer.
#[tactic(auto, unfolding(crate::specs::Events::with_request))]
fn put_request(out: &mut Vec<u8>, request: &Request) -> Result<(), AllocError>
    ensures { OnOk result (out.new.items ≡ with_request out.old.items request.now) }
{
    put_span(out, "b", request.asked, request)?;
    put_arguments(out, request)?;
    put_span(out, "e", request.ended.unwrap_or(request.asked), request)?;
    put(out, "}")
}

/// The trace events of a plan, as JSON: a process for each adapter, a thread for each drive, a slice for each bar that is not idle, for
/// each column a counter of the arm's cylinder and one of the requests that wait, and a span for each request. An event of the run
/// takes a microsecond.
#[tactic(auto, unfolding(crate::specs::Events::front, crate::specs::Events::back))]
pub fn events_text(alloc: Global, plan: &Plan) -> Result<Vec<u8>, AllocError>
    ensures { IfOk result (λ text. text.items ≡ events_of plan.now) }
{
    let mut out = Vec::new(alloc);
    put(
        &mut out,
        "{\"traceEvents\":[\n{\"ph\":\"M\",\"pid\":0,\"tid\":0,\"ts\":0,\"name\":\"process_name\",\"args\":{\"name\":\"hpview\"}}",
    )?;
    for lane in plan.lanes.iter() {
        put_lane(&mut out, plan, lane)?;
    }
    for request in plan.rows.iter() {
        put_request(&mut out, request)?;
    }
    put(&mut out, "\n]}\n")?;
    Ok(out)
}
