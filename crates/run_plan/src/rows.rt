//! The requests of a plan, and their lines.

ghost use Rattle.std.specs.Prelude.{◌≡◌, ◌++◌, filter, IfOk, OnOk};
ghost use Rattle.run_plan.specs.Requests.{is_shown};
ghost use Rattle.run_plan.specs.Fields.{field_text};
ghost use Rattle.run_plan.specs.Rows.{names, op_word, cylinder_text, with_row};

use crate::fields::{Field, put, put_line};
use crate::sheet::Sheet;
use crate::shown::is_shown;
use drive_pictures::{Request, outcome_word};
use std::alloc::{AllocError, Global};

/// The requests that meet the events that are shown, in the order in which they were asked for.
pub(crate) fn rows_of(alloc: Global, sheet: &Sheet<'_>) -> Result<Vec<Request>, AllocError>
    ensures { IfOk result (λ rows. rows.items ≡ filter (is_shown sheet.now) sheet.now.run.now.requests) }
{
    sheet
        .run
        .requests()
        .iter()
        .copied()
        .filter(|request| is_shown(sheet, request))
        .collect(alloc)
}

/// Whether a request reads or writes.
pub(crate) fn op_word(write: bool) -> &'static str
    ensures { result.now ≡ op_word write }
{
    if write { "write" } else { "read" }
}

/// The cylinder of a request; empty if the request did not join.
fn cylinder_field(cylinder: Option<u32>) -> Field
    ensures { field_text result ≡ cylinder_text cylinder }
{
    match cylinder {
        Some(cylinder) => Field::Number(u64::from(cylinder)),
        None => Field::Word(""),
    }
}

/// Puts the names of the fields.
#[tactic(auto, unfolding(crate::specs::Rows::names))]
pub(crate) fn put_names(out: &mut Vec<u8>) -> Result<(), AllocError>
    ensures { OnOk result (out.new.items ≡ out.old.items ++ names) }
{
    put(
        out,
        "id\tunit\top\tcylinder\tline\tanswer\tqueued\tway\tready\ttransfer\n",
    )
}

/// Puts the line of a request.
#[tactic(auto, unfolding(crate::specs::Rows::with_row))]
pub(crate) fn put_row(out: &mut Vec<u8>, request: &Request) -> Result<(), AllocError>
    ensures { OnOk result (out.new.items ≡ with_row out.old.items request.now) }
{
    put_line(
        out,
        Field::Number(u64::from(request.id)),
        &[
            Field::Number(u64::from(request.unit)),
            Field::Word(op_word(request.write)),
            cylinder_field(request.cylinder),
            Field::Number(u64::from(request.line)),
            Field::Word(outcome_word(request.outcome)),
            Field::Number(request.queued()),
            Field::Number(request.times.way),
            Field::Number(request.times.ready),
            Field::Number(request.times.trans),
        ],
    )
}
