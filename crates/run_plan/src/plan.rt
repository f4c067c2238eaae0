//! The plan of a run, and its tables.

ghost use Rattle.std.specs.Prelude.{◌≡◌, ◌++◌, map, IfOk, OnOk};
ghost use Rattle.run_plan.specs.Units.{units_shown};
ghost use Rattle.run_plan.specs.Fields.{field_text};
ghost use Rattle.run_plan.specs.Figures.{names, with_figures, Sums, IsSummary};
ghost use Rattle.run_plan.specs.Lanes.{told, lane_in};
ghost use Rattle.run_plan.specs.Plans.{Plans};
ghost use Rattle.run_plan.specs.Rows.{requests_of};

use crate::fields::{Field, put, put_line};
use crate::figures::{Figures, figures_of, of_unit};
use crate::lanes::{Lane, lane_of};
use crate::rows::{put_names, put_row, rows_of};
use crate::sheet::Sheet;
use drive_pictures::{Request, plus};
use run_picture::Window;
use std::alloc::{AllocError, Global};

/// What is shown of a run, as data.
#[derive(Drop)]
pub struct Plan {
    /// The events that are shown, in columns.
    pub window: Window,
    /// The requests that meet these events, in the order in which they were asked for.
    pub rows: Vec<Request>,
    /// The drives that have requests, in ascending order of their number.
    pub lanes: Vec<Lane>,
}

/// The lanes of some units.
fn lanes_for(alloc: Global, sheet: &Sheet<'_>, units: &[u8]) -> Result<Vec<Lane>, AllocError>
    ensures { IfOk result (λ lanes. map told lanes.items ≡ map (lane_in sheet.now) units.now) }
{
    let mut lanes = Vec::new(alloc);
    for unit in units.iter() {
        let lane = lane_of(alloc, sheet, *unit)?;
        lanes.push(lane)?;
    }
    Ok(lanes)
}

/// The lanes of the drives that have requests.
fn lanes_of(alloc: Global, sheet: &Sheet<'_>) -> Result<Vec<Lane>, AllocError>
    ensures { IfOk result (λ lanes. map told lanes.items ≡ map (lane_in sheet.now) (units_shown sheet.now)) }
{
    let units = sheet.units(alloc)?;
    lanes_for(alloc, sheet, units.as_slice())
}

/// The plan of a run: the events, drives and requests that a sheet shows.
pub fn plan_of(alloc: Global, sheet: &Sheet<'_>) -> Result<Plan, AllocError>
    ensures { IfOk result (λ plan. Plans sheet.now plan) }
{
    let rows = rows_of(alloc, sheet)?;
    let lanes = lanes_of(alloc, sheet)?;
    Ok(Plan {
        window: sheet.window,
        rows,
        lanes,
    })
}

/// The requests of a plan as a table: a line with the names of the fields, and then a line for each request, with tabs between fields:
/// id, unit, whether it reads or writes, the cylinder of its first block, the line at which it was asked for, its answer, and the
/// events for which it was queued, on the way, ready, and transferring.
pub fn requests_text(alloc: Global, plan: &Plan) -> Result<Vec<u8>, AllocError>
    ensures { IfOk result (λ text. text.items ≡ requests_of plan.now.rows.items) }
{
    let mut out = Vec::new(alloc);
    put_names(&mut out)?;
    for request in plan.rows.iter() {
        put_row(&mut out, request)?;
    }
    Ok(out)
}

/// Puts what requests come to, after the name of their line, and how far arms moved.
#[tactic(auto, unfolding(crate::specs::Figures::with_figures))]
fn put_figures(
    out: &mut Vec<u8>,
    first: Field,
    figures: &Figures,
    travel: u64,
    as_asked: u64,
) -> Result<(), AllocError>
    ensures { OnOk result (out.new.items ≡ with_figures (field_text first) figures.now travel as_asked out.old.items) }
{
    put_line(
        out,
        first,
        &[
            Field::Number(figures.requests),
            Field::Number(figures.ok),
            Field::Number(figures.turned),
            figures.mean(),
            figures.median(),
            Field::Number(figures.greatest),
            Field::Number(travel),
            Field::Number(as_asked),
        ],
    )
}

/// Puts the names of the fields of a summary.
#[tactic(auto, unfolding(crate::specs::Figures::names))]
fn put_summary_names(out: &mut Vec<u8>) -> Result<(), AllocError>
    ensures { OnOk result (out.new.items ≡ out.old.items ++ names) }
{
    put(
        out,
        "unit\trequests\tok\tout of order\tmean wait\tmedian wait\tgreatest wait\tcylinders moved\tin the order asked\n",
    )
}

/// Puts the line of a drive.
fn put_drive(
    alloc: Global,
    out: &mut Vec<u8>,
    rows: &[Request],
    lane: &Lane,
) -> Result<(), AllocError>
    ensures { OnOk result (Sums rows.now lane.now out.old.items out.new.items) }
{
    let requests = of_unit(alloc, rows, lane.unit)?;
    let figures = figures_of(alloc, requests.as_slice())?;
    put_figures(
        out,
        Field::Number(u64::from(lane.unit)),
        &figures,
        lane.travel,
        lane.as_asked,
    )
}

/// A summary as a table: a line with the names of the fields, and then a line for the requests of each drive, and one for those of all.
pub fn summary_text(alloc: Global, plan: &Plan) -> Result<Vec<u8>, AllocError>
    ensures { IfOk result (λ text. IsSummary plan.now text.items) }
{
    let mut out = Vec::new(alloc);
    put_summary_names(&mut out)?;
    let mut travel = 0u64;
    let mut as_asked = 0u64;
    for lane in plan.lanes.iter() {
        put_drive(alloc, &mut out, plan.rows.as_slice(), lane)?;
        travel = plus(travel, lane.travel);
        as_asked = plus(as_asked, lane.as_asked);
    }
    let figures = figures_of(alloc, plan.rows.as_slice())?;
    put_figures(&mut out, Field::Word("all"), &figures, travel, as_asked)?;
    Ok(out)
}
