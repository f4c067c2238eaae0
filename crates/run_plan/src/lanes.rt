//! The lanes of a plan: what each drive did.

ghost use Rattle.std.specs.Prelude.{◌≡◌, map, IfOk};
ghost use Rattle.run_picture.specs.Fold.{drive_at};
ghost use Rattle.run_plan.specs.Lanes.{letter_at, point_at, told, lane_in};

use crate::bars::{Bar, bars_of};
use crate::cells::{cell_at, lead};
use crate::sheet::Sheet;
use drive_pictures::{Drive, Letter};
use run_picture::Column;
use std::alloc::{AllocError, Global};

/// Two numbers of a column: the cylinder of an arm after its last event, and the most requests that waited in it.
#[derive(Clone, Copy)]
pub struct Point {
    pub cylinder: u32,
    pub waiting: u64,
}

/// A drive: its unit and its kind, which is empty if no script declares it; its bars, in order; a point for each column; and for
/// the whole run how many cylinders its arm moved over, and how many it would have moved over in the order asked.
#[derive(Drop)]
pub struct Lane {
    pub unit: u8,
    pub kind: &'static str,
    pub bars: Vec<Bar>,
    pub points: Vec<Point>,
    pub travel: u64,
    pub as_asked: u64,
}

/// What a unit did in most events of a column.
pub fn letter_at(column: &Column, unit: u8) -> Letter
    ensures { result ≡ letter_at unit column.now }
{
    lead(&cell_at(column, unit).tally, column.head.events)
}

/// What a unit did, column by column.
fn letters_of(alloc: Global, columns: &[Column], unit: u8) -> Result<Vec<Letter>, AllocError>
    ensures { IfOk result (λ letters. letters.items ≡ map (letter_at unit) columns.now) }
{
    let letters = columns.iter().map(|column| letter_at(column, unit));
    letters.collect(alloc)
}

/// Where a unit's arm was in a column, and how many requests waited.
fn point_at(column: &Column, unit: u8) -> Point
    ensures { result ≡ point_at unit column.now }
{
    let cell = cell_at(column, unit);
    Point {
        cylinder: cell.cylinder,
        waiting: cell.waiting,
    }
}

/// The points of a unit.
fn points_of(alloc: Global, columns: &[Column], unit: u8) -> Result<Vec<Point>, AllocError>
    ensures { IfOk result (λ points. points.items ≡ map (point_at unit) columns.now) }
{
    let points = columns.iter().map(|column| point_at(column, unit));
    points.collect(alloc)
}

/// The drive of a unit.
fn drive_at(drives: &[Drive], unit: u8) -> Drive
    ensures { result ≡ drive_at drives.now unit }
{
    match drives.get(usize::from(unit)) {
        Some(drive) => *drive,
        None => Drive::new(None),
    }
}

/// The lane of a unit.
pub(crate) fn lane_of(alloc: Global, sheet: &Sheet<'_>, unit: u8) -> Result<Lane, AllocError>
    ensures { IfOk result (λ lane. told lane ≡ lane_in sheet.now unit) }
{
    let letters = letters_of(alloc, sheet.columns(), unit)?;
    let bars = bars_of(alloc, letters.as_slice())?;
    let points = points_of(alloc, sheet.columns(), unit)?;
    let drive = drive_at(sheet.run.drives(), unit);
    Ok(Lane {
        unit,
        kind: sheet.kind_of(unit),
        bars,
        points,
        travel: drive.arm.travel,
        as_asked: drive.queue.as_asked,
    })
}
