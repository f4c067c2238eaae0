//! A panel of a chart: some columns.

ghost use Rattle.std.specs.Prelude.{◌≡◌, ◌<◌, length, OnOk};
ghost use Rattle.run_plan.specs.Units.{units_shown};
ghost use Rattle.run_plan.specs.Lanes.{letter_at};
ghost use Rattle.picture_chart.specs.Pages.{lane_line, unit_label, Grows, HasLane, HasPanel, Lanes};

use crate::ChartLine;
use crate::line::Done;
use crate::rows::{LABEL, put_line, put_rows};
use crate::strip::{adapter_rows, line_rows, unit_rows};
use drive_pictures::{letter_sign, plus};
use itoa::Buffer;
use run_picture::Column;
use run_plan::{Sheet, letter_at};

/// How many columns the number of an event has.
const STEP: usize = 12;

/// The drives of a chart, and the cylinder at the top of the charts of all arms.
#[derive(Clone, Copy)]
pub(crate) struct Drives<'a> {
    pub(crate) units: &'a [u8],
    pub(crate) top: u32,
}

/// The name of a drive.
fn unit_label(sheet: &Sheet<'_>, unit: u8) -> ChartLine
    ensures { result ≡ unit_label sheet.now unit }
{
    let mut label = ChartLine::new();
    label.put(b"unit ");
    label.put_number(u64::from(unit));
    label.put(b" ");
    label.put(sheet.kind_of(unit).as_bytes());
    label
}

/// The lane of a drive: its name, and the sign of what it did in each column.
#[tactic(auto, unfolding(crate::specs::Pages::lane_line))]
fn lane_line(sheet: &Sheet<'_>, columns: &[Column], unit: u8) -> ChartLine
    ensures { result ≡ lane_line sheet.now columns.now unit }
{
    let label = unit_label(sheet, unit);
    let mut line = ChartLine::new();
    line.put_left(label.as_bytes(), LABEL);
    for column in columns.iter() {
        line.put(letter_sign(letter_at(column, unit)).as_bytes());
    }
    line
}

/// Puts the rows of a drive's adapter, if the drive before it is at another adapter.
fn put_adapter(
    page: &mut Vec<ChartLine>,
    columns: &[Column],
    units: &[u8],
    before: Option<u8>,
    unit: u8,
) -> Done
    ensures { OnOk result (Grows page.old.items page.new.items) }
{
    let adapter = unit / 8;
    if before == Some(adapter) {
        put_rows(page, &[])
    } else {
        put_rows(page, &adapter_rows(columns, units, adapter))
    }
}

/// Puts the rows of a drive, and before it those of its adapter.
fn put_unit(
    page: &mut Vec<ChartLine>,
    sheet: &Sheet<'_>,
    columns: &[Column],
    drives: Drives<'_>,
    before: Option<u8>,
    unit: u8,
) -> Done
    ensures { OnOk result (HasLane sheet.now columns.now unit page.old.items page.new.items) }
{
    put_adapter(page, columns, drives.units, before, unit)?;
    put_line(page, lane_line(sheet, columns, unit))?;
    put_rows(page, &unit_rows(columns, unit, drives.top))
}

/// Puts the rows of the drives.
fn put_units(
    page: &mut Vec<ChartLine>,
    sheet: &Sheet<'_>,
    columns: &[Column],
    drives: Drives<'_>,
) -> Done
    ensures { OnOk result (Lanes sheet.now columns.now drives.entry.units.now (length drives.entry.units.now) page.old.items page.new.items) }
{
    let mut before = None;
    for unit in drives.units.iter() {
        put_unit(page, sheet, columns, drives, before, *unit)?;
        before = Some(*unit / 8);
    }
    Ok(())
}

/// The numbers of the events at every twelfth column, from the column at a place on.
fn event_line(sheet: &Sheet<'_>, from: usize, count: usize) -> ChartLine {
    let mut line = ChartLine::new();
    line.put_left(b"event", LABEL);
    for place in 0..count {
        if place % STEP == 0 {
            let event = plus(sheet.window.edge(from.saturating_add(place)), 1);
            let mut buffer = Buffer::new();
            line.put_left(buffer.format(event).as_bytes(), STEP);
        }
    }
    line
}

/// Puts the numbers of the events, and an empty line.
fn put_foot(page: &mut Vec<ChartLine>, sheet: &Sheet<'_>, from: usize, count: usize) -> Done
    ensures { OnOk result (Grows page.old.items page.new.items) }
{
    put_line(page, event_line(sheet, from, count))?;
    put_line(page, ChartLine::new())
}

/// Puts a panel of some columns; the place of the first one is given.
pub(crate) fn put_panel(
    page: &mut Vec<ChartLine>,
    sheet: &Sheet<'_>,
    drives: Drives<'_>,
    columns: &[Column],
    from: usize,
) -> Done
    requires { drives.units.now ≡ units_shown sheet.now }
    ensures { OnOk result (HasPanel sheet.now columns.now page.old.items page.new.items) }
{
    put_rows(page, &line_rows(columns))?;
    put_units(page, sheet, columns, drives)?;
    put_foot(page, sheet, from, columns.len())
}
