//! Strips: a sign for each column.

use crate::ChartLine;
use crate::line::{line_of, line_with};
use crate::rows::Row;
use drive_pictures::{Cell, mark_sign};
use run_picture::Column;
use run_plan::{cell_at, holding};

/// What a strip shows.
#[derive(Clone, Copy)]
enum View<'a> {
    /// The digit, at a place, of the number of the script's line, if another line begins.
    Line { place: u64 },
    /// The drive that holds an adapter after most of a column's events.
    Holder { units: &'a [u8], adapter: u8 },
    /// How many drives of an adapter position at once, at most.
    Together { adapter: u8 },
    /// What happened at a drive.
    Marks { unit: u8 },
    /// Whether a drive was offline, or else locked.
    Conditions { unit: u8 },
    /// Where the arm of a drive was, in ninths of a cylinder `top`.
    Arm { unit: u8, top: u32 },
    /// How many requests of a drive waited, at most.
    Queue { unit: u8 },
}

/// The first byte of a sign.
fn first_byte(sign: &str) -> u8 {
    match sign.as_bytes() {
        [byte, ..] => *byte,
        [] => b' ',
    }
}

/// The last digit of a number.
fn digit_byte(number: u64) -> u8 {
    b'0' + (number % 10) as u8
}

/// A count as a digit: blank for none, a plus above nine.
fn count_byte(count: u64) -> u8 {
    match count {
        0 => b' ',
        1..=9 => digit_byte(count),
        _ => b'+',
    }
}

/// The condition of a drive.
fn condition_byte(cell: &Cell) -> u8 {
    if cell.offline {
        b'-'
    } else if cell.locked {
        b'='
    } else {
        b' '
    }
}

/// Where an arm is, from 0 to 9.
fn arm_byte(cylinder: u32, top: u32) -> u8 {
    let ninth = u64::from(cylinder) * 9 / u64::from(top.max(1));
    digit_byte(ninth.min(9))
}

/// The digit of a line's number at a place; blank if the number has none there, or if the line before it is the same.
fn line_byte(place: u64, before: u32, line: u32) -> u8 {
    if line == before || place > u64::from(line) {
        b' '
    } else {
        digit_byte(u64::from(line) / place.max(1))
    }
}

/// The drive of an adapter that holds the adapter after most of a column's events, by its number at the adapter.
fn holder_byte(column: &Column, units: &[u8], adapter: u8) -> u8 {
    let mut most = 0;
    let mut sign = b' ';
    for unit in units.iter() {
        let held = holding(&cell_at(column, *unit).tally);
        if *unit / 8 == adapter && most < held {
            most = held;
            sign = digit_byte(u64::from(*unit % 8));
        }
    }
    sign
}

/// How many drives of an adapter position at once in a column, at most.
fn together_byte(column: &Column, adapter: u8) -> u8 {
    match column.head.together.get(usize::from(adapter)) {
        Some(count) => count_byte(*count as u64),
        None => b' ',
    }
}

/// The sign of a column; `before` is the line of the column before it.
fn sign(column: &Column, before: u32, view: View<'_>) -> u8 {
    match view {
        View::Line { place } => line_byte(place, before, column.head.line),
        View::Holder { units, adapter } => holder_byte(column, units, adapter),
        View::Together { adapter } => together_byte(column, adapter),
        View::Marks { unit } => {
            let cell = cell_at(column, unit);
            first_byte(mark_sign(cell.mark.later(cell.signal)))
        }
        View::Conditions { unit } => condition_byte(&cell_at(column, unit)),
        View::Arm { unit, top } => arm_byte(cell_at(column, unit).cylinder, top),
        View::Queue { unit } => count_byte(cell_at(column, unit).waiting),
    }
}

/// A row of a view.
fn row_of(label: ChartLine, columns: &[Column], view: View<'_>) -> Row {
    let mut strip = ChartLine::new();
    let mut before = 0;
    for column in columns.iter() {
        strip.put_byte(sign(column, before, view));
        before = column.head.line;
    }
    Row { label, strip }
}

/// The digits of the script's lines at a place.
fn place_row(label: &[u8], columns: &[Column], place: u64) -> Row {
    row_of(line_of(label), columns, View::Line { place })
}

/// The numbers of the script's lines, where they begin, a row for each place of their digits.
pub(crate) fn line_rows(columns: &[Column]) -> [Row; 7] {
    [
        place_row(b"", columns, 1_000_000),
        place_row(b"", columns, 100_000),
        place_row(b"", columns, 10_000),
        place_row(b"", columns, 1_000),
        place_row(b"", columns, 100),
        place_row(b"", columns, 10),
        place_row(b"line", columns, 1),
    ]
}

/// Who holds an adapter, and how many of its drives position.
pub(crate) fn adapter_rows(columns: &[Column], units: &[u8], adapter: u8) -> [Row; 2] {
    let mut label = line_with(b"adapter ", u64::from(adapter));
    label.put(b" held by");
    let together = View::Together { adapter };
    [
        row_of(label, columns, View::Holder { units, adapter }),
        row_of(line_of(b"  positioning"), columns, together),
    ]
}

/// What befell a drive, its condition, its arm, from 0 to a cylinder `top`, and its queue.
pub(crate) fn unit_rows(columns: &[Column], unit: u8, top: u32) -> [Row; 4] {
    let conditions = View::Conditions { unit };
    let arm = line_with(b"  arm to ", u64::from(top));
    [
        row_of(line_of(b"  marks"), columns, View::Marks { unit }),
        row_of(line_of(b"  off, locked"), columns, conditions),
        row_of(arm, columns, View::Arm { unit, top }),
        row_of(line_of(b"  queue"), columns, View::Queue { unit }),
    ]
}
