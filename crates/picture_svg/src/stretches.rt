//! Stretches of columns in which the same holds.

ghost use Rattle.std.specs.Prelude.{◌≡◌, ◌<◌, ◌≤◌, IsTrue, get_or};
ghost use Rattle.std.specs.List.{list_all};
ghost use Rattle.drive_pictures.specs.Letters.{all_letters};
ghost use Rattle.picture_svg.specs.Scales.{column_at};
ghost use Rattle.picture_svg.specs.Stretches.{is_held_alike, is_done_alike, AreAlike, IsStretch};

use crate::holders::{held_by, is_on};
use crate::scene::{Lane, Scene, Stretch};
use drive_pictures::{Letter, all_letters};
use run_picture::Column;
use run_plan::{cell_at, count_of, letter_at};

/// What is drawn of columns.
#[derive(Clone, Copy)]
pub enum Track {
    /// The lines of the script.
    Script,
    /// Which drives hold an adapter, and how often.
    Held(u8),
    /// How many drives of an adapter position.
    Positioning(u8),
    /// How many requests of a unit wait; the second number is the most of a column.
    Waiting(u8, u64),
    /// Whether a unit is offline, or is locked.
    Offline(u8),
    Locked(u8),
    /// Which letters a unit has, and how often; and which of them leads.
    Letters(u8),
    Lead(u8),
}

/// How many drives of an adapter position in a column, at most.
pub fn positioning(column: &Column, adapter: u8) -> u64
    ensures { result ≡ get_or column.now.head.together adapter 0 }
{
    match column.head.together.get(usize::from(adapter)) {
        Some(count) => *count as u64,
        None => 0,
    }
}

/// Whether a drive holds the adapter equally often in both columns, or is one of another adapter.
fn is_held_alike(column: &Column, next: &Column, adapter: u8, lane: &Lane) -> bool
    ensures { result ≡ is_held_alike column.now next.now adapter lane.now }
{
    !is_on(lane, adapter) || held_by(column, lane) == held_by(next, lane)
}

/// Whether a letter of a drive stands equally often in both columns.
fn is_done_alike(column: &Column, next: &Column, unit: u8, letter: Letter) -> bool
    ensures { result ≡ is_done_alike column.now next.now unit letter }
{
    let here = count_of(&cell_at(column, unit).tally, column.head.events, letter);
    here == count_of(&cell_at(next, unit).tally, next.head.events, letter)
}

/// Whether all drives hold the adapter equally often in both columns.
fn are_held_alike(column: &Column, next: &Column, adapter: u8, lanes: &[Lane]) -> bool
    ensures { result ≡ list_all (is_held_alike column.now next.now adapter) lanes.now }
{
    lanes
        .iter()
        .all(|lane| is_held_alike(column, next, adapter, lane))
}

/// Whether all letters of a drive stand equally often in both columns.
fn are_done_alike(column: &Column, next: &Column, unit: u8) -> bool
    ensures { result ≡ list_all (is_done_alike column.now next.now unit) all_letters }
{
    all_letters()
        .iter()
        .all(|letter| is_done_alike(column, next, unit, *letter))
}

/// Whether the same is drawn of both columns.
fn are_alike(lanes: &[Lane], column: &Column, next: &Column, track: Track) -> bool
    ensures { IsTrue result → AreAlike lanes.now track column.now next.now }
{
    match track {
        Track::Script => column.head.line == next.head.line,
        Track::Held(adapter) => are_held_alike(column, next, adapter, lanes),
        Track::Positioning(adapter) => positioning(column, adapter) == positioning(next, adapter),
        Track::Waiting(unit, _) => cell_at(column, unit).waiting == cell_at(next, unit).waiting,
        Track::Offline(unit) => cell_at(column, unit).offline == cell_at(next, unit).offline,
        Track::Locked(unit) => cell_at(column, unit).locked == cell_at(next, unit).locked,
        Track::Letters(unit) => {
            column.head.events == next.head.events && are_done_alike(column, next, unit)
        }
        Track::Lead(unit) => letter_at(column, unit) == letter_at(next, unit),
    }
}

/// Whether a column is as the column before it.
fn goes_on(scene: &Scene<'_, '_>, before: usize, column: usize, track: Track) -> bool
    ensures { IsTrue result → AreAlike scene.now.lanes.now track (column_at scene.now.sheet.now.run.now.columns before) (column_at scene.now.sheet.now.run.now.columns column) }
{
    let columns = scene.sheet.columns();
    match (columns.get(before), columns.get(column)) {
        (Some(before), Some(column)) => are_alike(scene.lanes, before, column, track),
        _ => false,
    }
}

/// The stretch of a track that begins at a column, among those up to another.
pub fn next_stretch(scene: &Scene<'_, '_>, track: Track, from: usize, to: usize) -> Stretch
    requires { from < to }
    ensures begins { result.from ≡ from }
    ensures some { from < result.to }
    ensures inside { result.to ≤ to }
    ensures same { IsStretch scene.now track from result.to }
{
    let mut end = from + 1;
    'columns: while end < to {
        if !goes_on(scene, end - 1, end, track) {
            return Stretch { from, to: end };
        }
        end += 1;
    }
    Stretch { from, to: end }
}
