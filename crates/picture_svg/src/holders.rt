//! Which drives hold an adapter, and in how many events of a column.

ghost use Rattle.std.specs.Prelude.{◌≡◌, fold};
ghost use Rattle.picture_svg.specs.Holders.{is_on, held_by, with_held, held, all_held};

use crate::scene::Lane;
use drive_pictures::plus;
use run_picture::Column;
use run_plan::{cell_at, holding};

/// Whether a drive is one of the adapter's.
pub fn is_on(lane: &Lane, adapter: u8) -> bool
    ensures { result ≡ is_on adapter lane.now }
{
    lane.unit / 8 == adapter
}

/// After how many events of a column a drive holds its adapter.
pub fn held_by(column: &Column, lane: &Lane) -> u64
    ensures { result ≡ held_by column.now lane.now }
{
    holding(&cell_at(column, lane.unit).tally)
}

/// A sum, and after how many events of a column a drive holds the adapter, if it is one of the adapter's.
fn with_held(column: &Column, adapter: u8, sum: u64, lane: &Lane) -> u64
    ensures { result ≡ with_held column.now adapter sum lane.now }
{
    if is_on(lane, adapter) {
        plus(sum, held_by(column, lane))
    } else {
        sum
    }
}

/// After how many events of a column a drive of the adapter holds it.
pub fn held(column: &Column, lanes: &[Lane], adapter: u8) -> u64
    ensures { result ≡ held column.now lanes.now adapter }
{
    let mut sum = 0;
    for lane in lanes.iter() {
        sum = with_held(column, adapter, sum, lane);
    }
    sum
}

/// After how many events of some columns a drive of the adapter holds it.
pub fn all_held(columns: &[Column], lanes: &[Lane], adapter: u8) -> u64
    ensures { result ≡ all_held columns.now lanes.now adapter }
{
    let mut sum = 0;
    for column in columns.iter() {
        sum = plus(sum, held(column, lanes, adapter));
    }
    sum
}
