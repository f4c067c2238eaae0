//! The letters of a drive in a column.

ghost use Rattle.std.specs.Prelude.{◌≡◌, fold};
ghost use Rattle.run_picture.specs.Fold.{drive_at};
ghost use Rattle.run_plan.specs.Letters.{at, standing, holding, count_of, oftener, lead_of};

use drive_pictures::{Cell, Letter, Tally, all_letters, plus};
use run_picture::Column;

/// After how many events a letter stands that is not idle.
fn at(tally: &Tally, letter: Letter) -> u64
    ensures { result ≡ at tally.now letter }
{
    tally.counts[letter.number()]
}

/// After how many events some letters stand.
fn standing(tally: &Tally, letters: &[Letter]) -> u64
    ensures { result ≡ standing tally.now letters.now }
{
    let mut sum = 0u64;
    for letter in letters.iter() {
        sum = plus(sum, at(tally, *letter));
    }
    sum
}

/// After how many events of a column a drive holds its adapter.
pub fn holding(tally: &Tally) -> u64
    ensures { result ≡ holding tally.now }
{
    standing(tally, &all_letters()[7..])
}

/// After how many of a column's events a letter stands; the column has `events` of them.
pub fn count_of(tally: &Tally, events: u64, letter: Letter) -> u64
    ensures { result ≡ count_of tally.now events letter }
{
    match letter {
        Letter::Idle => events.saturating_sub(standing(tally, &all_letters()[1..])),
        letter => at(tally, letter),
    }
}

/// The letter of more events, of two; the second one if both are of as many.
#[tactic(auto, unfolding(crate::specs::Letters::oftener))]
fn oftener(tally: &Tally, events: u64, letter: Letter, other: Letter) -> Letter
    ensures { result ≡ oftener tally.now events letter other }
{
    if count_of(tally, events, letter) <= count_of(tally, events, other) {
        other
    } else {
        letter
    }
}

/// The letter of most of a column's events, of some letters: if several have as many, the last of these, and idle if there is none.
fn oftenest(letters: &[Letter], tally: &Tally, events: u64) -> Letter
    ensures { result ≡ fold (oftener tally.now events) Letter.Idle letters.now }
{
    let mut lead = Letter::Idle;
    for letter in letters.iter() {
        lead = oftener(tally, events, lead, *letter);
    }
    lead
}

/// The letter of most of a column's events; if several letters have as many, the last of these.
#[tactic(auto, unfolding(crate::specs::Letters::lead_of))]
pub fn lead(tally: &Tally, events: u64) -> Letter
    ensures { result ≡ lead_of tally.now events }
{
    oftenest(all_letters(), tally, events)
}

/// What is seen of a drive in a column.
pub fn cell_at(column: &Column, unit: u8) -> Cell
    ensures { result ≡ (drive_at column.now.drives unit).cell }
{
    match column.drives.get(usize::from(unit)) {
        Some(drive) => drive.cell,
        None => Cell::new(),
    }
}
