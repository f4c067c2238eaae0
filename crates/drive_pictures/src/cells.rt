//! What is seen of a drive in a column: several events as one.

ghost use Rattle.std.specs.Prelude.{◌≡◌};
ghost use Rattle.drive_pictures.specs.Cells.{new_tally, tallied, new_cell};

use crate::arms::Path;
use crate::counts::plus;
use crate::letters::Letter;
use crate::marks::Mark;

/// After how many events each letter stands, by its number.
#[derive(Clone, Copy)]
pub struct Tally {
    pub counts: [u64; 11],
}

/// A drive in a column: its letters; where its arm was seen, and where it is after the last event; the most requests that
/// wait; the gravest mark and signal, the widest offset in hundreds, the highest number of a try; and its condition after any
/// event.
#[derive(Clone, Copy, Default)]
pub struct Cell {
    pub tally: Tally,
    pub path: Option<Path>,
    pub cylinder: u32,
    pub waiting: u64,
    pub mark: Mark,
    pub signal: Mark,
    pub code: u32,
    pub tried: u32,
    pub offline: bool,
    pub locked: bool,
}

impl Default for Tally {
    ghost is_default = { λ tally. tally ≡ new_tally };

    fn default() -> Tally {
        Tally { counts: [0; 11] }
    }
}

impl Tally {
    /// Counts one more event, after which a letter stands.
    pub(crate) fn count(&mut self, letter: Letter)
        ensures { self.new ≡ tallied letter self.old }
    {
        let at = letter.number();
        self.counts[at] = plus(self.counts[at], 1);
    }
}

impl Cell {
    /// A cell of no event.
    pub fn new() -> Cell
        ensures { result ≡ new_cell }
    {
        Cell::default()
    }
}
