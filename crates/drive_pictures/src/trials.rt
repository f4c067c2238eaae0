//! The request in hand at a drive, and the tries at its block.

ghost use Rattle.std.specs.Prelude.{◌≡◌};
ghost use Rattle.drive_pictures.specs.Trials.{is_at, in_hand, transfer_letter, wanted, verdict_trial, verdict_letter};

use crate::counts::plus;
use crate::letters::Letter;
use hardware_table::Moved;

/// The request in hand: its place among the requests, the blocks that it wants, the sectors left of its segment, and at the
/// block at hand the tries that failed and the marks that were met.
#[derive(Clone, Copy, Default)]
pub struct Trial {
    pub hand: Option<usize>,
    pub want: u32,
    pub left: u32,
    pub fails: u32,
    pub marks: u64,
}

impl Trial {
    /// Whether the request at a place is in hand.
    pub(crate) fn is_at(&self, place: usize) -> bool
        ensures { result ≡ is_at self.now.hand place }
    {
        match self.hand {
            Some(other) => other == place,
            None => false,
        }
    }

    /// Takes the request at a place in hand. It wants nothing yet, unless it was in hand before.
    pub(crate) fn take(&mut self, place: usize)
        ensures { self.new ≡ in_hand place self.old }
    {
        if !self.is_at(place) {
            self.want = 0;
        }
        self.hand = Some(place);
    }

    /// The letter of a transfer.
    pub(crate) fn transfer_letter(&self) -> Letter
        ensures { result ≡ transfer_letter self.now }
    {
        if self.marks > 0 {
            Letter::Replaces
        } else if self.fails > 0 {
            Letter::Retries
        } else {
            Letter::Moves
        }
    }

    /// A segment of `count` sectors begins.
    pub(crate) fn begin(&mut self, count: u32)
        ensures { self.new ≡ wanted count self.old }
    {
        if self.want == 0 {
            self.want = count;
        }
        self.left = count;
    }

    /// A sector was tried.
    pub(crate) fn move_sector(&mut self, verdict: Moved)
        ensures { self.new ≡ verdict_trial verdict self.old }
    {
        self.left = self.left.saturating_sub(1);
        match verdict {
            Moved::Clean | Moved::Burst { .. } => {
                self.fails = 0;
                self.marks = 0;
            }
            Moved::Marked => {
                self.fails = 0;
                self.marks = plus(self.marks, 1);
            }
            _ => {}
        }
    }
}

/// The letter after a sector's verdict, if `left` sectors are left.
pub(crate) fn verdict_letter(verdict: Moved, left: u32) -> Letter
    ensures { result ≡ verdict_letter verdict left }
{
    match verdict {
        Moved::Clean if left > 0 => Letter::Moves,
        _ => Letter::Moved,
    }
}
