//! The marks of an event: what happened at a drive.

ghost use Rattle.std.specs.Prelude.{◌≡◌, ◌<◌};
ghost use Rattle.drive_pictures.specs.Marks.{weight_of, later, is_trouble, mark_of};

use hardware_table::Moved;

/// What happened at a drive in an event. The last of these marks is the gravest.
#[derive(Clone, Copy, Default)]
pub enum Mark {
    /// Nothing.
    #[default]
    Blank,
    AttentionUp,
    AttentionTaken,
    InterruptTaken,
    /// A request was asked for.
    Asked,
    SectorMoved,
    /// A request was answered ok.
    Answered,
    /// The pack was turned.
    Turned,
    FaultArmed,
    NoiseArmed,
    /// The volume is acknowledged.
    Acknowledged,
    Unlocked,
    Locked,
    Online,
    Offline,
    TryFailed,
    /// An offset is set outwards.
    OffsetPlus,
    /// An offset is set inwards.
    OffsetMinus,
    /// A burst was repaired.
    Burst,
    /// A sector is marked.
    MarkedSector,
    /// A fault struck.
    Fault,
    /// A sector cannot be repaired.
    Hard,
    /// A sector was tried offline.
    TriedOffline,
    /// A request was stopped.
    Stopped,
}

impl Mark {
    /// The place of a mark among all marks, counted from the lightest.
    pub(crate) fn weight(self) -> u32
        ensures value { result ≡ weight_of self }
        ensures bound { result < 24 }
    {
        self as u32
    }

    /// The graver of two marks.
    pub fn later(self, other: Mark) -> Mark
        ensures { result ≡ later self other }
    {
        if self.weight() < other.weight() {
            other
        } else {
            self
        }
    }

    /// Whether a sector could not be moved, or a request was stopped.
    pub(crate) fn is_trouble(self) -> bool
        ensures { result ≡ is_trouble self }
    {
        Mark::Burst.weight() <= self.weight()
    }
}

/// The mark of a sector's verdict.
pub(crate) fn mark_of(verdict: Moved) -> Mark
    ensures { result ≡ mark_of verdict }
{
    match verdict {
        Moved::Clean => Mark::SectorMoved,
        Moved::Burst { .. } => Mark::Burst,
        Moved::Hard => Mark::Hard,
        Moved::Marked => Mark::MarkedSector,
        Moved::Faulted(_) => Mark::Fault,
        Moved::Offline => Mark::TriedOffline,
    }
}
