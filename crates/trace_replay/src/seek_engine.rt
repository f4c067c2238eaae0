//! Positioning: whether a unit seeks or searches before a transfer, and the states in which it does so.
//!
//! What is proved: `decide` is exact; `position` gives Queued exactly for Ready; the states are moved from one to the
//! next, and the goal of a positioning is never Ready.

ghost use Rattle.std.specs.Prelude.{◌≡◌, ◌≢◌, ◌<◌, ◌↔◌, IfOk, IsErr};
ghost use Rattle.pack_geometry.specs.Geometry.{cylinders_of, sectors_of, IsInside};
ghost use Rattle.trace_replay.specs.declared.seek_engine.Position.TheVariants.{Ready};
ghost use Rattle.trace_replay.specs.Seek.{position_for};

use pack_geometry::{DriveKind, Place, geometry_of};
use std::marker::Model;

// How many sectors before its target a search ends.
const SEARCH_AHEAD: u32 = 3;

/// What a unit does before its transfer: nothing, a SEARCH for a sector of a cylinder, or a SEEK to a cylinder.
#[derive(Clone, Copy, PartialEq, Eq)]
pub enum Position {
    Ready,
    Search { cylinder: u32, sector: u32 },
    Seek { cylinder: u32 },
}

/// How a unit positions for a try at `target`, if its heads are on the cylinder `here` and the look-ahead sector is `look`.
///
/// A first try is ready if the unit is on the target's cylinder and the target comes 1 to 5 sectors after `look`;
/// otherwise the unit searches for the sector 3 before the target. A later try is ready if the unit is on the target's
/// cylinder; otherwise the unit seeks.
pub fn decide(kind: DriveKind, here: u32, look: u32, target: Place, first: bool) -> Position
    requires here { here < cylinders_of kind }
    requires look { look < sectors_of kind }
    requires target { IsInside kind target }
    ensures { result ≡ position_for kind here look target first }
{
    let on_cylinder = here == target.cylinder;
    if !first {
        return if on_cylinder {
            Position::Ready
        } else {
            Position::Seek {
                cylinder: target.cylinder,
            }
        };
    }
    let sectors = geometry_of(kind).sectors;
    let distance = (target.sector + sectors - look) % sectors;
    if on_cylinder && (1..=5).contains(&distance) {
        Position::Ready
    } else {
        Position::Search {
            cylinder: target.cylinder,
            sector: (target.sector + sectors - SEARCH_AHEAD) % sectors,
        }
    }
}

/// A unit that has begun nothing for its request.
#[derive(Drop)]
#[non_exhaustive]
pub struct Waiting;

/// A unit whose positioning has begun and has not ended. Contracts see it as its goal.
#[derive(Drop)]
pub struct Positioning {
    goal: Position,
}

/// A unit that waits for its adapter.
#[derive(Drop)]
#[non_exhaustive]
pub struct Queued;

impl Model for Positioning {
    ghost use Rattle.std.specs.Prelude.{◌≢◌};
    ghost use Rattle.trace_replay.specs.declared.seek_engine.Position.{Position};
    ghost use Rattle.trace_replay.specs.declared.seek_engine.Position.TheVariants.{Ready};

    ghost Value = { Position };

    ghost view = { λ p. p.goal };

    ghost invariant = { λ p. p.goal ≢ Ready };
}

impl Waiting {
    /// Every request and every step of a retry begins here.
    pub fn new() -> Waiting
        ensures { result ≡ record {} }
    {
        Waiting
    }

    /// Begins to position: Queued exactly for `Ready`, and otherwise a positioning that keeps the goal.
    pub fn position(self, goal: Position) -> Result<Positioning, Queued>
        ensures ready { IsErr result ↔ (goal ≡ Ready) }
        ensures goal { IfOk result (λ positioning. positioning ≡ goal) }
    {
        match goal {
            Position::Ready => Err(Queued),
            Position::Search { .. } | Position::Seek { .. } => Ok(Positioning { goal }),
        }
    }
}

impl Positioning {
    /// The goal for which the unit positions, which is never `Ready`.
    pub fn goal(&self) -> Position
        ensures goal { result ≡ self.now }
        ensures moving { result ≢ Ready }
    {
        self.goal
    }

    /// Ends the positioning.
    pub fn arrived(self) -> Queued
        ensures { result ≡ record {} }
    {
        Queued
    }
}
