//! The bytes of the driver: for which map of blocks the driver and its packs stand between any two acts, whatever led to
//! them. The functions here do nothing: each stands for a law.
//!
//! Defined in `specs/`: what homes, buffers and tables hold for a map (`Bears`). The answers that wait are its steps.

ghost use Rattle.driver_laws.specs.shown.QuietLaws.{RestBears, NewRests, ActsBear, SubmissionsBear, EventsBear, TakingsBear, WritesStay};

/// A driver with nothing outstanding stands for what its packs hold, if its tables are those of the packs. This holds of a new driver.
pub fn rest_law()
    ensures rest { RestBears }
    ensures new { NewRests }
{}

/// Each act keeps the map that the driver stands for. The acts of each submission and event do the same, even if a
/// failure of the trace cut them short. An answer that is taken leads to the map after it.
pub fn calls_law()
    ensures act { ActsBear }
    ensures submit { SubmissionsBear }
    ensures event { EventsBear }
    ensures taken { TakingsBear }
{}

/// No act changes the blocks of a write: its buffer holds what was asked until its answer is taken.
pub fn writes_law()
    ensures { WritesStay }
{}
