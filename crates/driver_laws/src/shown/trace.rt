//! The lines of each call of the driver follow in the replay of the trace, and the replay after them stands for the
//! driver and its packs. The functions here do nothing: each stands for a law.
//!
//! Defined in `specs/`: a run of the machine so far, with its lines and packs (`IsSoFar`, `IsDraining`).

ghost use Rattle.driver_laws.specs.shown.Runs.{RunsStart, EventsGo, SubmissionsGo, AnswersGo, EmptyDrainsGo, DrainsStart, DrainsGoOn, DrainsEnd, RunsAreLegal};

/// A run of the driver's machine follows in the replay call by call: from its start, with each event, each condition that
/// changes, each request that is submitted, and each answer that is taken.
pub fn calls_law()
    ensures start { RunsStart }
    ensures event { EventsGo }
    ensures submit { SubmissionsGo }
    ensures taken { AnswersGo }
{}

/// A drain finds nothing to do, or it goes on with the machine's next event until there is none.
pub fn drains_law()
    ensures empty { EmptyDrainsGo }
    ensures starts { DrainsStart }
    ensures goes_on { DrainsGoOn }
    ensures ends { DrainsEnd }
{}

/// If no event can come, the trace so far is legal.
pub fn legal_law()
    ensures legal { RunsAreLegal }
{}
