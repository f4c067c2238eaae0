//! The answers that wait in the driver are those of the end lines that its acts told, and the ids of the driver's
//! requests are among those that were submitted. The functions here do nothing: each stands for a law.
//!
//! Defined in `specs/`: an answer that waits, as a trace tells it (`told_by`, `waiting`), and the ids of the requests in slots
//! (`AreOf`).

ghost use Rattle.driver_laws.specs.answers.Ids.{StartsOfNone, ActsAdd, RunsAdd, EventsAddNone, SubmissionsAdd, TakingAddsNone, NoOthers, OthersAreFresh};
ghost use Rattle.driver_laws.specs.answers.Waiting.{TakingDrops, TakingLeaves, NoneWaits, EventsTakeNone, SubmissionsTakeNone, EventsAnswer, EventsAlone, SubmissionsAlone};

/// Taking an answer takes the first one, and the others wait as before. If each answer is taken, none waits.
pub fn taken_law()
    ensures waiting { TakingDrops }
    ensures answers { TakingLeaves }
    ensures all { NoneWaits }
{}

/// No event and no submission takes an answer. Hence, after an event, the answers of its lines wait behind those that
/// waited before; and after a submission exactly the answers of its lines wait.
pub fn calls_law()
    ensures event { EventsTakeNone }
    ensures submit { SubmissionsTakeNone }
    ensures behind_event { EventsAnswer }
    ensures alone { EventsAlone }
    ensures behind_submission { SubmissionsAlone }
{}

/// From the start on, each request in a slot has one of the ids that were submitted. Hence, if no answer waits, any other id is fresh.
pub fn ids_law()
    ensures start { StartsOfNone }
    ensures act { ActsAdd }
    ensures acts { RunsAdd }
    ensures event { EventsAddNone }
    ensures submit { SubmissionsAdd }
    ensures taken { TakingAddsNone }
    ensures others { NoOthers }
    ensures fresh { OthersAreFresh }
{}
