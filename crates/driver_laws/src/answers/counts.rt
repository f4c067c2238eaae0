//! How many requests, noises and faults the driver's machine comes to have. Each call adds at most what its line of the
//! script brings, so a player that counts the lines knows that there is room for the next one. The functions here do
//! nothing: each stands for a law.
//!
//! Defined in `specs/`: how many slots have a request, how much noise was armed and how many lines armed faults
//! (`IsWithin`), and how much each act and each input adds to these counts.

ghost use Rattle.driver_laws.specs.answers.Laws.{StartsWithNone, StartsWithRoom, MoreIsWithin, ActsAdd, RunsAdd, EventsAdd, SubmissionsAdd, TakingsAdd, CapacityStays, SetupsStay};

/// At the start there are no requests, noises and faults. Each act and each call that may come adds at most what it
/// brings: a submission brings one request, a noise line one noise, and a line that arms a fault at most 1,000 times of that fault.
pub fn counts_law()
    ensures start { StartsWithNone }
    ensures more { MoreIsWithin }
    ensures act { ActsAdd }
    ensures acts { RunsAdd }
    ensures event { EventsAdd }
    ensures submit { SubmissionsAdd }
    ensures taken { TakingsAdd }
{}

/// The number of noises that may be armed stays as it was at the start. What is set up stays too: which units there are,
/// their tables and the kinds of their drives.
pub fn stays_law()
    ensures room { StartsWithRoom }
    ensures capacity { CapacityStays }
    ensures units { SetupsStay }
{}
