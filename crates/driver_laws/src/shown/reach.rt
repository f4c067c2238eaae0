//! How far the writes of a run reach. If each request that writes ends below some block of its unit, what the image has
//! from that block on stays; if no request writes, the whole image stays. The functions here do nothing: each stands for a law.
//!
//! Defined in `specs/`: what is written ends below some block of each unit (`AskBelow`); if something may be written to a
//! pack that has a table, the whole drive lies below that block (`TablesBelow`).

ghost use Rattle.driver_laws.specs.shown.Reach.{StartsWithinReach, ActsKeepReach, EventsKeepReach, SubmissionsKeepReach, AnswersKeepReach, NextBlocksStay};
ghost use Rattle.driver_laws.specs.shown.Lengths.{EventsKeepLengths, FirstEventsKeepLengths, LaterEventsKeepLengths, EmptyDrainsKeepLengths, SubmissionsKeepLengths};

/// From the start of a run on, each call keeps what images have from the ends of all writes on.
pub fn calls_law()
    ensures start { StartsWithinReach }
    ensures act { ActsKeepReach }
    ensures event { EventsKeepReach }
    ensures submit { SubmissionsKeepReach }
    ensures taken { AnswersKeepReach }
{}

/// A block at whose write the packs failed keeps what images have from the ends of all writes on.
pub fn next_block_law()
    ensures { NextBlocksStay }
{}

/// An image becomes as long as the written blocks make it, and no longer. Each call keeps this, both inside a drain and outside.
pub fn lengths_law()
    ensures event { EventsKeepLengths }
    ensures first { FirstEventsKeepLengths }
    ensures later { LaterEventsKeepLengths }
    ensures empty { EmptyDrainsKeepLengths }
    ensures submit { SubmissionsKeepLengths }
{}
