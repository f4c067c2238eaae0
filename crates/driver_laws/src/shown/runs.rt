//! A run leaves its packs as the replay leaves them, and a run is a legal run. The functions here do nothing: each stands for a law.

ghost use Rattle.driver_laws.specs.shown.NextBlock.{NextBlocksShow};
ghost use Rattle.driver_laws.specs.shown.RunsRuns.{StartsKept, RunsKeep, EventsKeep, SubmissionsKeep, AnswersKeep, PacksAreLeft, RunsAreLegal};

/// From the start of a run on, each call keeps whatever is not a sector of a unit that is there.
pub fn kept_law()
    ensures start { StartsKept }
    ensures acts { RunsKeep }
    ensures event { EventsKeep }
    ensures submit { SubmissionsKeep }
    ensures taken { AnswersKeep }
{}

/// Hence the packs are left as the replay has them, and at its end a run is a legal run of its script.
pub fn left_law()
    ensures packs { PacksAreLeft }
    ensures legal { RunsAreLegal }
{}

/// If the packs failed at a block that was to be written, that block is the next block of a write as the replay has it,
/// and the packs are left as the replay has them with this block.
pub fn next_block_law()
    ensures { NextBlocksShow }
{}
