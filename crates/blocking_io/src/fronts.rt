// What a blocking request leaves. The functions here do nothing: each stands for a law.
ghost use Rattle.blocking_io.specs.Fronts.{StoppedHoldsFront, AnsweredMovesClean};

/// If the trace or the packs fail during a blocking request, the packs hold a front of it: a write replaced some of its first blocks,
/// each of them whole, and changed nothing else.
pub fn fronts_law()
    ensures { StoppedHoldsFront }
{}

/// If a blocking request was answered, each block that is done moved clean: one of the request's lines tells that a sector at the
/// block's home did.
pub fn clean_law()
    ensures { AnsweredMovesClean }
{}
