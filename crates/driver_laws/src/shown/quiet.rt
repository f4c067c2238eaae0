//! The quiet driver: it stands for a replay at rest over its packs, whatever these packs hold, and its calls follow from
//! any such replay, whatever led to that replay. The functions here do nothing: each stands for a law.

ghost use Rattle.driver_laws.specs.shown.Quiet.{QuietRests, NewIsQuiet};
ghost use Rattle.driver_laws.specs.shown.QuietCalls.{QuietOpens, QuietSubmits, DrainsFindNothing, DrainsBegin, DrainsContinue, DrainsAreOver, TakingsOpen, TakingsDrain, QuietAgain, SetupStays};

/// A quiet driver stands for a replay at rest over its packs. A new driver is quiet.
pub fn rests_law()
    ensures rests { QuietRests }
    ensures new { NewIsQuiet }
{}

/// A submission follows from each replay that the quiet driver stands for, and then a drain, event by event, until no
/// event can come; an answer that is taken changes nothing of this. After a request that is waited for, the driver stands
/// for the replay after that request, with the same units and tables.
pub fn calls_law()
    ensures opens { QuietOpens }
    ensures submits { QuietSubmits }
    ensures nothing { DrainsFindNothing }
    ensures begins { DrainsBegin }
    ensures goes_on { DrainsContinue }
    ensures over { DrainsAreOver }
    ensures taken { TakingsOpen }
    ensures taken_within { TakingsDrain }
    ensures again { QuietAgain }
    ensures setup { SetupStays }
{}
