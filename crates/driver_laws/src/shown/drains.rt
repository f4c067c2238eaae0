//! What a drain comes to in the replay. The function here does nothing: it stands for a law.

ghost use Rattle.driver_laws.specs.shown.Drains.{ScriptsCanStart, FirstEventsFall, DrainsFall, DrainsFallFrom, DrainsKeep};

/// Each event of a drain leaves fewer event lines to come. These are at most 200 for each block of the requests that are
/// outstanding, and the line of the script that drains leaves as many. The later events of a drain leave fewer from any
/// start, and the start of a script is one.
pub fn falls_law()
    ensures start { ScriptsCanStart }
    ensures first { FirstEventsFall }
    ensures later { DrainsFall }
    ensures from { DrainsFallFrom }
    ensures line { DrainsKeep }
{}
