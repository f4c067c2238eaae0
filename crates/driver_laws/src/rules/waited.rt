//! One request at a time, which is waited for: from a replay at rest, whatever the heads and registers are, it has one
//! answer, which depends only on what the packs hold, and the replay after it rests again. The function here does
//! nothing: it stands for a law.

ghost use Rattle.driver_laws.specs.rules.Rest.{StartRests};
ghost use Rattle.driver_laws.specs.rules.Waited.{WaitedIsAnswered, RestsAgain, PacksHoldMap};
ghost use Rattle.driver_laws.specs.rules.Cleans.{DoneMovesClean};

/// The start over packs rests. A request that is waited for from a replay at rest is answered once: by its partition, if
/// that refuses it; ok, if all its blocks can be used; and otherwise unforwarded at the first block that cannot. The
/// homes hold the map after that answer, and if the packs are left so, the replay rests again over them.
pub fn waited_law()
    ensures start { StartRests }
    ensures answered { WaitedIsAnswered }
    ensures rests { RestsAgain }
    ensures packs { PacksHoldMap }
{}

/// Each block that a request that is waited for has done moved clean: one of the request's lines tells this of the sector at the block's home.
pub fn moves_law()
    ensures { DoneMovesClean }
{}
