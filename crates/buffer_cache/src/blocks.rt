// One block is read or written.
ghost use Rattle.std.specs.Prelude.{◌≡◌, ◌≤◌, ◌∷◌, [], if◌then◌else◌};
ghost use Rattle.partitions.specs.declared.Part.TheVariants.{C};
ghost use Rattle.blocking_io.specs.Sites.{MayTransfer, IsUntouched};
ghost use Rattle.blocking_io.specs.Spots.{TurnsOut};
ghost use Rattle.blocking_io.specs.Blocks.{blocks_reached};
ghost use Rattle.driver_laws.specs.rules.Requests.{reads, writes};
ghost use Rattle.buffer_cache.specs.Asks.{IsData, Asks, AsksTill, Fetches, LeftBy};

use blocking_io::{Reached, Request, Site, Stop, fronts_law, sessions_law};
use partitions::Part;

/// A request for one data block of a unit.
fn one_block(unit: u8, block: u32, write: bool) -> Request
    ensures { result ≡ record { id = 0; unit = unit; part = C; block = block; count = 1; write = write; offset = 0; last = 512 } }
{
    Request {
        id: 0,
        unit,
        part: Part::C,
        block,
        count: 1,
        write,
        offset: 0,
        last: 512,
    }
}

/// Whether the one block of a request was done.
fn is_done(reached: Reached) -> bool
    ensures { blocks_reached reached 1 ≡ (if result then 1 else 0) }
{
    match reached {
        Reached::All => true,
        Reached::Before { done } => done > 0,
        Reached::Outside | Reached::AtEnd => false,
    }
}

/// Reads a data block of a unit, at a line from 1 on, through a ready driver. Answers whether the block can be used; if it can, its
/// bytes are given. The driver is ready again afterwards, and no block has changed.
///
/// `Store` and `Sink` come only if the count of faults of the packs or of the trace rose; no call may follow then.
pub fn fetch_block<S: Site>(
    site: &mut S,
    line: u64,
    unit: u8,
    block: u32,
    into: &mut [u8; 512],
) -> Result<bool, Stop>
    requires line { 1 ≤ line }
    requires may { MayTransfer (S.at site.old).driver unit }
    requires block { IsData (S.at site.old).driver.world unit block }
    ensures turns { TurnsOut (λ found. Fetches line unit block found into.new) IsUntouched (λ stop. AsksTill stop line (reads unit block ∷ [])) result (S.at site.old) (S.at site.new) }
    ensures loans { S.loans site.new ≡ S.loans site.old }
{
    sessions_law();
    fronts_law();
    site.law();
    let reached = site.ask_read(line, one_block(unit, block, false), into)?;
    Ok(is_done(reached))
}

/// Writes a data block of a unit, at a line from 1 on, through a ready driver. The driver is ready again afterwards. The block has
/// these bytes if it can be used, and no other block has changed.
///
/// `Store` and `Sink` come as they do for `fetch_block`; the block may have its new bytes then.
pub fn store_block<S: Site>(
    site: &mut S,
    line: u64,
    unit: u8,
    block: u32,
    from: &[u8; 512],
) -> Result<(), Stop>
    requires line { 1 ≤ line }
    requires may { MayTransfer (S.at site.old).driver unit }
    requires block { IsData (S.at site.old).driver.world unit block }
    ensures turns { TurnsOut (λ _. Asks line (writes unit block from.now ∷ [])) (LeftBy (writes unit block from.now)) (λ stop. AsksTill stop line (writes unit block from.now ∷ [])) result (S.at site.old) (S.at site.new) }
    ensures loans { S.loans site.new ≡ S.loans site.old }
{
    sessions_law();
    fronts_law();
    site.law();
    site.ask_write(line, one_block(unit, block, true), from)?;
    Ok(())
}
