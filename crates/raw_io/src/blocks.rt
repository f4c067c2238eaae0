// Whole blocks of a partition, by blocking requests.
ghost use Rattle.std.specs.Prelude.{◌≡◌, ◌*◌, [], true, false, length};
ghost use Rattle.blocking_io.specs.FrontsPasses.{asked};
ghost use Rattle.blocking_io.specs.Sites.{IsUntouched};
ghost use Rattle.blocking_io.specs.Blocks.{blocks_reached, PutsFront};
ghost use Rattle.blocking_io.specs.Spots.{TurnsOut};
ghost use Rattle.raw_io.specs.Transfers.{Breaks};
ghost use Rattle.raw_io.specs.Blocks.{MayMove, Reads, Gives, Puts};

use blocking_io::{Reached, Request, Site, Stop, clean_law, fronts_law, sessions_law};

/// How many of the `count` blocks of a request were done.
fn blocks_done(reached: Reached, count: u32) -> u32
    ensures { result ≡ blocks_reached reached count }
{
    match reached {
        Reached::All => count,
        Reached::Before { done } => done.min(count),
        Reached::Outside | Reached::AtEnd => 0,
    }
}

/// Reads the blocks of a request, and gives them if all can be used. Answers how many come before the first one that can't be used.
fn read_once<S: Site>(site: &mut S, request: Request, into: &mut [u8]) -> Result<u32, Stop>
    requires may { MayMove (S.at site.old).driver (asked request []) }
    requires reads { request.write ≡ false }
    ensures turns { TurnsOut (λ n. Reads (asked request []) n into.old into.new) IsUntouched (Breaks true request.unit request.part) result (S.at site.old) (S.at site.new) }
    ensures loans { S.loans site.new ≡ S.loans site.old }
{
    sessions_law();
    fronts_law();
    clean_law();
    site.law();
    let reached = site.ask_read(1, request, into)?;
    Ok(blocks_done(reached, request.count))
}

/// Reads the blocks of a request, and gives those before the first one that can't be used. Answers how many they are. If there is such
/// a block, the blocks before it are read once more, since a read that meets it gives nothing.
pub(crate) fn get_blocks<S: Site>(
    site: &mut S,
    request: Request,
    into: &mut [u8],
) -> Result<u32, Stop>
    requires may { MayMove (S.at site.old).driver (asked request []) }
    requires reads { request.write ≡ false }
    ensures turns { TurnsOut (λ n. Gives (asked request []) n into.old into.new) IsUntouched (Breaks true request.unit request.part) result (S.at site.old) (S.at site.new) }
    ensures loans { S.loans site.new ≡ S.loans site.old }
{
    sessions_law();
    let first = read_once(site, request, into)?;
    if first == request.count || first == 0 {
        return Ok(first);
    }
    let fewer = Request {
        count: first,
        ..request
    };
    read_once(site, fewer, into)?;
    Ok(first)
}

/// Writes the blocks of a request. Answers how many come before the first one that can't be used; these were replaced.
pub(crate) fn put_blocks<S: Site>(site: &mut S, request: Request, from: &[u8]) -> Result<u32, Stop>
    requires may { MayMove (S.at site.old).driver (asked request from.now) }
    requires writes { request.write ≡ true }
    requires size { length from.now ≡ 512 * request.count }
    ensures turns { TurnsOut (λ n. Puts (asked request from.now) n) (PutsFront (asked request from.now)) (Breaks false request.unit request.part) result (S.at site.old) (S.at site.new) }
    ensures loans { S.loans site.new ≡ S.loans site.old }
{
    sessions_law();
    fronts_law();
    site.law();
    let reached = site.ask_write(1, request, from)?;
    Ok(blocks_done(reached, request.count))
}
