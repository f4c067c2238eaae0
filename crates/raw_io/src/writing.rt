// A range of a partition is written.
ghost use Rattle.std.specs.Prelude.{◌≡◌, ◌+◌, ◌*◌, ◌^◌, ◌<◌, ◌≤◌, ◌↔◌, false, length, Err};
ghost use Rattle.partitions.specs.Partitions.{size_of};
ghost use Rattle.driver_laws.specs.rules.Laid.{laid_at};
ghost use Rattle.raw_io.specs.declared.fault.RawFault.TheVariants.{Outside};
ghost use Rattle.driver_laws.specs.rules.Bytes.{IsOutside};
ghost use Rattle.blocking_io.specs.Sites.{MayTransfer, kind_at};
ghost use Rattle.blocking_io.specs.Spots.{TurnsOut, spot};
ghost use Rattle.raw_io.specs.Transfers.{Breaks};
ghost use Rattle.raw_io.specs.Moves.{Comes, StopsFrom};
ghost use Rattle.raw_io.specs.Pieces.{IsWritten, IsWholeOrOne, PutsPiece, StopsPiece, PutsRange};

use crate::blocks::{get_blocks, put_blocks};
use crate::fault::RawFault;
use crate::pieces::{Piece, bytes_among, is_outside, piece_to_write};
use blocking_io::{Outlet, Request, Site, Stop, Subsystem, sessions_law};
use outside_traits::traits::{Packs, Sink};
use partitions::Part;

/// Lays bytes over those of a block, from a place on.
fn merge(block: &mut [u8; 512], skip: usize, from: &[u8])
    requires { skip + length from.now ≤ 512 }
    ensures { block.new ≡ laid_at skip from.now block.old }
{
    block[skip..skip + from.len()].copy_from_slice(from);
}

/// Writes the bytes of a piece that lies in one block: reads that, and writes it back whole.
fn write_edge<S: Site>(site: &mut S, piece: Piece, from: &[u8]) -> Result<usize, Stop>
    requires may { MayTransfer (S.at site.old).driver piece.request.unit }
    requires piece { IsWritten (kind_at (S.at site.old).driver.world piece.request.unit) piece from.now }
    requires one { piece.request.count ≡ 1 }
    ensures turns { TurnsOut (λ size. PutsPiece piece size from.now) (StopsPiece piece from.now) (Breaks false piece.request.unit piece.request.part) result (S.at site.old) (S.at site.new) }
    ensures loans { S.loans site.new ≡ S.loans site.old }
{
    sessions_law();
    let mut block = [0; 512];
    let read = Request {
        write: false,
        ..piece.request
    };
    if get_blocks(site, read, &mut block)? == 0 {
        return Ok(0);
    }
    merge(&mut block, piece.skip, from);
    let written = put_blocks(site, piece.request, &block)?;
    Ok(bytes_among(written, piece.skip, piece.size))
}

/// Writes the bytes of a piece: how many come before the first block that can't be used.
pub(crate) fn write_piece<S: Site>(site: &mut S, piece: Piece, from: &[u8]) -> Result<usize, Stop>
    requires may { MayTransfer (S.at site.old).driver piece.request.unit }
    requires piece { IsWritten (kind_at (S.at site.old).driver.world piece.request.unit) piece from.now }
    requires whole { IsWholeOrOne piece }
    ensures turns { TurnsOut (λ size. PutsPiece piece size from.now) (StopsPiece piece from.now) (Breaks false piece.request.unit piece.request.part) result (S.at site.old) (S.at site.new) }
    ensures loans { S.loans site.new ≡ S.loans site.old }
{
    if piece.skip > 0 || piece.size < 512 {
        return write_edge(site, piece, from);
    }
    let written = put_blocks(site, piece.request, from)?;
    Ok(bytes_among(written, piece.skip, piece.size))
}

/// Writes a range, piece by piece: how many of its bytes come before the first block that can't be used.
fn write_range<S: Site>(
    site: &mut S,
    unit: u8,
    part: Part,
    at: u64,
    from: &[u8],
) -> Result<usize, Stop>
    requires may { MayTransfer (S.at site.old).driver unit }
    requires at { at < 2 ^ 40 }
    requires inside { at + length from.now ≤ 512 * size_of (kind_at (S.at site.old).driver.world unit) part }
    ensures turns { TurnsOut (λ done. PutsRange unit part at done from.now) (StopsFrom unit part at from.now) (Breaks false unit part) result (S.at site.old) (S.at site.new) }
    ensures loans { S.loans site.new ≡ S.loans site.old }
{
    sessions_law();
    let mut done = 0;
    while done < from.len() {
        let piece = piece_to_write(unit, part, at + done as u64, from.len() - done);
        let size = write_piece(site, piece, &from[done..done + piece.size])?;
        done += size;
        if size < piece.size {
            return Ok(done);
        }
    }
    Ok(done)
}

/// Writes bytes to a unit's partition from byte `at` on, below 2^40, through the driver, as `raw_read` reads. A block that the range
/// covers in part is read first and written back whole.
///
/// `Outside` comes exactly if the range reaches beyond the partition; nothing is done then. `Unusable` comes exactly if the range
/// touches a block that can't be used; the bytes before that block were replaced. Every other byte of every data block stays. `Store`
/// and `Sink` come only if the count of faults of the packs or of the trace rose; a front of the range's blocks was replaced then, each
/// of them whole, and no call may follow.
pub fn raw_write<P: Packs, T: Sink>(
    subsystem: &mut Subsystem,
    unit: u8,
    part: Part,
    at: u64,
    from: &[u8],
    packs: &mut P,
    trace: &mut T,
) -> Result<(), RawFault>
    requires may { MayTransfer subsystem.old unit }
    requires at { at < 2 ^ 40 }
    ensures outside { (result ≡ Err Outside) ↔ IsOutside (kind_at subsystem.old.world unit) part at (length from.now) }
    ensures nothing { result ≡ Err Outside → (subsystem.new ≡ subsystem.old) × (packs.new ≡ packs.old) × (trace.new ≡ trace.old) }
    ensures comes { Comes false unit part (length from.now) (λ done. PutsRange unit part at done from.now) (StopsFrom unit part at from.now) result
        (spot P.tells P.held P.faults T.tells T.taken T.faults subsystem.old packs.old trace.old)
        (spot P.tells P.held P.faults T.tells T.taken T.faults subsystem.new packs.new trace.new) }
{
    if is_outside(subsystem.kind(unit), part, at, from.len()) {
        return Err(RawFault::Outside);
    }
    let mut site = Outlet {
        subsystem,
        packs,
        trace,
    };
    let done = write_range(&mut site, unit, part, at, from)?;
    if done < from.len() {
        return Err(RawFault::Unusable { done: done as u64 });
    }
    Ok(())
}
