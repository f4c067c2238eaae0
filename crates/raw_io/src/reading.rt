// A range of a partition is read.
ghost use Rattle.std.specs.Prelude.{◌≡◌, ◌+◌, ◌*◌, ◌^◌, ◌<◌, ◌≤◌, ◌↔◌, [], false, true, length, Err};
ghost use Rattle.partitions.specs.Partitions.{size_of};
ghost use Rattle.blocking_io.specs.FrontsPasses.{asked};
ghost use Rattle.blocking_io.specs.Sites.{MayTransfer, kind_at, IsUntouched};
ghost use Rattle.blocking_io.specs.Spots.{TurnsOut, spot};
ghost use Rattle.raw_io.specs.Transfers.{Breaks};
ghost use Rattle.raw_io.specs.declared.fault.RawFault.TheVariants.{Outside};
ghost use Rattle.driver_laws.specs.rules.Bytes.{IsOutside};
ghost use Rattle.raw_io.specs.Blocks.{MayMove};
ghost use Rattle.raw_io.specs.Moves.{Comes};
ghost use Rattle.raw_io.specs.Pieces.{IsCut, GivesPiece, GivesRange};

use crate::blocks::get_blocks;
use crate::fault::RawFault;
use crate::pieces::{Piece, bytes_among, is_outside, piece_to_read};
use blocking_io::{Outlet, Site, Stop, Subsystem, sessions_law};
use outside_traits::traits::{Packs, Sink};
use partitions::Part;

/// Reads a piece of a range through a buffer for its blocks, and gives the bytes before the first block that can't be used: how many.
fn read_piece<S: Site>(
    site: &mut S,
    piece: Piece,
    blocks: &mut [u8],
    into: &mut [u8],
) -> Result<usize, Stop>
    requires may { MayMove (S.at site.old).driver (asked piece.request []) }
    requires reads { piece.request.write ≡ false }
    requires cut { IsCut piece }
    requires room { 512 * piece.request.count ≤ length blocks.old }
    requires fits { piece.size ≤ length into.old }
    ensures turns { TurnsOut (λ size. GivesPiece piece size into.old into.new) IsUntouched (Breaks true piece.request.unit piece.request.part) result (S.at site.old) (S.at site.new) }
    ensures loans { S.loans site.new ≡ S.loans site.old }
{
    let read = get_blocks(site, piece.request, blocks)?;
    let size = bytes_among(read, piece.skip, piece.size);
    into[..size].copy_from_slice(&blocks[piece.skip..piece.skip + size]);
    Ok(size)
}

/// Reads a range, piece by piece, and gives the bytes before the first block that can't be used: how many.
fn read_range<S: Site>(
    site: &mut S,
    unit: u8,
    part: Part,
    at: u64,
    into: &mut [u8],
) -> Result<usize, Stop>
    requires may { MayTransfer (S.at site.old).driver unit }
    requires at { at < 2 ^ 40 }
    requires inside { at + length into.old ≤ 512 * size_of (kind_at (S.at site.old).driver.world unit) part }
    ensures turns { TurnsOut (λ done. GivesRange unit part at done into.old into.new) IsUntouched (Breaks true unit part) result (S.at site.old) (S.at site.new) }
    ensures loans { S.loans site.new ≡ S.loans site.old }
{
    sessions_law();
    let mut blocks = [0; 65_024];
    let mut done = 0;
    while done < into.len() {
        let piece = piece_to_read(unit, part, at + done as u64, into.len() - done);
        let (_, rest) = into.split_at_mut(done);
        let size = read_piece(site, piece, &mut blocks, rest)?;
        done += size;
        if size < piece.size {
            return Ok(done);
        }
    }
    Ok(done)
}

/// Reads the bytes of a unit's partition from byte `at` on, below 2^40, until the buffer is full. The bytes are read through the
/// driver, at line 1 and with id 0, in requests of at most 127 whole blocks, each of which is answered before the next one is
/// submitted. The driver must be ready and made for at least one outstanding request, and its tables must be those of the packs. It is
/// ready again after Ok and `Unusable`.
///
/// `Outside` comes exactly if the range reaches beyond the partition; nothing is done then. `Unusable` comes exactly if the range
/// touches a block that can't be used; the bytes before that block were given, and the rest of the buffer is as it was. No block of the
/// packs changes. `Store` and `Sink` come only if the count of faults of the packs or of the trace rose; no call may follow then.
pub fn raw_read<P: Packs, T: Sink>(
    subsystem: &mut Subsystem,
    unit: u8,
    part: Part,
    at: u64,
    into: &mut [u8],
    packs: &mut P,
    trace: &mut T,
) -> Result<(), RawFault>
    requires may { MayTransfer subsystem.old unit }
    requires at { at < 2 ^ 40 }
    ensures outside { (result ≡ Err Outside) ↔ IsOutside (kind_at subsystem.old.world unit) part at (length into.old) }
    ensures nothing { result ≡ Err Outside → (subsystem.new ≡ subsystem.old) × (packs.new ≡ packs.old) × (trace.new ≡ trace.old) × (into.new ≡ into.old) }
    ensures comes { Comes true unit part (length into.old) (λ done. GivesRange unit part at done into.old into.new) IsUntouched result
        (spot P.tells P.held P.faults T.tells T.taken T.faults subsystem.old packs.old trace.old)
        (spot P.tells P.held P.faults T.tells T.taken T.faults subsystem.new packs.new trace.new) }
{
    if is_outside(subsystem.kind(unit), part, at, into.len()) {
        return Err(RawFault::Outside);
    }
    let mut site = Outlet {
        subsystem,
        packs,
        trace,
    };
    let done = read_range(&mut site, unit, part, at, into)?;
    if done < into.len() {
        return Err(RawFault::Unusable { done: done as u64 });
    }
    Ok(())
}
