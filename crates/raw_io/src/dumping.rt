// Memory is dumped to the end of the partition for swapping.
ghost use Rattle.std.specs.Prelude.{◌≡◌, ◌+◌, ◌-◌, ◌*◌, ◌<◌, ◌≤◌, ◌++◌, ◌↔◌, false, IfOk, length, take, drop, replicate, Err};
ghost use Rattle.partitions.specs.declared.Part.TheVariants.{B};
ghost use Rattle.partitions.specs.Partitions.{size_of};
ghost use Rattle.raw_io.specs.declared.fault.RawFault.TheVariants.{Outside};
ghost use Rattle.driver_laws.specs.rules.Bytes.{blocks_for, dumped, dump_place};
ghost use Rattle.blocking_io.specs.Sites.{MayTransfer, kind_at};
ghost use Rattle.blocking_io.specs.Spots.{TurnsOut, spot};
ghost use Rattle.raw_io.specs.Transfers.{Breaks};
ghost use Rattle.raw_io.specs.Moves.{Comes, StopsFrom};
ghost use Rattle.raw_io.specs.Pieces.{IsWritten, IsWholeOrOne, PutsPiece, StopsPiece, PutsRange};

use crate::fault::RawFault;
use crate::pieces::{Piece, piece_to_write};
use crate::writing::write_piece;
use blocking_io::{Outlet, Site, Stop, Subsystem, sessions_law};
use outside_traits::traits::{Packs, Sink};
use partitions::{Part, part_range};

/// How many bytes memory has at the most.
const MEMORY: usize = 8_388_608;

/// Lays bytes over a buffer, followed by zeros.
fn fill(buffer: &mut [u8], from: &[u8])
    requires { length from.now ≤ length buffer.old }
    ensures { buffer.new ≡ from.now ++ replicate (length buffer.old - length from.now) 0 }
{
    buffer[..from.len()].copy_from_slice(from);
    buffer[from.len()..].fill(0);
}

/// The piece of memory from one place to another, as far as memory goes.
fn part_of(memory: &[u8], start: usize, end: usize) -> &[u8]
    requires { start ≤ end }
    ensures { result.now ≡ take (end - start) (drop start memory.now) }
{
    let end = end.min(memory.len());
    &memory[start.min(end)..end]
}

/// Lays what memory, filled up with zeros to whole blocks, has from a place on over a buffer.
fn lay_piece(buffer: &mut [u8], memory: &[u8], start: usize)
    requires few { length memory.now ≤ 8388608 }
    requires inside { start + length buffer.old ≤ 512 * blocks_for (length memory.now) }
    ensures { buffer.new ≡ take (length buffer.old) (drop start (dumped memory.now)) }
{
    let end = start + buffer.len();
    fill(buffer, part_of(memory, start, end));
}

/// Writes a piece of memory, filled up with zeros to whole blocks, from a place on, through a buffer for its blocks. Answers how many
/// bytes come before the first block that can't be used.
fn dump_piece<S: Site>(
    site: &mut S,
    piece: Piece,
    memory: &[u8],
    start: usize,
    blocks: &mut [u8],
) -> Result<usize, Stop>
    requires may { MayTransfer (S.at site.old).driver piece.request.unit }
    requires piece { IsWritten (kind_at (S.at site.old).driver.world piece.request.unit) piece (take piece.size (drop start (dumped memory.now))) }
    requires whole { IsWholeOrOne piece }
    requires few { length memory.now ≤ 8388608 }
    requires inside { start + piece.size ≤ 512 * blocks_for (length memory.now) }
    requires room { piece.size ≤ length blocks.old }
    ensures turns { TurnsOut (λ size. PutsPiece piece size (take piece.size (drop start (dumped memory.now)))) (StopsPiece piece (take piece.size (drop start (dumped memory.now)))) (Breaks false piece.request.unit piece.request.part) result (S.at site.old) (S.at site.new) }
    ensures loans { S.loans site.new ≡ S.loans site.old }
{
    let part = &mut blocks[..piece.size];
    lay_piece(part, memory, start);
    write_piece(site, piece, part)
}

/// Writes memory, filled up with zeros to whole blocks, to partition `b` from a place on. Answers how many bytes come before the first
/// block that can't be used.
fn dump_range<S: Site>(site: &mut S, unit: u8, place: u64, memory: &[u8]) -> Result<usize, Stop>
    requires may { MayTransfer (S.at site.old).driver unit }
    requires few { length memory.now ≤ 8388608 }
    requires inside { place + 512 * blocks_for (length memory.now) ≤ 512 * size_of (kind_at (S.at site.old).driver.world unit) B }
    ensures turns { TurnsOut (λ done. PutsRange unit B place done (dumped memory.now)) (StopsFrom unit B place (dumped memory.now)) (Breaks false unit B) result (S.at site.old) (S.at site.new) }
    ensures loans { S.loans site.new ≡ S.loans site.old }
{
    sessions_law();
    let mut blocks = [0; 65_024];
    let size = 512 * ((memory.len() + 511) / 512);
    let mut done = 0;
    while done < size {
        let piece = piece_to_write(unit, Part::B, place + done as u64, size - done);
        let written = dump_piece(site, piece, memory, done, &mut blocks)?;
        done += written;
        if written < piece.size {
            return Ok(done);
        }
    }
    Ok(done)
}

/// Dumps memory to the end of partition `b` of a unit. The bytes are filled up with zeros to whole blocks, and the last of these is the
/// last block of the partition. Answers the number of blocks. They are written as `raw_write` writes.
///
/// `Outside` comes exactly if there are more than 8,388,608 bytes; nothing is done then. `Unusable` comes exactly if one of the blocks
/// can't be used; the blocks before the first such block were replaced. `Store` and `Sink` come as they do for `raw_write`.
pub fn dump<P: Packs, T: Sink>(
    subsystem: &mut Subsystem,
    unit: u8,
    memory: &[u8],
    packs: &mut P,
    trace: &mut T,
) -> Result<u32, RawFault>
    requires may { MayTransfer subsystem.old unit }
    ensures outside { (result ≡ Err Outside) ↔ (8388608 < length memory.now) }
    ensures nothing { result ≡ Err Outside → (subsystem.new ≡ subsystem.old) × (packs.new ≡ packs.old) × (trace.new ≡ trace.old) }
    ensures count { IfOk result (λ count. count ≡ blocks_for (length memory.now)) }
    ensures comes { Comes false unit B (512 * blocks_for (length memory.now)) (λ done. PutsRange unit B (dump_place (kind_at subsystem.old.world unit) (length memory.now)) done (dumped memory.now))
        (StopsFrom unit B (dump_place (kind_at subsystem.old.world unit) (length memory.now)) (dumped memory.now)) result
        (spot P.tells P.held P.faults T.tells T.taken T.faults subsystem.old packs.old trace.old)
        (spot P.tells P.held P.faults T.tells T.taken T.faults subsystem.new packs.new trace.new) }
{
    if memory.len() > MEMORY {
        return Err(RawFault::Outside);
    }
    let count = ((memory.len() + 511) / 512) as u32;
    let first = part_range(subsystem.kind(unit), Part::B).size - count;
    let mut site = Outlet {
        subsystem,
        packs,
        trace,
    };
    let done = dump_range(&mut site, unit, 512 * u64::from(first), memory)?;
    if done < 512 * count as usize {
        return Err(RawFault::Unusable { done: done as u64 });
    }
    Ok(count)
}
