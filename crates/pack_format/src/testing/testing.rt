//! Blocks are written and read back.
ghost use Rattle.std.specs.Prelude.{◌≡◌, ◌<◌, false, IsTrue, OnOk, OnErr, replicate};
ghost use Rattle.pack_geometry.specs.Geometry.{block_count};
ghost use Rattle.pack_geometry.specs.Pack.{block_at, is_marked};
ghost use Rattle.pack_format.specs.Steps.{IsReady, Step, seen};
ghost use Rattle.pack_format.specs.testing.Stages.{Fills, IsTested, Stops, one};
ghost use Rattle.pack_format.specs.testing.Stops.{IsStop, Writes};

use crate::fault::FormatFault;
use crate::job::Job;
use crate::testing::blocks::{all, first_difference};
use crate::testing::{Polled, Station};
use outside_traits::traits::Packs;

/// Reads a block that was written, into a buffer that differs from it. Differs names the first byte that came back otherwise; where
/// the block is found marked nothing comes back, and the buffer differs at its first byte.
fn read_back<P: Packs>(
    station: &mut Station,
    packs: &mut P,
    job: Job,
    block: u32,
    bytes: &[u8; 512],
) -> Result<(), FormatFault>
    requires ready { IsReady job station.old }
    requires block { block < block_count job.kind }
    requires written { IsTrue (P.tells packs.old) → block_at (P.held packs.old job.unit).image block ≡ bytes.now }
    requires unmarked { IsTrue (P.tells packs.old) → is_marked (P.held packs.old job.unit) block ≡ false }
    ensures same { IsTrue (P.tells packs.new) → P.held packs.new ≡ P.held packs.old }
    ensures step { Step (IsReady job station.new) (IsStop (P.tells packs.new) (Writes block (λ text. text ≡ bytes.now)))
        (seen P.tells P.held P.faults packs.old) (seen P.tells P.held P.faults packs.new) result }
{
    let mut back = all(!bytes[0]);
    station.poll_read(packs, job.unit, job.kind, block, &mut back)?;
    match first_difference(bytes, &back) {
        None => Ok(()),
        Some(at) => Err(FormatFault::Differs {
            block,
            at,
            wrote: bytes[usize::from(at)],
            read: back[usize::from(at)],
        }),
    }
}

/// Writes a block where it is not marked, and reads it back.
pub(crate) fn write_and_read<P: Packs>(
    station: &mut Station,
    packs: &mut P,
    job: Job,
    block: u32,
    bytes: &[u8; 512],
) -> Result<(), FormatFault>
    requires ready { IsReady job station.old }
    requires block { block < block_count job.kind }
    ensures fills { OnOk result (IsTrue (P.tells packs.new) → Fills job.unit (one (P.held packs.old job.unit) block) bytes.now (P.held packs.old) (P.held packs.new)) }
    ensures stops { OnErr result (IsTrue (P.tells packs.new) → Stops job.unit (one (P.held packs.old job.unit) block) (λ text. text ≡ bytes.now) (P.held packs.old) (P.held packs.new)) }
    ensures step { Step (IsReady job station.new) (IsStop (P.tells packs.new) (Writes block (λ text. text ≡ bytes.now)))
        (seen P.tells P.held P.faults packs.old) (seen P.tells P.held P.faults packs.new) result }
{
    let polled = station.poll_write(packs, job.unit, job.kind, block, bytes)?;
    match polled {
        Polled::Marked => Ok(()),
        Polled::Clean => read_back(station, packs, job, block, bytes),
    }
}

/// Tests a block where it is not marked: it is written with A5 and read back, and then with zeros, which stay.
pub(crate) fn test_block<P: Packs>(
    station: &mut Station,
    packs: &mut P,
    job: Job,
    block: u32,
) -> Result<(), FormatFault>
    requires ready { IsReady job station.old }
    requires block { block < block_count job.kind }
    ensures fills { OnOk result (IsTrue (P.tells packs.new) → Fills job.unit (one (P.held packs.old job.unit) block) (replicate 512 0) (P.held packs.old) (P.held packs.new)) }
    ensures stops { OnErr result (IsTrue (P.tells packs.new) → Stops job.unit (one (P.held packs.old job.unit) block) IsTested (P.held packs.old) (P.held packs.new)) }
    ensures step { Step (IsReady job station.new) (IsStop (P.tells packs.new) (Writes block IsTested))
        (seen P.tells P.held P.faults packs.old) (seen P.tells P.held P.faults packs.new) result }
{
    let pattern = all(0xA5);
    let zeros = all(0);
    write_and_read(station, packs, job, block, &pattern)?;
    write_and_read(station, packs, job, block, &zeros)
}
