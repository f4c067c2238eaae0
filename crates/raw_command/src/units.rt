// Transfers of one unit, over packs and a trace.
ghost use Rattle.std.specs.Prelude.{◌≡◌, ◌+◌, ◌*◌, ◌≤◌, ◌<◌, length};
ghost use Rattle.partitions.specs.declared.Part.TheVariants.{B};
ghost use Rattle.partitions.specs.Partitions.{size_of};
ghost use Rattle.driver_laws.specs.rules.Bytes.{dumped, dump_place};
ghost use Rattle.raw_command.specs.Endings.{IsBeyond, bytes_for, target_for};
ghost use Rattle.raw_command.specs.Faults.{fault_in, raw_fault};
ghost use Rattle.raw_command.specs.Transfers.{ReadsUnit, WritesUnit};
ghost use Rattle.command_parts.specs.Words.{IsPlaced, IsTarget};

use crate::attaching::attached;
use crate::fault::TransferFault;
use command_parts::{Target, Writing};
use outside_traits::traits::{Packs, Sink};
use pack_geometry::DriveKind;
use raw_io::{RawFault, dump, raw_read, raw_write};
use std::alloc::Global;

/// What a call of `raw_io` answered, without its value.
fn handed_on<A: Drop>(answer: Result<A, RawFault>) -> Result<(), TransferFault>
    ensures { fault_in result ≡ raw_fault answer }
{
    match answer {
        Ok(_) => Ok(()),
        Err(fault) => Err(TransferFault::from(fault)),
    }
}

/// Attaches the unit of a target, and reads as many bytes as the buffer has, from the target on.
pub(crate) fn read_unit<P: Packs, T: Sink>(
    alloc: Global,
    target: Target,
    into: &mut [u8],
    packs: &mut P,
    trace: &mut T,
) -> Result<(), TransferFault>
    requires target { IsTarget target }
    requires inside { target.at + length into.old ≤ 512 * size_of target.kind target.part }
    ensures { ReadsUnit P.tells P.held P.faults P.failed_at T.tells T.taken T.faults target into.old into.new packs.old packs.new trace.old trace.new (fault_in result) }
{
    let mut subsystem = attached(alloc, target.unit, target.kind, packs)?;
    let answer = raw_read(
        &mut subsystem,
        target.unit,
        target.part,
        target.at,
        into,
        packs,
        trace,
    );
    drop(subsystem);
    handed_on(answer)
}

/// Attaches the unit of a target, and writes bytes from the target on.
fn write_unit<P: Packs, T: Sink>(
    alloc: Global,
    target: Target,
    from: &[u8],
    packs: &mut P,
    trace: &mut T,
) -> Result<(), TransferFault>
    requires target { IsTarget target }
    requires inside { target.at + length from.now ≤ 512 * size_of target.kind target.part }
    ensures { WritesUnit P.tells P.held P.faults P.failed_at T.tells T.taken T.faults target from.now packs.old packs.new trace.old trace.new (fault_in result) }
{
    let mut subsystem = attached(alloc, target.unit, target.kind, packs)?;
    let answer = raw_write(
        &mut subsystem,
        target.unit,
        target.part,
        target.at,
        from,
        packs,
        trace,
    );
    drop(subsystem);
    handed_on(answer)
}

/// Attaches a unit, and writes memory to the end of its partition `b`.
fn dump_unit<P: Packs, T: Sink>(
    alloc: Global,
    unit: u8,
    kind: DriveKind,
    memory: &[u8],
    packs: &mut P,
    trace: &mut T,
) -> Result<(), TransferFault>
    requires unit { unit < 32 }
    requires few { length memory.now ≤ 8388608 }
    ensures { WritesUnit P.tells P.held P.faults P.failed_at T.tells T.taken T.faults (record { unit = unit; kind = kind; part = B; at = dump_place kind (length memory.now) })
        (dumped memory.now) packs.old packs.new trace.old trace.new (fault_in result) }
{
    let mut subsystem = attached(alloc, unit, kind, packs)?;
    let answer = dump(&mut subsystem, unit, memory, packs, trace);
    drop(subsystem);
    handed_on(answer)
}

/// Writes the bytes of a source as they are to be written.
pub(crate) fn put<P: Packs, T: Sink>(
    alloc: Global,
    writing: Writing,
    from: &[u8],
    packs: &mut P,
    trace: &mut T,
) -> Result<(), TransferFault>
    requires placed { IsPlaced writing }
    requires inside { ¬ (IsBeyond writing (length from.now)) }
    ensures { WritesUnit P.tells P.held P.faults P.failed_at T.tells T.taken T.faults (target_for writing from.now) (bytes_for writing from.now)
        packs.old packs.new trace.old trace.new (fault_in result) }
{
    match writing {
        Writing::Raw { target } => write_unit(alloc, target, from, packs, trace),
        Writing::Dump { unit, kind } => dump_unit(alloc, unit, kind, from, packs, trace),
    }
}
