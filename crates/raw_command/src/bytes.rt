// The commands `raw read`, `raw write` and `dump`.
ghost use Rattle.std.specs.Prelude.{◌≡◌, Some};
ghost use Rattle.command_parts.specs.Outside.{HasItsCause, outside};
ghost use Rattle.raw_command.specs.Endings.{RunsTransfer};
ghost use Rattle.raw_command.specs.Faults.{IsTransferCode, code_of};
ghost use Rattle.command_parts.specs.Words.{IsInRange};
ghost use Rattle.pack_commands.specs.Leaves.{LeavesAlone};
ghost use Rattle.command_parts.specs.Statuses.{status_code};
ghost use Rattle.pack_commands.specs.declared.words.Command.TheVariants.{TransferBytes};

use crate::fault::TransferFault;
use crate::run::run_transfer;
use command_parts::{Status, Transfer};
use outside_traits::traits::{Packs, Sink, Source};
use std::alloc::Global;

/// The status that a transfer ends with.
fn status_of(answer: Result<(), TransferFault>) -> Status
    ensures { status_code result ≡ code_of answer }
{
    match answer {
        Ok(()) => Status::Done,
        Err(TransferFault::Source) => Status::SourceFailed,
        Err(TransferFault::Sink) => Status::SinkFailed,
        Err(TransferFault::Store) => Status::PacksFailed,
        Err(TransferFault::TooLong { .. }) => Status::TooLong,
        Err(TransferFault::Memory) => Status::OutOfMemory,
        Err(TransferFault::Outside | TransferFault::Unusable { .. }) => Status::TransferRefused,
    }
}

/// The commands `raw read`, `raw write` and `dump`: transfers bytes of a partition, as `run_transfer` does, and answers the status.
pub fn run_bytes<S: Source, P: Packs, O: Sink, T: Sink>(
    alloc: Global,
    transfer: Transfer,
    source: &mut S,
    packs: &mut P,
    out: &mut O,
    trace: &mut T,
) -> Status
    requires { IsInRange transfer }
    ensures runs { RunsTransfer transfer (status_code result)
        (outside S.tells S.left S.faults P.tells P.held P.faults P.failed_at O.tells O.taken O.faults T.tells T.taken T.faults source.old packs.old out.old trace.old)
        (outside S.tells S.left S.faults P.tells P.held P.faults P.failed_at O.tells O.taken O.faults T.tells T.taken T.faults source.new packs.new out.new trace.new) }
    ensures statuses { IsTransferCode transfer (status_code result) }
    ensures causes { HasItsCause (status_code result)
        (outside S.tells S.left S.faults P.tells P.held P.faults P.failed_at O.tells O.taken O.faults T.tells T.taken T.faults source.old packs.old out.old trace.old)
        (outside S.tells S.left S.faults P.tells P.held P.faults P.failed_at O.tells O.taken O.faults T.tells T.taken T.faults source.new packs.new out.new trace.new) }
    ensures leaves { LeavesAlone (Some (TransferBytes transfer)) (status_code result) source.old source.new packs.old packs.new out.old out.new trace.old trace.new }
{
    let answer = run_transfer(alloc, transfer, source, packs, out, trace);
    status_of(answer)
}
