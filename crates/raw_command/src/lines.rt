// The lines that transfers print.
ghost use Rattle.std.specs.Prelude.{◌≡◌, ◌≤◌};
ghost use Rattle.raw_command.specs.Endings.{done_text, fault_text};

use crate::fault::TransferFault;
use command_parts::{Writing, numbered, plain, too_long};
use mass_text::LineBuf;

/// What is printed for a fault. Nothing is if the packs, the source or a sink failed, or if there was no memory.
#[tactic(auto, unfolding(crate::specs::Endings::fault_text))]
pub(crate) fn fault_line(unit: u8, fault: TransferFault) -> LineBuf
    ensures { result ≡ fault_text unit fault }
{
    match fault {
        TransferFault::Outside => plain("refused outside"),
        TransferFault::Unusable { done } => numbered("refused unusable ", done),
        TransferFault::TooLong { length } => too_long(unit, length),
        TransferFault::Memory
        | TransferFault::Source
        | TransferFault::Store
        | TransferFault::Sink => LineBuf::new(),
    }
}

/// What is printed after `size` bytes of a source were written: `wrote N`, or `dumped K` for a dump.
#[tactic(auto, unfolding(crate::specs::Endings::done_text))]
pub(crate) fn done_line(writing: Writing, size: usize) -> LineBuf
    requires { size ≤ 16777216 }
    ensures { result ≡ done_text writing size }
{
    match writing {
        Writing::Raw { .. } => numbered("wrote ", size as u64),
        Writing::Dump { .. } => numbered("dumped ", (size as u64 + 511) / 512),
    }
}
