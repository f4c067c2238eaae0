ghost use Rattle.std.specs.Prelude.{◌≡◌, ◌++◌, IsTrue};
ghost use Rattle.outside_traits.specs.Causes.{Rose};
ghost use Rattle.outside_traits.specs.Puts.{TakesFront};
ghost use Rattle.pack_commands.specs.Formats.{IsToldEnd};
ghost use Rattle.pack_commands.specs.Tools.{entry_text, fault_text, marked_text, serial_text};

use bad144_tool::ToolFault;
use command_parts::{Status, numbered, plain, too_long};
use mass_text::LineBuf;
use outside_traits::traits::Sink;
use outside_traits::whole::write_all;

/// What is printed for a fault of the tool. Nothing is if the packs or the sink failed.
#[tactic(auto, unfolding(crate::specs::Tools::fault_text))]
pub(crate) fn fault_line(unit: u8, fault: &ToolFault) -> LineBuf
    ensures { result ≡ fault_text unit fault.now }
{
    match fault {
        ToolFault::NoTable => plain("refused no table"),
        ToolFault::Reserved => plain("refused reserved"),
        ToolFault::Listed(i) => numbered("refused listed ", u64::from(*i)),
        ToolFault::Full => plain("refused full"),
        ToolFault::Spare(j) => numbered("refused spare ", u64::from(*j)),
        ToolFault::TooLong { length } => too_long(unit, *length),
        ToolFault::Store | ToolFault::Sink => LineBuf::new(),
    }
}

/// The text of an addition: `entry I`.
pub(crate) fn entry_line(i: u8) -> LineBuf
    ensures { result ≡ entry_text i }
{
    numbered("entry ", u64::from(i))
}

/// The text of a new table: `serial S`.
pub(crate) fn serial_line(serial: u32) -> LineBuf
    ensures { result ≡ serial_text serial }
{
    numbered("serial ", u64::from(serial))
}

/// The text of blocks that were marked: `marked K`.
pub(crate) fn marked_line(count: u8) -> LineBuf
    ensures { result ≡ marked_text count }
{
    numbered("marked ", u64::from(count))
}

/// Prints a line that a call ends with.
pub(crate) fn tell<O: Sink>(out: &mut O, line: LineBuf) -> Status
    ensures never_again { IsTrue (O.tells out.new) → IsTrue (O.tells out.old) }
    ensures ends { IsToldEnd result }
    ensures done { result ≡ Status.Done → IsTrue (O.tells out.new) → O.taken out.new ≡ O.taken out.old ++ line }
    ensures cut { result ≡ Status.SinkFailed → IsTrue (O.tells out.new) → TakesFront (O.taken out.old) (O.taken out.new) line }
    ensures rose { result ≡ Status.SinkFailed → Rose (O.faults out.old) (O.faults out.new) }
{
    match write_all(out, line.as_bytes()) {
        Ok(()) => Status::Done,
        Err(_) => Status::SinkFailed,
    }
}
