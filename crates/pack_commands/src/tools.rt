ghost use Rattle.std.specs.Prelude.{◌≡◌, ◌≤◌, ◌<◌, IsTrue};
ghost use Rattle.pack_geometry.specs.Geometry.{block_count};
ghost use Rattle.outside_traits.specs.Causes.{Rose};
ghost use Rattle.command_parts.specs.Statuses.{status_code};
ghost use Rattle.pack_commands.specs.Tools.{RunsAdd, RunsFresh, RunsList, RunsMark, fault_status, fault_text};
ghost use Rattle.command_parts.specs.Lines.{Told};

use crate::text::{entry_line, fault_line, marked_line, serial_line, tell};
use bad144_tool::{AddWay, ToolFault, add, fresh, list, mark};
use command_parts::Status;
use outside_traits::traits::{Packs, Sink};
use outside_traits::whole::write_all;
use pack_geometry::DriveKind;

/// The status that a fault of the tool ends with.
fn status_of(fault: &ToolFault) -> Status
    ensures { result ≡ fault_status fault.now }
{
    match fault {
        ToolFault::NoTable
        | ToolFault::Reserved
        | ToolFault::Listed(_)
        | ToolFault::Full
        | ToolFault::Spare(_) => Status::ToolRefused,
        ToolFault::TooLong { .. } => Status::TooLong,
        ToolFault::Store => Status::PacksFailed,
        ToolFault::Sink => Status::SinkFailed,
    }
}

/// Prints why nothing more is done, and gives the status for it.
fn refuse<O: Sink>(out: &mut O, unit: u8, fault: &ToolFault) -> Status
    ensures status { result ≡ fault_status fault.now }
    ensures never_again { IsTrue (O.tells out.new) → IsTrue (O.tells out.old) }
    ensures told { IsTrue (O.tells out.new) → Told (O.taken out.old) (O.taken out.new) (fault_text unit fault.now) (O.faults out.old) (O.faults out.new) }
    ensures later { O.faults out.old ≤ O.faults out.new }
{
    let _ = write_all(out, fault_line(unit, fault).as_bytes());
    status_of(fault)
}

/// The command `bad144 list`: prints the table of a unit's pack.
pub fn run_list<P: Packs, O: Sink>(packs: &mut P, out: &mut O, unit: u8, kind: DriveKind) -> Status
    requires { unit < 32 }
    ensures never_again { IsTrue (P.tells packs.new) → IsTrue (P.tells packs.old) }
    ensures runs { RunsList kind unit (status_code result) (P.tells packs.new) (P.held packs.old) (P.held packs.new)
        (O.tells out.new) (O.taken out.old) (O.taken out.new) (O.faults out.old) (O.faults out.new) }
    ensures sink { result ≡ Status.SinkFailed → Rose (O.faults out.old) (O.faults out.new) }
    ensures store { result ≡ Status.PacksFailed → Rose (P.faults packs.old) (P.faults packs.new) }
{
    match list(packs, unit, kind, out) {
        Ok(()) => Status::Done,
        Err(fault) => refuse(out, unit, &fault),
    }
}

/// The command `bad144 add`: adds a block to the table of a unit's pack, and prints the index of its entry.
pub fn run_add<P: Packs, O: Sink>(
    packs: &mut P,
    out: &mut O,
    unit: u8,
    kind: DriveKind,
    block: u32,
    way: AddWay,
) -> Status
    requires unit { unit < 32 }
    requires block { block < block_count kind }
    ensures never_again { IsTrue (P.tells packs.new) → IsTrue (P.tells packs.old) }
    ensures runs { RunsAdd kind unit block way (status_code result) (P.tells packs.new) (P.held packs.old) (P.held packs.new)
        (O.tells out.new) (O.taken out.old) (O.taken out.new) (O.faults out.old) (O.faults out.new) }
    ensures sink { result ≡ Status.SinkFailed → Rose (O.faults out.old) (O.faults out.new) }
    ensures store { result ≡ Status.PacksFailed → Rose (P.faults packs.old) (P.faults packs.new) }
{
    match add(packs, unit, kind, block, way) {
        Ok(i) => tell(out, entry_line(i)),
        Err(fault) => refuse(out, unit, &fault),
    }
}

/// The command `bad144 fresh`: writes an empty table to a unit's pack, and prints its serial number.
pub fn run_fresh<P: Packs, O: Sink>(
    packs: &mut P,
    out: &mut O,
    unit: u8,
    kind: DriveKind,
    serial: u32,
) -> Status
    requires { unit < 32 }
    ensures never_again { IsTrue (P.tells packs.new) → IsTrue (P.tells packs.old) }
    ensures runs { RunsFresh kind unit serial (status_code result) (P.tells packs.new) (P.held packs.old) (P.held packs.new)
        (O.tells out.new) (O.taken out.old) (O.taken out.new) (O.faults out.old) (O.faults out.new) }
    ensures sink { result ≡ Status.SinkFailed → Rose (O.faults out.old) (O.faults out.new) }
    ensures store { result ≡ Status.PacksFailed → Rose (P.faults packs.old) (P.faults packs.new) }
{
    match fresh(packs, unit, kind, serial) {
        Ok(()) => tell(out, serial_line(serial)),
        Err(fault) => refuse(out, unit, &fault),
    }
}

/// The command `bad144 mark`: marks the data blocks that the table of a unit's pack lists, and prints how many of them were not marked
/// before.
pub fn run_mark<P: Packs, O: Sink>(packs: &mut P, out: &mut O, unit: u8, kind: DriveKind) -> Status
    requires { unit < 32 }
    ensures never_again { IsTrue (P.tells packs.new) → IsTrue (P.tells packs.old) }
    ensures runs { RunsMark kind unit (status_code result) (P.tells packs.new) (P.held packs.old) (P.held packs.new)
        (O.tells out.new) (O.taken out.old) (O.taken out.new) (O.faults out.old) (O.faults out.new) }
    ensures sink { result ≡ Status.SinkFailed → Rose (O.faults out.old) (O.faults out.new) }
    ensures store { result ≡ Status.PacksFailed → Rose (P.faults packs.old) (P.faults packs.new) }
{
    match mark(packs, unit, kind) {
        Ok(count) => tell(out, marked_line(count)),
        Err(fault) => refuse(out, unit, &fault),
    }
}
