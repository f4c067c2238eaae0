//! The command `format`.
ghost use Rattle.std.specs.Prelude.{◌≡◌, ◌<◌, ◌≤◌, IsTrue};
ghost use Rattle.outside_traits.specs.Causes.{Rose};
ghost use Rattle.pack_commands.specs.Formats.{RunsFormat, format_status, format_text, formatted_text};
ghost use Rattle.command_parts.specs.Statuses.{status_code};
ghost use Rattle.command_parts.specs.Lines.{Told};

use crate::text::tell;
use command_parts::{Status, numbered, plain, too_long};
use mass_text::LineBuf;
use outside_traits::traits::{Packs, Sink};
use outside_traits::whole::write_all;
use pack_format::{FormatFault, format};
use pack_geometry::DriveKind;
use std::alloc::Global;

/// The text of a pack that was formatted: `formatted bad K`.
fn formatted_line(bad: u8) -> LineBuf
    ensures { result ≡ formatted_text bad }
{
    numbered("formatted bad ", u64::from(bad))
}

/// What is printed for a fault. Nothing is if the packs failed or there was no memory.
#[tactic(auto, unfolding(crate::specs::Formats::format_text))]
fn fault_line(unit: u8, fault: &FormatFault) -> LineBuf
    ensures { result ≡ format_text unit fault.now }
{
    match fault {
        FormatFault::TooMany { found } => numbered("refused too many ", u64::from(*found)),
        FormatFault::Spare(index) => numbered("refused spare ", u64::from(*index)),
        FormatFault::NoCopy => plain("refused no copy"),
        FormatFault::Differs { block, .. } => numbered("refused differs ", u64::from(*block)),
        FormatFault::TooLong { length } => too_long(unit, *length),
        FormatFault::Store | FormatFault::Memory => LineBuf::new(),
    }
}

/// The status that a fault ends with.
fn status_of(fault: &FormatFault) -> Status
    ensures { result ≡ format_status fault.now }
{
    match fault {
        FormatFault::TooMany { .. }
        | FormatFault::Spare(_)
        | FormatFault::NoCopy
        | FormatFault::Differs { .. } => Status::FormatRefused,
        FormatFault::TooLong { .. } => Status::TooLong,
        FormatFault::Store => Status::PacksFailed,
        FormatFault::Memory => Status::OutOfMemory,
    }
}

/// Prints why a pack was not formatted, and gives the status for it.
fn refuse<O: Sink>(out: &mut O, unit: u8, fault: &FormatFault) -> Status
    ensures status { result ≡ format_status fault.now }
    ensures never_again { IsTrue (O.tells out.new) → IsTrue (O.tells out.old) }
    ensures told { IsTrue (O.tells out.new) → Told (O.taken out.old) (O.taken out.new) (format_text unit fault.now) (O.faults out.old) (O.faults out.new) }
    ensures later { O.faults out.old ≤ O.faults out.new }
    ensures silent { result ≡ Status.OutOfMemory → out.new ≡ out.old }
{
    match fault {
        FormatFault::Memory => Status::OutOfMemory,
        _ => {
            let _ = write_all(out, fault_line(unit, fault).as_bytes());
            status_of(fault)
        }
    }
}

/// The command `format`: tests and formats a unit's pack, and prints how many of its data blocks are bad.
pub fn run_format<P: Packs, O: Sink>(
    alloc: Global,
    packs: &mut P,
    out: &mut O,
    unit: u8,
    kind: DriveKind,
    serial: u32,
) -> Status
    requires { unit < 32 }
    ensures never_again { IsTrue (P.tells packs.new) → IsTrue (P.tells packs.old) }
    ensures runs { RunsFormat kind unit serial (status_code result) (P.tells packs.new) (P.held packs.old) (P.held packs.new)
        (O.tells out.new) (O.taken out.old) (O.taken out.new) (O.faults out.old) (O.faults out.new) }
    ensures sink { result ≡ Status.SinkFailed → Rose (O.faults out.old) (O.faults out.new) }
    ensures store { result ≡ Status.PacksFailed → Rose (P.faults packs.old) (P.faults packs.new) }
    ensures silent { result ≡ Status.OutOfMemory → out.new ≡ out.old }
{
    match format(alloc, packs, unit, kind, serial) {
        Ok(report) => tell(out, formatted_line(report.bad)),
        Err(fault) => refuse(out, unit, &fault),
    }
}
