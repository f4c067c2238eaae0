// The unit of a transfer is attached.
ghost use Rattle.std.specs.Prelude.{◌≡◌, ◌≤◌, ◌<◌, IsTrue, IfOk, IfErr, IsErrOf};
ghost use Rattle.outside_traits.specs.Causes.{Rose};
ghost use Rattle.mba_autoconf.specs.Attach.{IsAttaching};
ghost use Rattle.raw_command.specs.Faults.{IsOfAttaching};
ghost use Rattle.raw_command.specs.Units.{IsAttached, IsFoundLong};

use crate::fault::TransferFault;
use drive_model::Drive;
use mba_autoconf::attach;
use outside_traits::traits::Packs;
use pack_geometry::DriveKind;
use raw_io::{Subsystem, UnitSetup};
use std::alloc::Global;

/// Attaches a unit, with the table of its pack, and makes a driver for it that takes one request at a time. The packs stay as they
/// were.
///
/// `TooLong` comes exactly if the image has more bytes than the blocks of the drive. `Store` comes only if the packs' count of faults
/// rose, and `Memory` only if there was no memory.
pub(crate) fn attached<P: Packs>(
    alloc: Global,
    unit: u8,
    kind: DriveKind,
    packs: &mut P,
) -> Result<Subsystem, TransferFault>
    requires unit { unit < 32 }
    ensures attached { IfOk result (λ s. IsAttached (P.tells packs.new) (P.held packs.old unit) unit kind s) }
    ensures long { IfErr result (IsFoundLong (P.tells packs.new) (P.held packs.old unit) kind) }
    ensures only { IfErr result IsOfAttaching }
    ensures same { IsTrue (P.tells packs.new) → P.held packs.new ≡ P.held packs.old }
    ensures never_again { IsTrue (P.tells packs.new) → IsTrue (P.tells packs.old) }
    ensures later { P.faults packs.old ≤ P.faults packs.new }
    ensures store { IsErrOf result TransferFault.Store → Rose (P.faults packs.old) (P.faults packs.new) }
    ensures at { IsErrOf result TransferFault.Store → IsAttaching kind unit (P.failed_at packs.new) }
{
    let mut drive = Drive::new(kind, u16::from(unit));
    let found = attach(&mut drive, packs, unit)?;
    let units = [UnitSetup {
        unit,
        kind,
        table: found.table,
    }];
    let subsystem = Subsystem::new(alloc, &units, 1, 0)?;
    Ok(subsystem)
}
