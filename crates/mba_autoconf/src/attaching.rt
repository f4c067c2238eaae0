//! Attaching a drive.
ghost use Rattle.std.specs.Prelude.{◌≡◌, ◌<◌, ◌≤◌, true, IfOk, IfErr, IfSome, IsErrOf, IsTrue};
ghost use Rattle.hardware_table.specs.Drive.{is_ready};
ghost use Rattle.hardware_table.specs.Functions.{attached};
ghost use Rattle.pack_geometry.specs.declared.DriveKind.{DriveKind};
ghost use Rattle.pack_geometry.specs.TableSpelling.{IsTable};
ghost use Rattle.outside_traits.specs.Causes.{Rose};
ghost use Rattle.mba_autoconf.specs.declared.attaching.Attached.{Attached};
ghost use Rattle.mba_autoconf.specs.Attach.{Answers, IsAttaching, IsLong};

use crate::probing::kind_of_drive;
use bad144_table::{BadTable, entries, table_of};
use drive_model::Drive;
use outside_traits::traits::{Packs, StoreFailed};
use pack_geometry::{DriveKind, blocks};
use thiserror::Error;

/// A drive that is attached: its kind, and the bad-sector table of its pack, if it has one.
#[derive(Drop)]
pub struct Attached {
    pub kind: DriveKind,
    pub table: Option<BadTable>,
}

/// Why a pack is not attached.
#[derive(Debug, Drop, Error)]
pub enum AttachFault {
    /// The image has more bytes than the drive's blocks.
    #[error("the image has {length} bytes")]
    TooLong { length: u64 },
    /// The packs failed.
    #[error("the packs failed")]
    Store,
}

impl From<StoreFailed> for AttachFault {
    ghost use Rattle.std.specs.Prelude.{◌≡◌};
    ghost use Rattle.mba_autoconf.specs.declared.attaching.AttachFault.TheVariants.{Store};

    ghost from_gives = { λ _ e. e ≡ Store };

    fn from(_: StoreFailed) -> AttachFault {
        AttachFault::Store
    }
}

/// The law of tables: each table is valid.
fn valid_law(table: &Option<BadTable>)
    ensures { IfSome table.now (λ t. IsTable t) }
{
    match table {
        Some(table) => {
            entries(table);
        }
        None => {}
    }
}

/// Attaches a drive that is ready and online, with the pack of unit `unit`, which is below 32. In every case the drive
/// does PRESET and PACK, and its offset register then says the 16-bit format and no offset. The drive type register names
/// the kind, and the first of the pack's five copies that is unmarked and spells a table for that kind tells the table.
///
/// TooLong comes, before any block is read, exactly if the image has more bytes than the drive's blocks have; Store comes
/// only if the packs' count of faults rose, as they failed at the image's length or at a copy of its table. The packs stay as they are.
pub fn attach<P: Packs>(drive: &mut Drive, packs: &mut P, unit: u8) -> Result<Attached, AttachFault>
    requires unit { unit < 32 }
    requires idle { (is_ready drive.old.work ≡ true) × (drive.old.online ≡ true) }
    ensures drive { drive.new ≡ attached drive.old }
    ensures kind { IfOk result (λ found. found.kind ≡ drive.old.kind) }
    ensures table { IfOk result (λ found. IfSome found.table (λ table. IsTable table × (table.kind ≡ drive.old.kind))) }
    ensures answer { IsTrue (P.tells packs.new) → Answers drive.old.kind (P.held packs.old unit) result }
    ensures too_long { IfErr result (IsLong drive.old.kind) }
    ensures never_again { IsTrue (P.tells packs.new) → IsTrue (P.tells packs.old) }
    ensures same { IsTrue (P.tells packs.new) → P.held packs.new ≡ P.held packs.old }
    ensures later { P.faults packs.old ≤ P.faults packs.new }
    ensures store { IsErrOf result AttachFault.Store → Rose (P.faults packs.old) (P.faults packs.new) }
    ensures at { IsErrOf result AttachFault.Store → IsAttaching drive.old.kind unit (P.failed_at packs.new) }
{
    let kind = kind_of_drive(drive);
    drive.attach();
    let length = packs.length(unit)?;
    if length > 512 * u64::from(blocks(kind)) {
        return Err(AttachFault::TooLong { length });
    }
    let table = table_of(packs, unit, kind)?;
    valid_law(&table);
    Ok(Attached { kind, table })
}
