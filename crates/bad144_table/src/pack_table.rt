ghost use Rattle.std.specs.Prelude.{◌≡◌, ◌<◌, IfOk, IfSome, IsTrue, MatchOption, OnErr};
ghost use Rattle.pack_geometry.specs.Geometry.{copy_at};
ghost use Rattle.pack_geometry.specs.TableSpelling.{Table};
ghost use Rattle.pack_geometry.specs.PackTable.{IsTableOf, Tells};
ghost use Rattle.outside_traits.specs.Causes.{HasCause};
ghost use Rattle.outside_traits.specs.declared.traits.PackCall.TheVariants.{Block};
ghost use Rattle.bad144_table.specs.Copies.{IsAtCopy};

use crate::spelling::read_table;
use crate::table::BadTable;
use outside_traits::traits::{Packs, StoreFailed};
use pack_geometry::{DriveKind, copy_block};

/// The table that copy `k` tells. None if the copy is marked, or if its bytes spell no table for this kind.
fn told_by<P: Packs>(
    packs: &mut P,
    unit: u8,
    kind: DriveKind,
    k: u32,
) -> Result<Option<BadTable>, StoreFailed>
    requires unit { unit < 32 }
    requires copy { k < 5 }
    ensures never_again { IsTrue (P.tells packs.new) → IsTrue (P.tells packs.old) }
    ensures drive { IfOk result (λ told. IfSome told (λ table. table.kind ≡ kind)) }
    ensures told { IfOk result (λ told. IsTrue (P.tells packs.new) → MatchOption told
        ((table : Table) → ¬ (Tells kind (P.held packs.old unit) k table)) (λ table. Tells kind (P.held packs.old unit) k table)) }
    ensures same { IsTrue (P.tells packs.new) → P.held packs.new ≡ P.held packs.old }
    ensures cause { HasCause (P.faults packs.old) (P.faults packs.new) result }
    ensures at { OnErr result (P.failed_at packs.new ≡ Block unit (copy_at kind k)) }
{
    let block = copy_block(kind, k);
    if packs.marked(unit, block)? {
        return Ok(None);
    }
    let mut bytes = [0u8; 512];
    packs.read(unit, block, &mut bytes)?;
    match read_table(kind, &bytes) {
        Ok(table) => Ok(Some(table)),
        Err(_) => Ok(None),
    }
}

/// The table of a unit's pack, by DEC STD 144: the first of its five copies that is unmarked and spells a table for this
/// kind of drive tells it. None if no copy does. The packs stay as they are. The call fails only if their count of faults rose,
/// and then at one of the five copies.
pub fn table_of<P: Packs>(
    packs: &mut P,
    unit: u8,
    kind: DriveKind,
) -> Result<Option<BadTable>, StoreFailed>
    requires { unit < 32 }
    ensures never_again { IsTrue (P.tells packs.new) → IsTrue (P.tells packs.old) }
    ensures drive { IfOk result (λ table. IfSome table (λ t. t.kind ≡ kind)) }
    ensures table { IfOk result (λ table. IsTrue (P.tells packs.new) → IsTableOf kind (P.held packs.old unit) table) }
    ensures same { IsTrue (P.tells packs.new) → P.held packs.new ≡ P.held packs.old }
    ensures cause { HasCause (P.faults packs.old) (P.faults packs.new) result }
    ensures at { OnErr result (IsAtCopy kind unit (P.failed_at packs.new)) }
{
    for k in 0..5u32 {
        match told_by(packs, unit, kind, k)? {
            Some(table) => return Ok(Some(table)),
            None => {}
        }
    }
    Ok(None)
}
