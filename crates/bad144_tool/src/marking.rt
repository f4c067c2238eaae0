ghost use Rattle.std.specs.Prelude.{◌≡◌, ◌<◌, ◌≤◌, ◌+◌, [], ◌∷◌, if◌then◌else◌, IsTrue, IfOk, IfErr, length};
ghost use Rattle.pack_geometry.specs.Geometry.{block_number, IsInside};
ghost use Rattle.outside_traits.specs.Causes.{HasCause};
ghost use Rattle.bad144_tool.specs.Changes.{DoesAll};
ghost use Rattle.bad144_tool.specs.Faults.{IsCounted, IsMarkFault, IsWhy, LeavesMarks};
ghost use Rattle.bad144_tool.specs.Marking.{Marks, markings, to_mark, wants_mark};

use crate::edit::write_mark;
use crate::fault::ToolFault;
use crate::tool::table_that_fits;
use bad144_table::{BadTable, entries, entry, number};
use outside_traits::traits::{Packs, StoreFailed};
use pack_geometry::{DriveKind, Place, data_limit};

/// Whether a block is a data block that is not marked.
fn wants<P: Packs>(
    packs: &mut P,
    unit: u8,
    kind: DriveKind,
    block: u32,
) -> Result<bool, StoreFailed>
    requires { unit < 32 }
    ensures never_again { IsTrue (P.tells packs.new) → IsTrue (P.tells packs.old) }
    ensures same { IsTrue (P.tells packs.new) → P.held packs.new ≡ P.held packs.old }
    ensures wants { IfOk result (λ on. IsTrue (P.tells packs.new) → on ≡ wants_mark kind (P.held packs.old unit) block) }
    ensures cause { HasCause (P.faults packs.old) (P.faults packs.new) result }
{
    if block >= data_limit(kind) {
        return Ok(false);
    }
    let marked = packs.marked(unit, block)?;
    Ok(!marked)
}

/// Marks the block of a place, if it is a data block that is not marked. True if it did.
fn mark_place<P: Packs>(
    packs: &mut P,
    unit: u8,
    kind: DriveKind,
    place: Place,
) -> Result<bool, StoreFailed>
    requires unit { unit < 32 }
    requires place { IsInside kind place }
    ensures does { DoesAll P.tells P.held P.faults unit packs.old packs.new result (markings kind (P.held packs.old unit) (place ∷ [])) }
    ensures did { IfOk result (λ on. IsTrue (P.tells packs.new) → on ≡ wants_mark kind (P.held packs.old unit) (block_number kind place)) }
{
    let block = number(kind, place);
    let on = wants(packs, unit, kind, block)?;
    write_mark(packs, unit, block, on)?;
    Ok(on)
}

/// A count, plus one if a block was marked.
fn more(count: u8, on: bool) -> u8
    requires { count < 126 }
    ensures { result ≡ count + (if on then 1 else 0) }
{
    if on { count + 1 } else { count }
}

/// Marks the listed data blocks that are not marked, in the order of the table, and gives how many they were.
fn mark_all<P: Packs>(
    packs: &mut P,
    unit: u8,
    kind: DriveKind,
    table: &BadTable,
) -> Result<u8, StoreFailed>
    requires unit { unit < 32 }
    requires kind { table.now.kind ≡ kind }
    ensures does { DoesAll P.tells P.held P.faults unit packs.old packs.new result (markings kind (P.held packs.old unit) table.now.places) }
    ensures counted { IfOk result (λ count. IsTrue (P.tells packs.new) → count ≡ length (to_mark kind (P.held packs.old unit) table.now.places)) }
    ensures few { IfOk result (λ count. count ≤ 126) }
{
    let mut count = 0u8;
    for i in 0..entries(table) {
        let on = mark_place(packs, unit, kind, entry(table, i))?;
        count = more(count, on);
    }
    Ok(count)
}

/// Marks each data block that the table of a unit's pack lists and that is not marked, the lowest one first, and answers how many
/// blocks were marked. From then on each listed data block lives at its replacement. Places on the reserved tracks are passed over, so
/// the copies of the table and the replacements stay as they are.
///
/// The refusals come in this order, and change nothing: `TooLong` if the image is longer than the pack; `NoTable` if no copy is both
/// unmarked and the text of a table. `Store` comes only if the packs' count of faults rose; it leaves a front of the marks, the last
/// one set or not. No other fault comes.
pub fn mark<P: Packs>(packs: &mut P, unit: u8, kind: DriveKind) -> Result<u8, ToolFault>
    requires { unit < 32 }
    ensures never_again { IsTrue (P.tells packs.new) → IsTrue (P.tells packs.old) }
    ensures marked { IfOk result (λ count. IsTrue (P.tells packs.new) → Marks kind unit (P.held packs.old) (P.held packs.new) count) }
    ensures few { IfOk result (λ count. count ≤ 126) }
    ensures faults { IfErr result (IsMarkFault kind) }
    ensures why { IfErr result (λ fault. IsTrue (P.tells packs.new) → IsWhy kind (P.held packs.old unit) 0 fault) }
    ensures left { IfErr result (λ fault. IsTrue (P.tells packs.new) → LeavesMarks kind unit (P.held packs.old) (P.held packs.new) fault) }
    ensures store { IsCounted ToolFault.Store (P.faults packs.old) (P.faults packs.new) result }
{
    let table = table_that_fits(packs, unit, kind)?;
    let count = mark_all(packs, unit, kind, &table)?;
    Ok(count)
}
