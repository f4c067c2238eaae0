ghost use Rattle.std.specs.Prelude.{◌≡◌, ◌≢◌, ℕ, ◌<◌, ◌≤◌, ◌*◌, [], length, IsTrue, IfOk, IfErr, IfSome, OnOk, IsErrOf};
ghost use Rattle.pack_geometry.specs.Geometry.{block_count, limit_of};
ghost use Rattle.pack_geometry.specs.TableSpelling.{IsTable, Table, table_text};
ghost use Rattle.outside_traits.specs.Puts.{Puts};
ghost use Rattle.bad144_tool.specs.Adding.{Adds, AreFree, Fits, HasTable, IsFirstMarked, MayList};
ghost use Rattle.bad144_tool.specs.Changes.{IsCutShort, with_changes};
ghost use Rattle.bad144_tool.specs.Edit.{copies};
ghost use Rattle.bad144_tool.specs.Faults.{IsAddFault, IsCounted, IsFreshFault, IsListFault, IsMarkFault, IsSpareFault, IsWhy, Leaves};
ghost use Rattle.bad144_tool.specs.Texts.{Lists, ListsFront, entry_lines, list_text, table_line as the_line};

use crate::edit::{AddWay, write_copies, write_edit};
use crate::fault::ToolFault;
use crate::text::{entry_line, no_table_line, table_line};
use bad144_table::{BadTable, empty_table, entries, entry, insert, number, table_of};
use outside_traits::traits::{Packs, Sink, SinkFailed};
use outside_traits::whole::write_all;
use pack_geometry::{DriveKind, blocks, place_law, place_of, replacement};

/// Looks whether the image is no longer than the pack.
fn check_length<P: Packs>(packs: &mut P, unit: u8, kind: DriveKind) -> Result<(), ToolFault>
    requires { unit < 32 }
    ensures never_again { IsTrue (P.tells packs.new) → IsTrue (P.tells packs.old) }
    ensures same { IsTrue (P.tells packs.new) → P.held packs.new ≡ P.held packs.old }
    ensures fits { OnOk result (IsTrue (P.tells packs.new) → Fits kind (P.held packs.old unit)) }
    ensures faults { IfErr result (IsFreshFault kind) }
    ensures why { IfErr result (λ fault. IsTrue (P.tells packs.new) → IsWhy kind (P.held packs.old unit) 0 fault) }
    ensures store { IsCounted ToolFault.Store (P.faults packs.old) (P.faults packs.new) result }
{
    let length = packs.length(unit)?;
    if length > 512 * u64::from(blocks(kind)) {
        return Err(ToolFault::TooLong { length });
    }
    Ok(())
}

/// A table with a place more, and the index at which that stands.
#[derive(Drop)]
struct Plan {
    table: BadTable,
    index: u8,
}

/// The table of a unit's pack, which is no longer than it may be.
pub(crate) fn table_that_fits<P: Packs>(
    packs: &mut P,
    unit: u8,
    kind: DriveKind,
) -> Result<BadTable, ToolFault>
    requires { unit < 32 }
    ensures never_again { IsTrue (P.tells packs.new) → IsTrue (P.tells packs.old) }
    ensures same { IsTrue (P.tells packs.new) → P.held packs.new ≡ P.held packs.old }
    ensures drive { IfOk result (λ table. table.kind ≡ kind) }
    ensures table { IfOk result (λ table. IsTrue (P.tells packs.new) → HasTable kind (P.held packs.old unit) table) }
    ensures faults { IfErr result (IsAddFault kind) }
    ensures only { IfErr result (IsMarkFault kind) }
    ensures why { (block : ℕ) → IfErr result (λ fault. IsTrue (P.tells packs.new) → IsWhy kind (P.held packs.old unit) block fault) }
    ensures store { IsCounted ToolFault.Store (P.faults packs.old) (P.faults packs.new) result }
{
    check_length(packs, unit, kind)?;
    table_of(packs, unit, kind)?.ok_or(ToolFault::NoTable)
}

/// Looks whether replacements `i` to `end - 1` are unmarked. Spare names the least that is marked.
fn check_spare<P: Packs>(
    packs: &mut P,
    unit: u8,
    kind: DriveKind,
    i: u8,
    end: u8,
) -> Result<(), ToolFault>
    requires unit { unit < 32 }
    requires end { end ≤ 126 }
    ensures never_again { IsTrue (P.tells packs.new) → IsTrue (P.tells packs.old) }
    ensures same { IsTrue (P.tells packs.new) → P.held packs.new ≡ P.held packs.old }
    ensures free { OnOk result (IsTrue (P.tells packs.new) → AreFree kind (P.held packs.old unit) i end) }
    ensures faults { IfErr result IsSpareFault }
    ensures marked { (j : ℕ) → IsErrOf result (ToolFault.Spare j) → IsTrue (P.tells packs.new) →
        IsFirstMarked kind (P.held packs.old unit) i end j }
    ensures store { IsCounted ToolFault.Store (P.faults packs.old) (P.faults packs.new) result }
{
    for j in i..end {
        if packs.marked(unit, replacement(kind, u32::from(j)))? {
            return Err(ToolFault::Spare(j));
        }
    }
    Ok(())
}

/// The table with a block's place in it, and its index, if the block may be listed; otherwise why it may not. Nothing is written.
fn make_plan<P: Packs>(
    packs: &mut P,
    unit: u8,
    kind: DriveKind,
    block: u32,
) -> Result<Plan, ToolFault>
    requires unit { unit < 32 }
    requires block { block < block_count kind }
    ensures never_again { IsTrue (P.tells packs.new) → IsTrue (P.tells packs.old) }
    ensures same { IsTrue (P.tells packs.new) → P.held packs.new ≡ P.held packs.old }
    ensures index { IfOk result (λ plan. plan.index < length plan.table.places) }
    ensures room { IfOk result (λ plan. length plan.table.places ≤ 126) }
    ensures low { OnOk result (block < limit_of kind) }
    ensures may { IfOk result (λ plan. IsTrue (P.tells packs.new) →
        (old : Table) × MayList kind (P.held packs.old unit) block plan.index old plan.table) }
    ensures faults { IfErr result (IsAddFault kind) }
    ensures why { IfErr result (λ fault. IsTrue (P.tells packs.new) → IsWhy kind (P.held packs.old unit) block fault) }
    ensures store { IsCounted ToolFault.Store (P.faults packs.old) (P.faults packs.new) result }
{
    place_law(kind);
    let mut table = table_that_fits(packs, unit, kind)?;
    let index = insert(&mut table, place_of(kind, block))?;
    check_spare(packs, unit, kind, index, entries(&table))?;
    Ok(Plan { table, index })
}

/// Adds a block to the table of a unit's pack, and answers the index of its entry.
///
/// The writes come in this order. Replacement `j` is copied to replacement `j + 1`, for `j` from the last entry's index down to the new
/// index. The replacement of the new index gets the block's own bytes with `copy`, and zeros otherwise. All five copies of the table
/// are written, copy 0 first. With `mark`, the block is marked.
///
/// The refusals come in this order, and change nothing: `TooLong` if the image is longer than the pack; `NoTable` if no copy is both
/// unmarked and the text of a table; `Reserved` if the block is at or above the data limit; `Listed` with the block's index if the
/// table lists it; `Full` if the table has 126 entries; `Spare` with the lowest replacement that would be written and is marked.
/// `Store` comes only if the packs' count of faults rose; it leaves a front of the writes, the last one done or not. `Sink` never
/// comes.
pub fn add<P: Packs>(
    packs: &mut P,
    unit: u8,
    kind: DriveKind,
    block: u32,
    way: AddWay,
) -> Result<u8, ToolFault>
    requires unit { unit < 32 }
    requires block { block < block_count kind }
    ensures never_again { IsTrue (P.tells packs.new) → IsTrue (P.tells packs.old) }
    ensures added { IfOk result (λ i. IsTrue (P.tells packs.new) → Adds kind unit block way (P.held packs.old) (P.held packs.new) i) }
    ensures index { IfOk result (λ i. i < 126) }
    ensures faults { IfErr result (IsAddFault kind) }
    ensures why { IfErr result (λ fault. IsTrue (P.tells packs.new) → IsWhy kind (P.held packs.old unit) block fault) }
    ensures left { IfErr result (λ fault. IsTrue (P.tells packs.new) → Leaves kind unit block way (P.held packs.old) (P.held packs.new) fault) }
    ensures store { IsCounted ToolFault.Store (P.faults packs.old) (P.faults packs.new) result }
{
    let plan = make_plan(packs, unit, kind, block)?;
    write_edit(packs, unit, kind, block, way, &plan.table, plan.index)?;
    Ok(plan.index)
}

/// Writes an empty table with this serial number to all five copies, copy 0 first. Marks and other blocks stay as they were.
///
/// `TooLong` comes exactly if the image is longer than the pack; nothing changes then. `Store` comes only if the packs' count of faults
/// rose; it leaves a front of the five writes, the last one done or not.
pub fn fresh<P: Packs>(
    packs: &mut P,
    unit: u8,
    kind: DriveKind,
    serial: u32,
) -> Result<(), ToolFault>
    requires { unit < 32 }
    ensures never_again { IsTrue (P.tells packs.new) → IsTrue (P.tells packs.old) }
    ensures fits { OnOk result (IsTrue (P.tells packs.new) → Fits kind (P.held packs.old unit)) }
    ensures done { OnOk result (IsTrue (P.tells packs.new) →
        P.held packs.new ≡ with_changes (P.held packs.old) unit (copies kind (table_text serial []))) }
    ensures faults { IfErr result (IsFreshFault kind) }
    ensures why { IfErr result (λ fault. IsTrue (P.tells packs.new) → IsWhy kind (P.held packs.old unit) 0 fault) }
    ensures stopped { IsErrOf result ToolFault.Store → IsTrue (P.tells packs.new) →
        IsCutShort (P.held packs.old) (P.held packs.new) unit (copies kind (table_text serial [])) }
    ensures unchanged { (n : ℕ) → IsErrOf result (ToolFault.TooLong n) → IsTrue (P.tells packs.new) → P.held packs.new ≡ P.held packs.old }
    ensures store { IsCounted ToolFault.Store (P.faults packs.old) (P.faults packs.new) result }
{
    check_length(packs, unit, kind)?;
    write_copies(packs, unit, kind, &empty_table(kind, serial))?;
    Ok(())
}

/// Writes the lines of a table's entries.
fn write_entries<O: Sink>(table: &BadTable, kind: DriveKind, out: &mut O) -> Result<(), SinkFailed>
    requires { table.now.kind ≡ kind }
    ensures { Puts O.tells O.taken O.faults out.old out.new result (entry_lines kind 0 table.now.places) }
{
    for i in 0..entries(table) {
        let place = entry(table, i);
        write_all(out, entry_line(i, place, number(kind, place)).as_bytes())?;
    }
    Ok(())
}

/// Writes the line that begins the list of a table.
fn write_head<O: Sink>(table: &BadTable, out: &mut O) -> Result<(), SinkFailed>
    ensures puts { Puts O.tells O.taken O.faults out.old out.new result (the_line table.now) }
    ensures valid { IsTable table.now }
{
    write_all(out, table_line(table).as_bytes())
}

/// Writes the list of a table, or that there is none.
fn write_list<O: Sink>(
    table: &Option<BadTable>,
    kind: DriveKind,
    out: &mut O,
) -> Result<(), SinkFailed>
    requires { IfSome table.now (λ t. t.kind ≡ kind) }
    ensures puts { Puts O.tells O.taken O.faults out.old out.new result (list_text kind table.now) }
    ensures valid { IfSome table.now IsTable }
{
    match table {
        None => write_all(out, no_table_line().as_bytes()),
        Some(table) => {
            write_head(table, out)?;
            write_entries(table, kind, out)
        }
    }
}

/// Prints the table of a unit's pack: `serial S entries E` and a line for each entry, or `no table`. The packs stay as they were.
///
/// `TooLong` comes exactly if the image is longer than the pack, and nothing is printed then. `Store` comes only if the packs' count of
/// faults rose, and nothing is printed then. `Sink` comes only if the count of `out` rose; a front of the text was taken then.
pub fn list<P: Packs, O: Sink>(
    packs: &mut P,
    unit: u8,
    kind: DriveKind,
    out: &mut O,
) -> Result<(), ToolFault>
    requires { unit < 32 }
    ensures never_again { IsTrue (P.tells packs.new) → IsTrue (P.tells packs.old) }
    ensures out_never_again { IsTrue (O.tells out.new) → IsTrue (O.tells out.old) }
    ensures same { IsTrue (P.tells packs.new) → P.held packs.new ≡ P.held packs.old }
    ensures listed { OnOk result (Lists kind (P.tells packs.new) (P.held packs.old unit) (O.tells out.new) (O.taken out.old) (O.taken out.new)) }
    ensures faults { IfErr result (IsListFault kind) }
    ensures why { IfErr result (λ fault. IsTrue (P.tells packs.new) → IsWhy kind (P.held packs.old unit) 0 fault) }
    ensures front { IsErrOf result ToolFault.Sink → ListsFront kind (P.tells packs.new) (P.held packs.old unit) (O.tells out.new) (O.taken out.old) (O.taken out.new) }
    ensures silent { IfErr result (λ fault. fault ≢ ToolFault.Sink → out.new ≡ out.old) }
    ensures store { IsCounted ToolFault.Store (P.faults packs.old) (P.faults packs.new) result }
    ensures sink { IsCounted ToolFault.Sink (O.faults out.old) (O.faults out.new) result }
{
    check_length(packs, unit, kind)?;
    let table = table_of(packs, unit, kind)?;
    write_list(&table, kind, out)?;
    Ok(())
}
