ghost use Rattle.std.specs.Prelude.{◌<◌, ◌≤◌, ◌-◌, ◌+◌, [], ◌∷◌, length};
ghost use Rattle.pack_geometry.specs.Geometry.{limit_of, replacement_at};
ghost use Rattle.pack_geometry.specs.Pack.{block_at};
ghost use Rattle.pack_geometry.specs.TableSpelling.{table_text};
ghost use Rattle.bad144_tool.specs.Changes.{DoesAll, Block};
ghost use Rattle.bad144_tool.specs.Edit.{copies, edit_writes, first_content, marking, moves};

use bad144_table::{BadTable, entries, write_table};
use outside_traits::traits::{Packs, StoreFailed};
use pack_geometry::{DriveKind, copy_block, replacement};

/// How a block is added to a table. `copy` says whether its bytes are copied to its replacement, which otherwise gets zeros; `mark`
/// says whether the block is marked.
#[derive(Clone, Copy)]
pub struct AddWay {
    pub copy: bool,
    pub mark: bool,
}

/// Replaces a block.
fn write_block<P: Packs>(
    packs: &mut P,
    unit: u8,
    block: u32,
    bytes: &[u8; 512],
) -> Result<(), StoreFailed>
    requires { unit < 32 }
    ensures { DoesAll P.tells P.held P.faults unit packs.old packs.new result (Block block bytes.now ∷ []) }
{
    packs.write(unit, block, bytes)
}

/// Copies a block to another one.
fn write_copied<P: Packs>(packs: &mut P, unit: u8, from: u32, to: u32) -> Result<(), StoreFailed>
    requires { unit < 32 }
    ensures { DoesAll P.tells P.held P.faults unit packs.old packs.new result (Block to (block_at (P.held packs.old unit).image from) ∷ []) }
{
    let mut bytes = [0u8; 512];
    packs.read(unit, from, &mut bytes)?;
    write_block(packs, unit, to, &bytes)
}

/// Moves replacements `i` to `end - 1` up by one, the last of them first.
fn move_all<P: Packs>(
    packs: &mut P,
    unit: u8,
    kind: DriveKind,
    i: u32,
    end: u32,
) -> Result<(), StoreFailed>
    requires unit { unit < 32 }
    requires order { i ≤ end }
    requires room { end < 126 }
    ensures { DoesAll P.tells P.held P.faults unit packs.old packs.new result
        (moves kind (P.held packs.old unit).image i (end - i)) }
{
    if i == end {
        return Ok(());
    }
    let j = end - 1;
    write_copied(packs, unit, replacement(kind, j), replacement(kind, j + 1))?;
    move_all(packs, unit, kind, i, j)
}

/// Gives replacement `i` its content: a block's own bytes, or zeros.
fn write_first<P: Packs>(
    packs: &mut P,
    unit: u8,
    kind: DriveKind,
    i: u32,
    block: u32,
    copy: bool,
) -> Result<(), StoreFailed>
    requires unit { unit < 32 }
    requires index { i < 126 }
    ensures { DoesAll P.tells P.held P.faults unit packs.old packs.new result
        (Block (replacement_at kind i) (first_content copy (P.held packs.old unit).image block) ∷ []) }
{
    if copy {
        write_copied(packs, unit, block, replacement(kind, i))
    } else {
        write_block(packs, unit, replacement(kind, i), &[0u8; 512])
    }
}

/// Writes a text to the five copies of the table, copy 0 first.
fn write_to_all<P: Packs>(
    packs: &mut P,
    unit: u8,
    kind: DriveKind,
    text: &[u8; 512],
) -> Result<(), StoreFailed>
    requires { unit < 32 }
    ensures { DoesAll P.tells P.held P.faults unit packs.old packs.new result (copies kind text.now) }
{
    for k in 0..5u32 {
        let block = copy_block(kind, k);
        write_block(packs, unit, block, text)?;
    }
    Ok(())
}

/// Writes the five copies of a table, copy 0 first.
pub(crate) fn write_copies<P: Packs>(
    packs: &mut P,
    unit: u8,
    kind: DriveKind,
    table: &BadTable,
) -> Result<(), StoreFailed>
    requires { unit < 32 }
    ensures { DoesAll P.tells P.held P.faults unit packs.old packs.new result
        (copies kind (table_text table.now.serial table.now.places)) }
{
    let mut bytes = [0u8; 512];
    write_table(table, &mut bytes);
    write_to_all(packs, unit, kind, &bytes)
}

/// Marks a block, if that is asked for.
pub(crate) fn write_mark<P: Packs>(
    packs: &mut P,
    unit: u8,
    block: u32,
    mark: bool,
) -> Result<(), StoreFailed>
    requires { unit < 32 }
    ensures { DoesAll P.tells P.held P.faults unit packs.old packs.new result (marking mark block) }
{
    if !mark {
        return Ok(());
    }
    packs.set_mark(unit, block, true)
}

/// Does the writes of an edit that lists `block` at index `i` of the table.
pub(crate) fn write_edit<P: Packs>(
    packs: &mut P,
    unit: u8,
    kind: DriveKind,
    block: u32,
    way: AddWay,
    table: &BadTable,
    i: u8,
) -> Result<(), StoreFailed>
    requires unit { unit < 32 }
    requires block { block < limit_of kind }
    requires index { i < length table.now.places }
    ensures { DoesAll P.tells P.held P.faults unit packs.old packs.new result
        (edit_writes kind (P.held packs.old unit).image table.now i block way) }
{
    let i = u32::from(i);
    let last = u32::from(entries(table)) - 1;
    move_all(packs, unit, kind, i, last)?;
    write_first(packs, unit, kind, i, block, way.copy)?;
    write_copies(packs, unit, kind, table)?;
    write_mark(packs, unit, block, way.mark)
}
