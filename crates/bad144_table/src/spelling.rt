ghost use Rattle.std.specs.Prelude.{◌≡◌, ◌<◌, ◌≤◌, ◌+◌, ◌*◌, ◌++◌, [], IfErr, IfNone, IfOk, IfSome, OnOk, drop, length};
ghost use Rattle.pack_geometry.specs.TableFields.{IsEnd, long_at, place_in, word_at};
ghost use Rattle.pack_geometry.specs.TableSpelling.{Spells, Table, pair_text, table_text};
ghost use Rattle.bad144_table.specs.Faults.{IsFirstFault, IsReadUpTo};

use crate::table::{BadTable, empty_table, entries, entry, follows, lies_on, push, serial};
use byteorder::{ByteOrder, LittleEndian};
use pack_geometry::{DriveKind, Place, sector_word};
use thiserror::Error;

/// Why bytes are no table: the word zero or the word flag is not zero, or a pair is wrong. A pair is wrong if it is
/// outside the geometry, if it is not above the pair before it, or if it stands behind a pair of all ones and is not all ones.
#[derive(Debug, Drop, PartialEq, Eq, Error)]
pub enum TableFault {
    #[error("zero")]
    Zero,
    #[error("flag")]
    Flag,
    #[error("range at {0}")]
    Range(u8),
    #[error("order at {0}")]
    Order(u8),
    #[error("after the end at {0}")]
    AfterEnd(u8),
}

/// The word of 16 bits at a byte.
fn word(bytes: &[u8; 512], at: usize) -> u16
    requires { at + 2 ≤ 512 }
    ensures { result ≡ word_at bytes.now at }
{
    LittleEndian::read_u16(&bytes[at..])
}

fn number(bytes: &[u8; 512]) -> u32
    ensures { result ≡ long_at bytes.now 0 }
{
    LittleEndian::read_u32(bytes)
}

/// The place that pair `i` names, or None for a pair of all ones.
fn pair(bytes: &[u8; 512], i: u8) -> Option<Place>
    requires { i < 126 }
    ensures place { IfSome result (λ place. (place ≡ place_in bytes.now i) × ¬ (IsEnd bytes.now i)) }
    ensures end { IfNone result (IsEnd bytes.now i) }
{
    let at = 8 + 4 * i as usize;
    let cylinder = word(bytes, at);
    let address = word(bytes, at + 2);
    if cylinder == u16::MAX && address == u16::MAX {
        return None;
    }
    Some(Place {
        cylinder: u32::from(cylinder),
        track: u32::from(address / 256),
        sector: u32::from(address % 256),
    })
}

fn write_pair(into: &mut [u8], place: Place)
    requires room { 4 ≤ length into.old }
    requires cylinder { place.cylinder < 65536 }
    requires track { place.track < 256 }
    requires sector { place.sector < 256 }
    ensures { into.new ≡ pair_text place ++ drop 4 into.old }
{
    LittleEndian::write_u16(into, place.cylinder as u16);
    LittleEndian::write_u16(&mut into[2..], sector_word(place));
}

/// Writes the header of a table without an entry, and pairs of all ones.
fn write_head(into: &mut [u8], serial: u32)
    requires { length into.old ≡ 512 }
    ensures { into.new ≡ table_text serial [] }
{
    into.fill(0xff);
    LittleEndian::write_u32(into, serial);
    into[4..8].fill(0);
}

/// Writes the 512 bytes that spell a table.
pub fn write_table(table: &BadTable, into: &mut [u8; 512])
    ensures { Spells into.new table.now }
{
    write_head(into, serial(table));
    let count = entries(table);
    for i in 0..count {
        write_pair(&mut into[8 + 4 * i as usize..], entry(table, i));
    }
}

/// Takes pair `i` of the bytes into a table that was read from the pairs before it.
fn take_pair(table: &mut BadTable, bytes: &[u8; 512], i: u8) -> Result<(), TableFault>
    requires small { i < 126 }
    requires read { IsReadUpTo table.old.kind bytes.now table.old.places i }
    ensures kind { table.new.kind ≡ table.old.kind }
    ensures serial { table.new.serial ≡ table.old.serial }
    ensures ok { OnOk result (IsReadUpTo table.old.kind bytes.now table.new.places (i + 1)) }
    ensures err { IfErr result (IsFirstFault table.old.kind bytes.now) }
{
    let Some(place) = pair(bytes, i) else {
        return Ok(());
    };
    if entries(table) < i {
        return Err(TableFault::AfterEnd(i));
    }
    if !lies_on(table, place) {
        return Err(TableFault::Range(i));
    }
    if !follows(table, place) {
        return Err(TableFault::Order(i));
    }
    push(table, place);
    Ok(())
}

/// The table that 512 bytes spell for a kind of drive. If they spell none, the result is the first fault: Zero, then
/// Flag, and then the faults of the pairs in ascending order. A pair of all ones ends the list, and AfterEnd names the
/// first later pair that is not all ones. Any other pair is Range if it is outside the geometry, and Order if it is not above the pair before it.
pub fn read_table(kind: DriveKind, bytes: &[u8; 512]) -> Result<BadTable, TableFault>
    ensures spelled { (table : Table) → table.kind ≡ kind → Spells bytes.now table → result ≡ Ok table }
    ensures ok { IfOk result (λ table. (table.kind ≡ kind) × Spells bytes.now table) }
    ensures err { IfErr result (IsFirstFault kind bytes.now) }
{
    if word(bytes, 4) != 0 {
        return Err(TableFault::Zero);
    }
    if word(bytes, 6) != 0 {
        return Err(TableFault::Flag);
    }
    let mut table = empty_table(kind, number(bytes));
    for i in 0..126 {
        take_pair(&mut table, bytes, i)?;
    }
    Ok(table)
}
