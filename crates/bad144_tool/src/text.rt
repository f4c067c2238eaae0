ghost use Rattle.std.specs.Prelude.{◌≡◌, ◌≤◌, ◌+◌, ◌++◌, length};
ghost use Rattle.pack_geometry.specs.declared.DriveKind.{DriveKind};
ghost use Rattle.pack_geometry.specs.Geometry.{block_number};
ghost use Rattle.pack_geometry.specs.TableSpelling.{IsTable};
ghost use Rattle.bad144_tool.specs.Texts.{entry_line, field_text, no_table_line, table_line};

use bad144_table::{BadTable, entries, serial};
use mass_text::{LineBuf, Radix, numeral_law};
use pack_geometry::{DriveKind, Place};

/// Puts a name of at most 10 bytes and its number.
fn put_field(text: &mut LineBuf, name: &str, number: u32)
    requires room { length text.old ≤ 200 }
    requires name { length name.now ≤ 10 }
    ensures text { text.new ≡ text.old ++ field_text name.now number }
    ensures size { length text.new ≤ length text.old + 32 }
{
    numeral_law(Radix::Decimal);
    text.put(name);
    text.put_number(u64::from(number), Radix::Decimal);
}

/// The line of an entry: `entry I cylinder C track T sector S block B`.
pub fn entry_line(i: u8, place: Place, block: u32) -> LineBuf
    ensures { (kind : DriveKind) → block_number kind place ≡ block → result ≡ entry_line kind i place }
{
    let mut text = LineBuf::new();
    put_field(&mut text, "entry ", u32::from(i));
    put_field(&mut text, " cylinder ", place.cylinder);
    put_field(&mut text, " track ", place.track);
    put_field(&mut text, " sector ", place.sector);
    put_field(&mut text, " block ", block);
    text.put("\n");
    text
}

/// The line that begins the list of a table: `serial S entries E`.
pub(crate) fn table_line(table: &BadTable) -> LineBuf
    ensures text { result ≡ table_line table.now }
    ensures valid { IsTable table.now }
{
    let mut text = LineBuf::new();
    put_field(&mut text, "serial ", serial(table));
    put_field(&mut text, " entries ", u32::from(entries(table)));
    text.put("\n");
    text
}

/// The line for a pack that has no table.
pub(crate) fn no_table_line() -> LineBuf
    ensures { result ≡ no_table_line }
{
    let mut text = LineBuf::new();
    text.put("no table\n");
    text
}
