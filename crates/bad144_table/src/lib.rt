//! The bad-sector table of a pack, after DEC STD 144: its bytes, its list of places, and what may be added to it.
//!
//! What is proved: `read_table` is Ok exactly if the bytes spell a table by DEC STD 144 (a relation on whole texts, in
//! `pack_geometry`), and it then gives that table; otherwise it names the first fault in its order. `write_table` gives
//! the one spelling; `position`, `insert`, `entries`, `entry`, `serial`, `empty_table` and `copy` speak of the list of
//! places; a place is listed at one position only, and a refused `insert` changes nothing. `table_of` gives the table of
//! a unit's pack from its five copies.
//!
//! Only tested, in `pack_rows` and `hpsim_rows`: faults and worked tables.
#![tactic(auto)]

mod pack_table;
mod spelling;
mod table;

pub use pack_table::table_of;
pub use spelling::{TableFault, read_table, write_table};
pub use table::{
    BadTable, InsertFault, empty_table, entries, entry, insert, number, position, serial,
};
