//! The tool for the bad-sector table of a pack, after DEC STD 144 and bad144(8). It lists a table, adds a block to it, writes an empty
//! one, and marks the blocks that the table lists.
//!
//! What is proved: `list` prints exactly the pack's table. `add` does exactly the writes of an edit; otherwise it changes nothing and
//! says why, or the packs failed within the writes. `fresh` writes an empty table. `mark` sets exactly the marks of the listed data
//! blocks that have none. `add_law`: the writes of `add` are the table edit, and every other unit's pack stays. `mark_law`: a read of a
//! listed block then gives what its replacement holds. `refusal_law`: at most one refusal has its reason, and none has if a block may
//! be listed.
//!
//! Only tested, in `hpsim_rows`: worked values, in addition to their proofs.
#![tactic(auto)]

mod edit;
mod fault;
mod laws;
mod marking;
mod text;
mod tool;

pub use edit::AddWay;
pub use fault::ToolFault;
pub use laws::{add_law, mark_law, refusal_law};
pub use marking::mark;
pub use tool::{add, fresh, list};
