//! The commands over one unit's pack: those of `bad144`, and `format`. Each of them calls its tool, and prints the result.
//!
//! What is proved: for each status of `run_list`, `run_add`, `run_fresh`, `run_mark` and `run_format`, what the pack holds and what was
//! printed (`RunsList` and its like), and that each fault has its cause.
//!
//! Only tested, in `hpsim_rows`: printed texts.
//!
//! The crate also reads the words of the command line, prints the usage, and defines what each command leaves as it was
//! (`LeavesAlone`).
//!
//! What is proved: `command_of` gives a command exactly if the words have one of the shapes, with the numbers that they spell, each in
//! its range.
#![tactic(auto)]

mod formats;
mod text;
mod tools;
mod usage_text;
mod words;

pub use formats::run_format;
pub use tools::{run_add, run_fresh, run_list, run_mark};
pub use usage_text::usage;
pub use words::{Command, command_of};
