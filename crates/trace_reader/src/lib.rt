//! The reader of a trace: it turns bytes into the lines that they spell, or names the first line that is faulty. The grammar is in
//! `specs/`. `TraceLines` gives the lines one after another, in memory for the script's requests alone; `read_trace` gives all.
//!
//! What is proved: `read_trace` gives the lines that bytes spell beside a script, or their first fault, and bytes always have exactly
//! one of the two (`grammar_law`). If the numbers of a run are in range and never fall, and its requests are the script's, its text is
//! read as exactly what the run tells; and what is read is written again as the same bytes (`round_trip_law`).
#![tactic(auto)]

mod asked;
mod ended;
mod fault;
mod forms;
mod left;
mod line;
mod reader;
mod verbs;
mod words;

pub use fault::{TraceFault, TraceKind};
pub use left::TraceLines;
pub use line::{ReadLine, TraceLine};
pub use reader::{grammar_law, read_trace, round_trip_law};
