//! The lines of a trace, as code writes them: each line is the text of its moment. `answers` has the lines of the answers.
//!
//! What is proved: the text of each line of a trace is that of its moment. `deed` and `idle` write these lines, and `clean_line`
//! writes that of a sector that moved clean. A line is put together from its end, in its own room.
//!
//! Only tested, in `picture_rows`: worked lines, beside their proofs.
#![tactic(auto)]

pub mod answers;
mod clean;
mod lines;
mod telling;
mod words;

pub use clean::{CleanLine, clean_line};
pub use lines::{LineText, deed, idle};
pub use telling::Told;
