//! Why a run did not end with 0, as a sentence for standard error: what went wrong, with which file or word, and what can be done.
//! This crate has the texts of both programs, their usage and their version. The caller gives the writer to which they are printed.
//!
//! What is proved: nothing here fails, whatever words, scripts and texts it is given.
//!
//! Only tested, in `end_rows`: what the texts say.
#![tactic(auto)]

pub mod ending;
mod fields;
pub mod lines;
mod sentence;
pub mod told;
pub mod usage;
pub mod version;
pub mod warnings;
pub mod words;
