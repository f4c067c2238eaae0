//! The command of the program that draws a run, or prints tables and trace events of it: what its words, script, trace and sink come
//! to, and its status.
//!
//! What is proved, in the contract of `view`: the cause of each status, what is drawn if the status is 0, and what refusals print. No
//! other status comes. Each clause depends only on the objects that it names.
//!
//! Only tested: the stored run of `hpview`.
#![tactic(auto)]

mod command;
mod draw;
mod load;
mod program;
mod put;
mod sources;
mod status;
mod text;
mod trace_source;
mod words;

pub use command::view;
pub use program::end_status;
pub use status::Status;
