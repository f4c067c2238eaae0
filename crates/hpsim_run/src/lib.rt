//! The command of the program: what its words, source, packs and sinks come to, and its status.
//!
//! What is proved: `run`, the top call, has one clause for each kind of command. `play`: the headline for status 0 (`Headline`,
//! `Promises`), and what is left after the stop for 5 and 6 (`HasStopped`). `cached`: the same for a script of the cache (`HasCached`,
//! `HasStoppedCached`). `bad144`, `format`, `exercise` and the transfers of bytes: what each of them did to a pack or a sink, for each
//! status. Each other status has its cause, refusals say what they print and leave, and no other status comes. A refusal comes whenever
//! its cause is there, except if a status comes that the table of `run` names. Each clause depends only on the objects that it names.
//! `pack_commands` reads the words, and `Status::code` of `command_parts` gives the numbers. `end_status`: the same, and
//! nothing is done if there was no memory for the words. `end_told`, over real files and streams: each command ends with one of its
//! statuses.
//!
//! Only tested, in `hpsim_rows`: printed texts of worked scripts, each call failing in turn, and that memory suffices; in `end_rows`: what
//! `end_told` prints on standard error.
#![tactic(auto)]

mod cached;
mod command;
mod program;
mod told;

pub use command::run;
pub use command_parts::Status;
pub use program::end_status;
pub use told::end_told;
