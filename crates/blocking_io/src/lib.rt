//! Blocking requests, which the caller waits for. Each request is submitted to a quiet driver and drained, and its answer is given and
//! taken. The driver is quiet again afterwards.
//!
//! What is proved: `ask_read` and `ask_write` are answered by the map that the packs hold, and the lines that the trace took are one
//! session, from each replay that stands for the driver before the call (`Answers`). If the trace or the packs fail, the trace took a
//! front of such lines, and the packs are as the lines leave them, or also have the next block of the write (`Stops`). `sessions_law`
//! joins what is said of requests one after another. Statements about what the packs hold apply if the packs tell it, and if the
//! driver's tables are theirs. That the driver is quiet again, and that a drain ends, applies to all packs.
//!
//! No fact is only tested. `CALLING.md` shows a caller, which `callers` proves and `drive_rows` runs.
#![tactic(auto)]

mod answers;
mod asking;
pub mod fronts;
mod reached;
mod sessions;
mod site;

pub use asking::{ask_read, ask_write};
pub use fronts::{clean_law, fronts_law};
pub use hp_driver::{Request, Stop, Subsystem, UnitSetup};
pub use reached::Reached;
pub use sessions::sessions_law;
pub use site::{Outlet, Site};
