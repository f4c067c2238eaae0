//! A cache of blocks with delayed writes. A block that was read or written stays in memory, the most recent one first. What was written
//! goes to the pack when its entry is dropped, or at a sync. The crate also reads and writes single data blocks of a unit, each by a
//! blocking request of its own (`fetch_block`, `store_block`).
//!
//! What is proved, besides what each call says: all other cached contents stay, and the entries, their order and the requests are those
//! of `read_done` and `write_done`. After any answer, the packs hold for each block what they held, what was cached, or what was to be
//! written (`Holds`). If a call stopped, the trace took the lines of its requests, up to the one that stopped (`AsksTill`). Statements
//! about what the packs hold apply if the packs tell it, and if the driver's tables are theirs. Only tested: that an insertion enters
//! the cache if there is memory.
#![tactic(auto)]

mod blocks;
mod cache;
mod entry;
mod fault;
mod fetching;
mod placing;
mod slots;
mod syncing;

pub use blocking_io::{Stop, Subsystem, sessions_law};
pub use blocks::{fetch_block, store_block};
#[doc(hidden)]
pub use entry::{Held, Key};
pub use fault::CacheFault;
pub use slots::Cache;
