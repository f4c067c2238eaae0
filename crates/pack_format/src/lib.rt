//! A formatter of packs. It tests every data block through a drive and an adapter, and writes a bad-sector table of the marked blocks.
//!
//! What is proved: `format` leaves a formatted pack (`IsFormatted`): each unmarked copy spells the table of the marked data blocks, and
//! each data block has a home whose content is zeros. Marks, every other sector and every other unit stay. Each refusal has its reason,
//! and comes exactly if nothing before it is in the way, so that no pack is refused for two reasons (`refusals_law`). Formatting goes
//! in ascending order of block number, and what a failure leaves is said by the sector that was reached (`IsPartly`): so no copy of the
//! table is written before the last block is tested. A poll that fails is the last one, since its station is never at rest again
//! (`testing`). If a byte comes back different, the byte that is named was written in that block (`IsFault`).
//!
//! Only tested, in `hpsim_rows` and `drive_rows`: that A5 is written first, that blocks are read back, that a call that fails is told
//! as `Store`, texts, and that memory suffices.
#![tactic(auto)]

mod fault;
mod formatting;
mod job;
mod survey;
pub mod testing;

pub use fault::FormatFault;
pub use formatting::{FormatReport, format, refusals_law};
