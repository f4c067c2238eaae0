//! The outside of the program: a source of bytes, a sink for bytes and the packs, and what implements them. This crate
//! has what is kept in memory. The traits have a crate of their own, and so has what uses std's readers, writers and
//! files; their names are handed on.
//!
//! What is proved: the calls of each object do what the traits say, and fail only if the count of faults rose.
//! `MemSource`, `MemSink` and `MemPacks` fail exactly if the call is listed or room is missing. `SureSource`, `SureSink`
//! and `SurePacks` never fail, and `SurePacks` tells nothing more once a write or a mark fell outside its images.
//!
//! Only tested, in `drive_rows`, `picture_rows` and `hpsim_rows`: worked calls, one after another.
#![tactic(auto)]

pub mod mem_packs;
pub mod mem_streams;
pub mod slots;
mod sparse;
pub mod sure_packs;

pub use outside_files::{file_sink, files, folder, os_folder, streams};
pub use outside_traits::{traits, whole, wide_packs};
