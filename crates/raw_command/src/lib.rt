//! The commands that read the bytes of a partition and write them back: `raw read`, `raw write` and `dump`. They go through the driver,
//! and so through the forwarding of bad sectors.
//!
//! What is proved: each answer of `run_transfer` says what the call has done (`Ends`), from the bytes of the source to those of the
//! sink, the trace and the packs, in terms of the contents of the unit's data blocks. The bytes that were read are those of the
//! partition, the bytes that were written are there, and every other byte of every data block stays. `Outside` comes exactly if the
//! range reaches beyond the partition or the source has too many bytes, and nothing changes then. `Unusable` comes exactly if the range
//! touches a block that can't be used; exactly the bytes before that block were transferred. The lines of the trace are a legal session
//! of requests over these packs, with a clean line for each block of which a byte was read. `Ends` also says what the trace, the packs
//! or the sink leave if they fail. `run_bytes`: the same by the status of the command, and what that status leaves alone.
//!
//! Only tested, in `hpsim_rows`: printed texts, each call failing in turn, and that memory suffices.
#![tactic(auto)]

mod attaching;
mod bytes;
mod fault;
mod lines;
mod run;
mod units;

pub use bytes::run_bytes;
pub use command_parts::{Target, Transfer, Writing};
pub use fault::TransferFault;
pub use run::run_transfer;
