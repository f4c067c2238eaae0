//! Blocks that are tested through a station: each of them is written with A5 and read back, and then with zeros.
//!
//! What is proved: a block that is not marked has its bytes, and all else stays (`Fills`). If its test stops, the block has what it had,
//! A5 or zeros (`Stops`). Over packs that tell, no byte comes back different; over others, the byte that is named was written in that
//! block (`IsStop`). No clause shows that blocks are read back.
//!
//! A station is a good drive and an adapter that are polled, and one frame of memory, through which one sector moves at a time.
//!
//! What is proved: one poll reads or writes a block exactly as the pack holds it; or it says that the block is marked, and then nothing
//! moves (`Polls`). A poll in which the packs fail leaves the block old or new (`IsOldOrNew`). After each poll that did not fail the
//! station is at rest (`IsAtRest`). After one that failed it never is again, so that it polls no more. Before a sector moves, the heads
//! stand on its cylinder (`IsAimed`). No clause shows that the bytes go through the drive and the adapter.

mod blocks;
mod station;
mod testing;

pub use station::{Polled, Station};
pub(crate) use testing::{test_block, write_and_read};
