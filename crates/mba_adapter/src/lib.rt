//! One MASSBUS adapter, as the hardware table says: its map registers, the transfer of one segment of a request sector by
//! sector between a drive and a buffer of main memory, and the attention bits of its drives.
//!
//! What is proved: each call of `Adapter` is its row of the hardware table. `load` maps exactly the frames that the
//! blocks use; `step_sector` moves one sector between the pack and its block of the loaded buffer, keeps every other byte
//! of memory, and ends the drive's transfer exactly when the completion goes up; `complete` gives the buffer back, with
//! the number of sectors that moved clean and the last verdict.
//!
//! Nothing here is only tested.
#![tactic(auto)]

mod adapter;
mod map;

pub use adapter::{Adapter, Ended};
pub use drive_model::{Drive, Moved, NoiseBook};
