//! One drive of a MASSBUS, as the hardware table says: its functions, the events that change it, and the move of one
//! sector, with the noise that strikes it when it is read.
//!
//! What is proved: each call of `Drive` is its row of the hardware table (`self.new ≡` row `self.old`), including the
//! refusals, which set IAE, WLE or ILF; the drive status is computed from the table of bits and stored nowhere.
//! `move_sector`: the five rules, in their order, give the verdict, with the pack's mark, the noise that strikes, the
//! bytes that move and the registers; if the packs fail, the drive, the book and the window are as they were.
//! `sector_format` has the header tables.
//!
//! Only tested, in `drive_rows`: worked values, beside their proofs.
#![tactic(auto)]

mod drive;
pub mod sector_format;

pub use drive::Drive;
pub use hardware_table::{FaultKind, Moved, NoiseSpan, Register};
pub use live_noise::NoiseBook;
