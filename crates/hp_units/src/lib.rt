//! The units of the driver. Each unit has its queue, its transfer and its drive, and each call does what the driver's definitions say.
//!
//! What is proved: each method of a unit is the machine's function on what the unit holds (`self.new ≡` f `self.old`),
//! with the typed transfer, the sorted queue and the drive inside. No call allocates except the one that makes a unit.
//!
//! `row` keeps a row of bits that says which of 32 units position (`IsRow`): when a unit changed, `noted` sets or clears
//! its bit as the unit now is, and `lowest` finds the lowest bit that is on.
#![tactic(auto)]

pub mod row;
mod setup;
mod tries;
mod unit;

pub use drive_model::NoiseBook;
pub use setup::UnitSetup;
pub use unit::DiskUnit;
