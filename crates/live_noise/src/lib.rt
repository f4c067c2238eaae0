//! Live noise, found by its sector. Noise flips places of sectors when they are read.
//!
//! What is proved: `NoiseBook::strike` is exact: the oldest live noise of that unit and block decides, and the strike uses it.
//! No call allocates except `NoiseBook::new`.
#![tactic(auto)]

mod book;
mod entries;

pub use book::NoiseBook;
