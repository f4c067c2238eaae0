//! What a call of the driver comes to (`outcome`), how much of each kind the driver comes to have (`counts`), and that
//! the answers that wait are those of the lines that were told (`answers`).

pub mod answers;
pub mod counts;
pub mod outcome;
