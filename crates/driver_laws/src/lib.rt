//! Laws of the driver and of its traces. The functions here do nothing: each stands for a law.
//!
//! `rules`: what follows from the rules of a trace alone. `invariant`: the driver's invariant and its work. `answers`:
//! what a call of the driver comes to, and which answers wait. `shown`: the replay of the driver's trace shows what the driver does.
#![tactic(auto)]

pub mod answers;
pub mod invariant;
pub mod rules;
pub mod shown;
