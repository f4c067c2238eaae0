//! Scripts for commands: the command `play`, and the exercise.
//!
//! What is proved: `run_play`: the headline for status 0 (`Headline`, `Promises`), and what is left after the stop for 5 and 6
//! (`HasStopped`). Each other status has its cause, and says what it prints and leaves (`RunsPlay`, `LeavesAlone`).
//!
//! `run_exercise`: `Done` is a legal run of the number's script over empty packs, for which all of `Promises` holds. If `trace` tells,
//! it took exactly the lines of that run; if `out` tells, it took exactly the four lines of its tally, which counts as many answers as
//! requests. `SinkFailed` has its cause, and says how far the script came, or that a front of the four lines was taken. `OutOfMemory`
//! comes before anything is played. The packs are `ExercisePacks`: `SurePacks` with room for the blocks of a script. A write beyond
//! that room fails, and its bytes are kept as what the packs hold there; by the contract of `play` this never happens.
//!
//! Only tested, in `hpsim_rows`: worked values, in addition to their proofs.
#![tactic(auto)]

mod exercise;
pub mod play;

pub use exercise::run_exercise;
