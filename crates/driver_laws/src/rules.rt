//! What follows from the rules of a trace: how much requests cost (`bounds`), that tries fail at most as often as faults
//! and noise strike (`strikes`), and what is promised of a run, in the words of its script, its packs and its answers
//! (`promises`). The functions here do nothing: each stands for a law.
//!
//! A machine of blocks says which answers to a script are legal. It stands in `specs/`, as does the number that bounds the
//! event lines of a drain.
//!
//! Requests that are waited for, one at a time: the answer of each (`waited`), and a cache of blocks over them (`cached`).

pub mod bounds;
pub mod cached;
pub mod promises;
pub mod strikes;
pub mod waited;
