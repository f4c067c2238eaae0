//! Tests of memory and what an adapter maps of it, of packs in memory, the queue, the drive and its attaching, of numbers that come
//! from outside, the texts of errors, the formatter's single calls, each of which goes wrong once, and the caller of `callers`. The
//! crate has only tests, so that the crates that they test are proved only once.
#![tactic(auto)]

#[cfg(test)]
mod asking;
#[cfg(test)]
mod drive;
#[cfg(test)]
mod errors;
#[cfg(test)]
mod few_blocks;
#[cfg(test)]
mod formatting;
#[cfg(test)]
mod memory;
#[cfg(test)]
mod numbers;
#[cfg(test)]
mod packs;
#[cfg(test)]
mod queue;
