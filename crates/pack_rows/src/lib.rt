//! Tests of the packs in files, in the working folder and in a folder in memory whose calls are short, fail or are interrupted. Tests
//! of the streams and files of `std` as sources and sinks, and of the faults of a bad-sector table. This crate has only tests, so that
//! the crates that they test are proved only once.
#![tactic(auto)]

#[cfg(test)]
mod files;
#[cfg(test)]
mod folder;
#[cfg(test)]
mod steps;
#[cfg(test)]
mod streams;
#[cfg(test)]
mod table;
