//! What the program meets outside when it really runs: sources and sinks over the readers and writers of `std`, and packs in the two
//! files of each unit. These files are in any `PackFolder`, for example the working folder.
//!
//! What is proved: sources and sinks pass on exactly what their readers give and their writers take, and count each failure once. A
//! source or sink that `known` makes tells these bytes. Packs over a folder that tells are packs that tell,
//! although each call of the folder may be short or interrupted, until a write fails after it has written some of its bytes. A program
//! gets the words that follow its name, in their order (`start`).
//!
//! Only tested, in `pack_rows` and by the programs' stored runs: the three calls on the working folder (`os_folder`), the file that a
//! sink makes, and the names of files in `start`. The working folder and the sink of a file tell nothing.
#![tactic(auto)]

pub mod failure;
pub mod file_sink;
pub mod files;
pub mod folder;
pub mod os_folder;
pub mod start;
pub mod streams;
mod transfers;
