//! What the commands of the program share: the units, kinds and transfers that their words name, how they load a script, the lines that
//! they print, and the numbers that they end with.
//!
//! Defined in `specs/`: what a command meets outside (`Outside`), and a text that was taken whole or in part (`Told`).
//!
//! What is proved: `unit_in`, `kind_in`, `raw_in` and `dump_in` give exactly what their words name. `numbered`, `plain` and `too_long`
//! are exactly their texts. `load`, `load_cached`: Ok exactly if the source's bytes spell a script of that grammar; `Refused` names
//! their first fault.
#![tactic(auto)]

mod fields;
mod lines;
pub mod load;
mod status;
mod words;

pub use fields::{kind_in, unit_in};
pub use lines::{numbered, plain, too_long};
pub use status::Status;
pub use words::{Target, Transfer, Writing, dump_in, raw_in};
