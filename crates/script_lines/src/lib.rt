//! What one line of a script says, given what the lines before it said.
//!
//! What is proved: `said` gives what the fields after a word say, or the kind of the first fault, exactly as the form of that word
//! defines them. `Known` is what the lines so far tell about units, ids, requests and noises. The text of a refusal is exactly
//! `refused line L KIND`. `is_word`, `offset_in` and `fault_in` read words that also occur in traces.
//!
//! Only tested, in `hpsim_rows`: worked values, in addition to their proofs.
#![tactic(auto)]

mod cached;
mod dialect;
mod fields;
mod forms;
mod kinds;
mod known;
mod places;
mod refusals;
mod statement;
mod verbs;
mod words;

pub use dialect::Dialect;
pub use forms::{Read, said};
pub use kinds::ScriptKind;
pub use known::Known;
pub use refusals::refusal;
pub use statement::{Content, Line, Request, Span, Statement};
pub use verbs::Verb;
pub use words::{fault_in, is_word, offset_in, part_field, verb};
