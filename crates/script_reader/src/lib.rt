//! Scripts: the words of their lines, the reader of a whole script, and the reader of a script of the cache (`cached`).
//!
//! What is proved: `read_script`: Ok gives exactly the lines that the bytes spell by the grammar, and a refusal names the first fault,
//! by line and kind. `grammar_law`: any bytes have a script or a fault, and never both, for any list of words that are played.
//! `read_back_law`: the text of well-formed statements spells exactly those statements, and what any text spells is well formed.
//! `Script::data` gives the bytes that a write writes.
//!
//! Only tested, in `hpsim_rows`: worked values, in addition to their proofs.
#![tactic(auto)]

pub mod cached;
mod data;
mod fault;
mod lines;
pub mod meaning;
mod script;

pub use fault::ReadFault;
pub use lines::{first_piece, without_cr};
pub use script::{Script, Stored, grammar_law, read_back_law, read_script};
pub use script_lines::{Content, Line, Request, ScriptKind, Span, Statement, Verb};
