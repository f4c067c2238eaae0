//! Scripts of the cache: what their lines say. The one reader of scripts reads them, in their own dialect.
//!
//! What is proved: `read_cached`: Ok gives exactly the lines that the bytes spell by the grammar, and a refusal names the first fault,
//! by line and kind. `cached_grammar_law`: any bytes have a script or a fault, and never both. What a script holds is always what some
//! bytes spell. Only tested: that memory suffices.

mod kind;
mod script;
mod statement;

pub use kind::{CachedKind, CachedRefusal};
pub use script::{CachedScript, cached_grammar_law, read_cached};
pub use statement::{Asked, Line, Statement};
