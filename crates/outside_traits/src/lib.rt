//! What the program meets outside, as traits with their meaning: a source of bytes, a sink for bytes, and the packs. Code
//! that is generic over these traits depends on this crate alone, and is proved for every object that has them.
//!
//! What is proved: the clauses of each call say what it gives, what stays, and that it fails only if the object's count
//! of faults rose. Ghost members tell what the object holds, or that this is not told. `write_all` takes the whole text,
//! or takes a front of it and fails; `read_all` reads to the end, or at most one byte past its limit. `WidePacks` gives
//! many bytes of an image or of marks in one call.
//!
//! A writer that gathers text for a sink: it keeps what is put, and passes it on when it is full and when it is told to.
//!
//! What is proved: `Gather` keeps text for a sink in a buffer of a chosen size. After `put`, the text taken followed by
//! the text kept is what it was before, with the text that was put behind it; `put_short` puts the first bytes of 64 in
//! the same way; after `flush` the sink has taken all. A failure has its cause: the sink has then taken a front, and
//! nothing is kept. `try_keep` keeps a text and touches no sink, or says that the text does not fit. Laws: texts that are
//! put one after another are one text.
//!
//! Only tested, in `hpsim_rows`: worked values, beside their proofs.
#![tactic(auto)]

mod gather;
pub mod traits;
pub mod whole;
pub mod wide_packs;

pub use gather::{Gather, gather_law};
