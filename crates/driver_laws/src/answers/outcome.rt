//! What a call of the driver comes to, whether it ends, or a call to the packs or to the trace fails in it.
//!
//! Defined in `specs/`: what a call comes to. A call that ends does all its acts and tells their whole text. If the trace
//! fails, the call does the first of its acts and tells a front of their text. If the packs fail, it does some of its
//! acts, and the next block of one write is old or new.

use thiserror::Error;

/// What stopped a call: the packs failed, or the trace failed.
#[derive(Clone, Copy, Debug, Error)]
pub enum Stop {
    /// A call of the packs failed.
    #[error("the packs failed")]
    Store,
    /// A call of the trace failed.
    #[error("the trace failed")]
    Sink,
}
