//! The transfer of a request from its beginning to its end: the segments that its transfer commands move, the blocks that
//! are done, and the failures at the sector at hand. Each state is a value that a call consumes, so a transfer goes one way only.
//!
//! What is proved: contracts see `Direct`, `Forwarded` and `Continued` as one record: the job, the blocks done, the
//! failures, and the entry whose replacement is at hand. Each call is a function on that record; Finished, Unforwarded
//! and Exhausted come exactly when they are due, Exhausted at failure 28 at one sector.
//!
//! Nothing here is only tested.
#![tactic(auto)]

mod calls;
mod job;
mod progress;
mod states;

pub use calls::begin;
pub use job::{Job, Segment};
pub use states::{Continued, Direct, Exhausted, Forwarded, Next, Transfer, Unforwarded};
