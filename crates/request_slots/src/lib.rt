//! What waits in the driver: the slots of the outstanding requests, each with its buffer in main memory. This crate knows
//! of frames, and no crate above does: there a request is seen with the blocks that its buffer holds.
//!
//! What is proved: contracts see each request in `Slots` with the blocks that its buffer holds, of which the last one may be short, and
//! each call changes the slot that it names only. It is a law that no two requests share a frame. Each method of `Channel` and of
//! `Answers` is the machine's function on what it holds (`self.new` is f of `self.old`). No call allocates except those that make a
//! queue. It is not proved that a free slot is found at once, however many requests are outstanding, or that a slot that was never taken
//! is never touched.
#![tactic(auto)]

mod answers;
mod asked;
mod channel;
mod fill;
mod slot;
mod slots;

pub use answers::Answers;
pub use asked::Asked;
pub use channel::Channel;
pub use mba_adapter::Adapter;
pub use slots::Slots;
