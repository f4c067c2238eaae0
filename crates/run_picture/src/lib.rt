//! The picture of a run: what is known of each drive, adapter and request after each event, by a fold over the lines of the
//! script as they are played and the lines of the trace; what is seen of the whole run at a glance; and the columns of a picture.
//!
//! What is proved: a `Run` is what the definition says after each moment (`step`) and after the last one (`finish`), whatever
//! moments of 32 drives come.
#![tactic(auto)]

mod acts;
mod columns;
mod places;
mod run;

pub use acts::Glance;
pub use columns::{Column, Head, Note, Window};
pub use run::Run;
