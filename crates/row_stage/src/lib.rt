//! A stage on which rows are played: packs, source and sinks whose calls can be made to fail; the lines that set them up and run the
//! commands of a program on them; and what is shown of the result. Each function ends early with `NoMemory` if memory runs out. It is
//! for tests alone: all that is proved is that it does no harm and ends.
#![tactic(auto)]

mod directives;
mod shows;
mod stage;
mod stops;
mod sweeps;
mod texts;

pub use mass_outside::mem_packs::MemPacks;
pub use mass_outside::mem_streams::{MemSink, MemSource};
pub use stage::{Program, Stage};
