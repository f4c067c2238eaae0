//! The player of scripts. The lines of a script are played over the driver of the disks, one by one, with their answers and their
//! trace.
//!
//! What is proved: `play`: if the packs tell, Ok is a legal run of what the script's lines mean, from the packs as they were handed in
//! to the packs as they are. If `out` tells, it took exactly the answer text of that run, and if `trace` tells, exactly its lines
//! (`Plays`). The tally is that of the same run (`Tallied`), even if `out` does not tell. `TooLong` comes only for an image that is too
//! long, and before anything is played; so does `Memory`. `Store` and `Sink` have their causes, and `Leaves` says what they leave by
//! the write-ahead rule of `script_runs`: how far the script came, where text was last sent, what each sink took of it, and the packs
//! afterwards. In a run, and in one that stopped at the packs, the bytes of the images beyond all writes stayed (`reach`), and each
//! image is as long as the blocks that were written make it (`long`).
//!
//! What each line does is said for any run so far (`GoesOn`), together with what is counted of that run and how it keeps the
//! write-ahead rule (`IsAhead`). So the run of a script is put together line by line, and a drain event by event. A desk gathers
//! answers for their sink, and text is sent, lines first, before a move that may write a block (`Says`). If a call stops, the run so
//! far and what each sink took of it are known (`StopsAt`).
//!
//! Only tested, in `hpsim_rows`: that memory suffices.
#![tactic(auto)]

mod answers;
mod calls;
mod counting;
mod desk;
mod drains;
pub mod play;
mod player;
mod venue;

pub use hp_driver::UnitSetup;
pub use script_reader::{ReadFault, Script, ScriptKind, read_script};
