//! What is settled before a script is played: its units, why it may not be played to its end, and what is known of its run.
//!
//! What is proved: each script has exactly one legal run (`one_run_law`).
//! `attach_units` gives the setups that the lines of a script declare, of either dialect (`Declaring`). Each table is valid, and if the
//! packs tell, it is the table of its pack (`IsSet`). `TooLong` comes for the first image that is too long; if it does not come, no
//! image is too long (`IsLongFor`, `IsTooLong`). The packs stay, and `Store` comes only if they failed.
//!
//! `desk`: `write_answer` gives the sink exactly the line of an answer, followed by those of the blocks of a read (`Puts`,
//! `said_text`).
//!
//! Also defined in `specs/`: what a stop leaves (`StopsAtSink`, `StopsAtStore`) by the write-ahead rule: of what was done since text was
//! last sent, only the first move may have written, and no answer goes out before the lines of its moments (`WritesAhead`,
//! `TellsAhead`). What each `PlayFault` tells of packs and sinks (`Rise`, `HaveTold`, `AreUntouched`), and images that are
//! too long for their drives (`NamesTooLong`).
#![tactic(auto)]

mod attaching;
pub mod desk;
mod dialects;
mod fault;
pub mod one;

pub use attaching::attach_units;
pub use dialects::Declaring;
pub use fault::PlayFault;
pub use hp_units::UnitSetup;
