//! What a picture shows of a run: the fold over all its lines, the events that are shown, the texts at the heads of columns, and the
//! lines that name a drive.
//!
//! What is proved: `view_run`: the run is `run_from` over exactly the moments of the script and of the trace, the window is of the
//! run's own events, the notes are the lines that name a drive, each in the column of its event, and the texts are those of the
//! columns' lines; or a refusal names the first fault of the trace. If the trace is that of a legal run, each request that the run
//! answers has its answer (`HasAnswers`). The trace of a legal run is not refused (`legal_law`). `caption_of`: what stands after `#` on the script's first line, without the blanks around it.
//!
//! The lines of a run, one after another: those of its script as they are played, each before the lines of its trace, each with
//! its text and the drive that it names.
//!
//! What is proved: `watch_run`: whoever watches a run sees exactly its lines, in order, or a refusal names the first fault of the
//! trace. `plays_of` gives the script as it is played.
#![tactic(auto)]

mod caption;
mod counter;
mod plays;
mod seen;
mod view;
mod watch;
mod watching;

pub use caption::caption_of;
pub use plays::{first_text, plays_of, script_law};
pub use seen::{Seen, Watcher};
pub use view::{View, legal_law, view_run};
pub use watching::watch_run;
