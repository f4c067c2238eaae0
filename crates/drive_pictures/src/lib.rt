//! What is seen of one drive and of one request of a run: the moments that are seen, which of them begin an event, and what each moment
//! does to a drive and to a request.
//!
//! What is proved: each change of a `Drive` and of a `Request` is the one that the definition names, and leaves the rest as it
//! was; counts stop at 2^64 - 1.
#![tactic(auto)]

mod arms;
mod cells;
mod counts;
mod drives;
mod letters;
mod marks;
mod moments;
mod requests;
mod trials;
mod words;

pub use arms::{Arm, Path};
pub use cells::{Cell, Tally};
pub use counts::plus;
pub use drives::{Change, Drive, Queue, Seen, Times, cylinder_blocks};
pub use letters::{Letter, all_letters};
pub use marks::Mark;
pub use moments::{Moment, Play, begins, is_idle, line_of};
pub use requests::{Outcome, Request};
pub use script_lines::Request as Asked;
pub use trace_lines::Told;
pub use trials::Trial;
pub use words::{kind_word, letter_sign, letter_word, mark_sign, outcome_word};
