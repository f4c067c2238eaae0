//! The plan of a run: what a picture or a table shows of the run, as data, and the tables and trace events that are written from it.
//!
//! What is proved: a request is a row of a plan exactly if it meets the events that are shown, with the answer that the run gave to it. A
//! drive is a lane exactly if it has requests. The bars of a lane are, column for column, what the drive did, none twice and none left
//! out. Tables, sentences and trace events have the words and numbers that the definitions name. A call fails only if there is no memory.
#![tactic(auto)]

mod bars;
mod cells;
mod events;
mod fields;
mod figures;
mod lanes;
mod plan;
mod rows;
mod sheet;
mod shown;
mod summary;

pub use bars::Bar;
pub use cells::{cell_at, count_of, holding, lead};
pub use events::events_text;
pub use figures::Figures;
pub use lanes::{Lane, Point, letter_at};
pub use plan::{Plan, plan_of, requests_text, summary_text};
pub use sheet::Sheet;
pub use shown::{Shown, is_shown, scale_of, top_of};
pub use summary::{Phrase, Sentence, sentences};
