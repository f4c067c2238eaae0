//! The chart of a run for a terminal.
//!
//! What is proved: `chart`: the text is lines of at most 100 printing characters, and each ends with LF. Above stand the title and the
//! sentences, which are those of the sheet. Then come panels of 72 columns each. In each panel each drive that is shown has one
//! line, with its name and the signs of what it did in these columns. Then each request that is listed has one line, with its id and
//! its answer. The legend says what the sign of each letter means.
//!
//! Only tested: the other rows of a panel, and the other fields of a request.
#![tactic(auto)]

mod line;
mod page;
mod panel;
mod rows;
mod strip;
mod table;

pub use line::{ChartLine, text_of};
pub use page::chart;
