//! The answer text, and the tally of a run. Defined in `specs/`, over the moments of a run: its answer text, `out_text`, and its
//! tally, `tally_of`: how many answers it has, how many of these are ok, reads and writes alike, and the length of its
//! answer text and the sum of its bytes modulo 2^32. The number of requests stands beside these.
//!
//! What is proved: `answer_line`, `noise_line`, `write_block` and `write_fill` write the lines of the answer text: of a request's
//! answer, of the class that noise has, and of the blocks that a read gave. `Tally` counts as `tally_of` does: if it holds the tally of some moments, it holds the tally with one answer
//! more after `count_answer`, and with one text more after `count_text`. A count of 64 bits stays at its highest value.

mod fills;
mod lines;
mod tally;
mod words;

pub use fills::{FillLine, write_fill};
pub use lines::{BlockLine, answer_line, noise_line, write_block};
pub use tally::Tally;
