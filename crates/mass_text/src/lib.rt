//! Numbers and fields of a line, and texts of lines that are put together from pieces.
//!
//! `TextBuf` is put together piece by piece, and is `LineBuf` or `ShortLine` by its room. `FrontLine` is put together from its
//! end: the last digit of a number is found first, so its digits go straight to their place.
//!
//! What is proved: `number` is exact: it gives Empty, Digit with the first place that is no digit, Large, or the value.
//! `Fields` gives the pieces between spaces and tabs. A text is exactly what was put so far. `put_bytes` writes 1 to
//! 512 bytes as `fill HH` exactly if all of them are equal, and otherwise as `hex` and two digits for each byte.
//! `numeral_law`: a number that is written is read again.
//!
//! Only tested, in `hpsim_rows`: worked values, beside their proofs.
#![tactic(auto)]

mod ends;
mod from_end;
mod line;
mod numbers;
mod pieces;

pub use from_end::FrontLine;
pub use line::{LineBuf, ShortLine, TextBuf, content_law};
pub use numbers::{NumberFault, Radix, number, numeral_law};
pub use pieces::Fields;
