//! What a MASSBUS adapter finds on its drives: the kind of a drive, by the drive type register, and the bad-sector table
//! of the pack that is attached.
//!
//! What is proved: `probe` is exact on nine bits of the type register, for three kinds. `attach` leaves the drive with
//! its volume valid, no offset and the 16-bit format, and gives the table of the pack; TooLong comes exactly if the image
//! is longer than the pack, and Store only if the packs' count of faults rose; the packs stay as they are.
//!
//! Only tested, in `drive_rows`: worked values, beside their proofs.
#![tactic(auto)]

mod attaching;
mod probing;

pub use attaching::{AttachFault, Attached, attach};
pub use probing::{ProbeFault, probe};
