//! Callers of the driver, as the `CALLING.md` pages of `hp_driver`, `blocking_io`, `raw_io` and `mass_outside` show them. The crate of
//! a new caller begins as a copy of this one (`examples/new-caller.sh`).
//!
//! What is proved: `attached` gives a driver that is ready. `write_then_read` and `put_then_get` may make their requests, and leave the
//! driver ready. `attached_both` gives a driver of two drives, to which `read_from_both` submits all its reads before any event
//! happens. If `drain` answers `true`, no request is outstanding. `Zeros`, `Counter` and `Disk` do what the traits of the outside world
//! say.
//!
//! Only tested, in `drive_rows`: that blocks come back over a marked block if the table lists it, and do not if the table lists none.
//! Only tested, in `hpsim_rows`: raw transfers across two blocks, at the end of a partition and over a block that can't be used, and a
//! dump.
#![tactic(auto)]

mod attaching;
mod both;
mod outside;
mod ranges;
mod waiting;

pub use attaching::{attached, attached_both};
pub use both::{Tally, drain, read_from_both};
pub use hp_driver::Stop;
pub use outside::{Counter, Disk, Zeros};
pub use ranges::put_then_get;
pub use raw_io::RawFault;
pub use waiting::write_then_read;
