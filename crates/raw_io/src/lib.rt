//! Raw transfers: reading or writing any bytes of a partition, and dumping memory to the end of the partition for swapping. They go
//! through the driver, and so through the forwarding of bad sectors, in blocking requests of whole blocks.
//!
//! What is proved of `raw_read`, `raw_write` and `dump`: `Outside` comes exactly if the range reaches beyond the partition, and nothing
//! changes then. `Unusable` comes exactly if the range touches a block that can't be used; exactly the bytes before that block were
//! given or replaced (`GivesRange`, `PutsRange`). Each block of which a byte was read has its clean line, and every other byte of every
//! block stays. If the trace or the packs fail, a front of the blocks is replaced, each of them whole (`StopsAt`). The lines are those
//! of a session of requests for at most 127 whole blocks each, and the driver is ready again after Ok and `Unusable`. Statements about
//! what the packs hold apply if the packs tell it, and if the driver's tables are theirs. `is_outside` is exact. No fact is only
//! tested.
#![tactic(auto)]

mod blocks;
mod dumping;
mod fault;
mod pieces;
mod reading;
mod writing;

pub use blocking_io::{Stop, Subsystem, UnitSetup};
pub use dumping::dump;
pub use fault::RawFault;
pub use pieces::is_outside;
pub use reading::raw_read;
pub use writing::raw_write;
