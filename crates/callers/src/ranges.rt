// Bytes of a partition are written and read back.
ghost use Rattle.std.specs.Prelude.{◌<◌, ◌^◌, OnOk};
ghost use Rattle.blocking_io.specs.Asking.{IsReady};
ghost use Rattle.raw_io.specs.Passes.{MayTransfer};

use hp_driver::Subsystem;
use outside_traits::traits::{Packs, Sink};
use partitions::Part;
use raw_io::{RawFault, raw_read, raw_write};

/// Writes bytes to partition `a` of unit 0 from byte `at` on, below 2^40, and then reads from that byte on until `into` is full.
pub fn put_then_get<P: Packs, T: Sink>(
    subsystem: &mut Subsystem,
    at: u64,
    from: &[u8],
    into: &mut [u8],
    packs: &mut P,
    trace: &mut T,
) -> Result<(), RawFault>
    requires may { MayTransfer subsystem.old 0 }
    requires at { at < 2 ^ 40 }
    ensures ready { OnOk result (IsReady subsystem.new) }
{
    raw_write(subsystem, 0, Part::A, at, from, packs, trace)?;
    raw_read(subsystem, 0, Part::A, at, into, packs, trace)
}
