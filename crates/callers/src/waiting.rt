// One blocking request at a time: blocks are written and read back.
ghost use Rattle.std.specs.Prelude.{◌≡◌, ◌≤◌, OnOk};
ghost use Rattle.driver_machine.specs.Guards.{IsSetUp};
ghost use Rattle.blocking_io.specs.Asking.{IsReady};

use blocking_io::{Reached, ask_read, ask_write};
use hp_driver::{Request, Stop, Subsystem};
use outside_traits::traits::{Packs, Sink};
use partitions::Part;

/// A request for three whole blocks of unit 0, from a block of its partition c on.
fn three_blocks(id: u32, block: u32, write: bool) -> Request
    ensures unit { result.unit ≡ 0 }
    ensures count { result.count ≡ 3 }
    ensures last { result.last ≡ 512 }
    ensures offset { result.offset ≡ 0 }
    ensures write { result.write ≡ write }
{
    Request {
        id,
        unit: 0,
        part: Part::C,
        block,
        count: 3,
        write,
        offset: 0,
        last: 512,
    }
}

/// Writes three blocks of unit 0, from a block of partition `c` on, and reads them back. Answers whether all of them were written and
/// read.
pub fn write_then_read<P: Packs, T: Sink>(
    subsystem: &mut Subsystem,
    block: u32,
    from: &[u8; 1536],
    into: &mut [u8; 1536],
    packs: &mut P,
    trace: &mut T,
) -> Result<bool, Stop>
    requires ready { IsReady subsystem.old }
    requires room { 1 ≤ subsystem.old.outstanding }
    requires unit { IsSetUp subsystem.old.world 0 }
    ensures ready { OnOk result (IsReady subsystem.new) }
{
    let written = ask_write(
        subsystem,
        1,
        three_blocks(1, block, true),
        from,
        packs,
        trace,
    )?;
    let read = ask_read(
        subsystem,
        2,
        three_blocks(2, block, false),
        into,
        packs,
        trace,
    )?;
    Ok(matches!((written, read), (Reached::All, Reached::All)))
}
