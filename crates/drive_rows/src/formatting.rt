// One whole run of formatting, each of its calls that goes wrong, and each reading of a block that fails.
ghost use Rattle.std.specs.Prelude.{◌<◌};
ghost use Rattle.pack_geometry.specs.Geometry.{block_count};
ghost use Rattle.pack_geometry.specs.declared.DriveKind.TheVariants.{Rm03};

use crate::few_blocks::{FewBlocks, SURVEYED, Wrong, few_blocks};
use Wrong::{Fails, FailsBehind, Lies};
use pack_format::testing::Station;
use pack_format::{FormatFault, FormatReport, format};
use pack_geometry::DriveKind;
use std::alloc::Global;

/// So many calls a whole run makes.
const CALLS: u64 = 526_403;

/// What a whole run writes: its calls, the blocks, and the byte that each begins with.
static WRITES: [(u64, u32, u8); 15] = [
    (263_307, 0, 0xa5),
    (263_311, 0, 0x00),
    (394_833, 65_760, 0xa5),
    (394_837, 65_760, 0x00),
    (526_361, 131_521, 0xa5),
    (526_365, 131_521, 0x00),
    (526_369, 131_646, 0xa5),
    (526_373, 131_646, 0x00),
    (526_377, 131_647, 0xa5),
    (526_381, 131_647, 0x00),
    (526_385, 131_648, 0x09),
    (526_389, 131_650, 0x09),
    (526_393, 131_652, 0x09),
    (526_397, 131_654, 0x09),
    (526_401, 131_656, 0x09),
];

/// What a block holds: the table with the serial number 9 that lists blocks 5 and 160, or such bytes.
fn content_of(first: u8) -> [u8; 512] {
    if first != 9 {
        return [first; 512];
    }
    let mut bytes = [0xff; 512];
    bytes[..16].copy_from_slice(&[9, 0, 0, 0, 0, 0, 0, 0, 0, 0, 5, 0, 1, 0, 0, 0]);
    bytes
}

/// Whether just that was written which a whole run writes by calls of lower numbers.
fn is_front(written: &[(u64, u32, [u8; 512])], number: u64) -> bool {
    let count = WRITES.iter().filter(|row| row.0 < number).count();
    let wanted = WRITES.iter().map(|row| (row.0, row.1, content_of(row.2)));
    written.len() == count && written.iter().zip(wanted).all(|(it, row)| *it == row)
}

/// How a run ends.
#[derive(Clone, Copy)]
enum End {
    /// Well, with two blocks listed.
    Formatted,
    /// By a call that failed.
    Stopped,
    /// At a byte that came back otherwise: its block, its place there, what was written and what was read.
    Differs((u32, u16, u8, u8)),
}

/// Whether a run in which this call goes wrong so ends with the last of so many calls, and has written just what a whole run writes before
/// it, and by the call itself where that did what it was to do.
fn ends(alloc: Global, number: u64, wrong: Wrong, calls: u64, end: End) -> Option<bool> {
    let mut packs = few_blocks(alloc, &[5, 160], number, wrong)?;
    let is_told = match (format(alloc, &mut packs, 0, DriveKind::Rm03, 9), end) {
        (Ok(FormatReport { bad }), End::Formatted) => bad == 2,
        (Err(FormatFault::Store), End::Stopped) => true,
        (
            Err(
                FormatFault::Differs {
                    block,
                    at,
                    wrote,
                    read,
                },
            ),
            End::Differs(wanted),
        ) => (block, at, wrote, read) == wanted,
        _ => false,
    };
    let behind = match wrong {
        FailsBehind => calls.saturating_add(1),
        Fails | Lies => number,
    };
    Some(is_told && packs.calls == calls && is_front(packs.written.as_slice(), behind))
}

/// Calls of a whole run that fail: the first one, how many, and by which steps. If a step is odd, marks and reads take turns.
static FAILING: [(u64, u64, u64); 9] = [
    // The length, the first reading of two cylinders, and of data blocks from there on.
    (1, 660, 1),
    (661, 26, 9_973),
    // The first reading of the replacements, and of the last one and of the copies.
    (SURVEYED - 260, 10, 25),
    (SURVEYED - 11, 12, 1),
    // The tests of the first data block, and of marked ones after it.
    (SURVEYED + 1, 12, 1),
    (SURVEYED + 13, 7, 19_989),
    // The tests of the data block in the middle, and of marked ones after it.
    (394_830, 16, 1),
    (394_847, 6, 23_911),
    // The tests of the last data block and of the replacements, and the writing of the copies.
    (CALLS - 47, 48, 1),
];

/// Whether a run ends with each of these calls if it fails.
fn end_with(alloc: Global, calls: &(u64, u64, u64)) -> bool {
    let (first, count, step) = *calls;
    for k in 0..count {
        let number = first.saturating_add(k.saturating_mul(step));
        if ends(alloc, number, Fails, number, End::Stopped) != Some(true) {
            return false;
        }
    }
    true
}

#[test]
fn each_call_fails(rt: HostRuntime) {
    for calls in &FAILING {
        assert!(rt; end_with(rt.alloc(), calls));
    }
}

/// Whether runs end so at a write that fails behind itself, at one that writes nothing, at a mark behind it, so that nothing comes back,
/// and at another byte that does.
fn end_at(alloc: Global, row: &(u64, u32, u8)) -> bool {
    let (write, block, first) = *row;
    let (mark, read) = (write.saturating_add(1), write.saturating_add(2));
    let last = content_of(first)[511];
    let had = if first == 0 { 0xa5 } else { 0x77 };
    let differs = |at, wrote, read| End::Differs((block, at, wrote, read));
    let runs = [
        (write, FailsBehind, write, End::Stopped),
        (write, Lies, read, differs(0, first, had)),
        (mark, Lies, mark, differs(0, first, !first)),
        (read, Lies, read, differs(511, last, !last)),
    ];
    runs.iter().all(|run| ends(alloc, run.0, run.1, run.2, run.3) == Some(true))
}

#[test]
fn each_write_comes_back_otherwise(rt: HostRuntime) {
    for row in &WRITES {
        assert!(rt; end_at(rt.alloc(), row));
    }
    assert!(rt; ends(rt.alloc(), u64::MAX, Fails, CALLS, End::Formatted) == Some(true));
}

/// Whether the reading of a block fails with this one of its calls, and makes no other call after it.
fn fails_with(alloc: Global, packs: &mut FewBlocks, block: u32, number: u64) -> Option<bool>
    requires { block < block_count Rm03 }
{
    let mut station = Station::new(alloc, DriveKind::Rm03).ok()?;
    packs.calls = 0;
    packs.number = number;
    let mut bytes = [0; 512];
    let polled = station.poll_read(packs, 0, DriveKind::Rm03, block, &mut bytes);
    Some(polled.is_err() && packs.calls == number)
}

/// Whether the reading of each block of an RM03 fails with each of its calls: a mark, and a read if the block is not marked.
fn fails_with_each(alloc: Global) -> Option<bool> {
    let mut packs = few_blocks(alloc, &[5, 160], 1, Fails)?;
    for block in 0..131_680u32 {
        let calls = if block == 5 || block == 160 { 1 } else { 2 };
        for number in 1..=calls {
            if fails_with(alloc, &mut packs, block, number) != Some(true) {
                return None;
            }
        }
    }
    Some(true)
}

#[test]
fn each_reading_fails(rt: HostRuntime) {
    assert!(rt; fails_with_each(rt.alloc()) == Some(true));
}
