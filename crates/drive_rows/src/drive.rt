// What a drive leaves in its registers, and what a move of a sector and the attaching of a pack come to if a call of the packs fails.
ghost use Rattle.std.specs.Prelude.{◌≡◌, true};
ghost use Rattle.hardware_table.specs.Drive.{is_transferring};

use crate::few_blocks::{Wrong, few_blocks};
use DriveKind::{Rm03, Rm05, Rp06};
use FaultKind::{Dte, Hcrc, Late, Opi, Seek};
use Function::{Centre, Nop, Read, Search, Write, WriteHeader};
use Moved::Faulted;
use Trial::{Fault, MarkedWrite, Noisy};
use bad144_table::{empty_table, serial};
use drive_model::{Drive, FaultKind, Moved, NoiseBook, NoiseSpan, Register};
use drive_registers::Function;
use fire_code::Noise;
use main_memory::{MainMemory, Window, to_bus};
use mba_autoconf::{AttachFault, ProbeFault, attach, probe};
use pack_geometry::DriveKind;
use std::alloc::Global;

// What a sector meets that is tried.
#[derive(Clone, Copy)]
enum Trial {
    Offline,
    Fault(FaultKind),
    Mark,
    Noisy(&'static [u16]),
    Write,
    MarkedWrite,
}

// A drive with a transfer under way.
fn transferring(kind: DriveKind, trial: Trial) -> Drive
    ensures kind { result.kind ≡ kind }
    ensures work { is_transferring result.work ≡ true }
{
    let mut drive = Drive::new(kind, 3);
    if let Fault(fault) = trial {
        drive.arm_fault(fault, 1);
    }
    match trial {
        Trial::Write | MarkedWrite => drive.go(Function::Write),
        _ => drive.go(Function::Read),
    }
    if matches!(trial, Trial::Offline) {
        drive.set_online(false);
    }
    drive
}

// The verdict of a trial, the error registers Er1 and Er2 that it leaves, and how many calls on the packs it makes.
type Row = (Trial, Moved, (u16, u16), u64);

const SHORT: Moved = Moved::Burst {
    at: 4091,
    pattern: 0o2001,
};

// Of a mark it has what an RP06 leaves.
static ROWS: [Row; 12] = [
    (Trial::Offline, Moved::Offline, (0o40000, 0), 0),
    (Fault(Seek), Faulted(Seek), (0, 0o40000), 0),
    (Fault(Opi), Faulted(Opi), (0o20000, 0), 0),
    (Fault(Dte), Faulted(Dte), (0o10000, 0), 0),
    (Fault(Hcrc), Faulted(Hcrc), (0o400, 0), 0),
    (Fault(Late), Faulted(Late), (0, 0), 0),
    (Trial::Mark, Moved::Marked, (0o20, 0), 1),
    (MarkedWrite, Moved::Marked, (0o20, 0), 1),
    (Trial::Write, Moved::Clean, (0, 0), 2),
    (Noisy(&[0, 9, 11, 21, 30, 32]), Moved::Clean, (0, 0), 2),
    (Noisy(&[4090, 4100]), SHORT, (0o100000, 0), 2),
    (Noisy(&[0, 7, 14]), Moved::Hard, (0o100100, 0), 2),
];

// A book with the noise of a trial at block 0, if the trial has any.
fn book_for(alloc: Global, trial: Trial) -> Option<NoiseBook> {
    let mut book = NoiseBook::new(alloc, 1).ok()?;
    if let Noisy(places) = trial {
        book.arm(4, 0, Noise::new(places)?, NoiseSpan::Times(1));
    }
    Some(book)
}

// Whether a drive has the error registers of a row; an RM03 and an RM05 tell a mark in Er2.
fn shows_error(drive: &Drive, kind: DriveKind, row: &Row) -> bool {
    let (er1, er2) = match (row.1, kind) {
        (Moved::Marked, DriveKind::Rm03 | DriveKind::Rm05) => (0, 0o100000),
        _ => row.2,
    };
    drive.read_register(Register::Er1) == er1 && drive.read_register(Register::Er2) == er2
}

// Whether a try of block 0 comes to a row, or is told to fail with the call of this number, after which none comes.
fn is_tried(
    alloc: Global,
    kind: DriveKind,
    row: &Row,
    number: u64,
    window: &mut Window<'_>,
) -> Option<bool> {
    let mut book = book_for(alloc, row.0)?;
    let is_marked = matches!(row.0, Trial::Mark | MarkedWrite);
    let marks: &[u32] = if is_marked { &[0] } else { &[] };
    let mut packs = few_blocks(alloc, marks, number, Wrong::Fails)?;
    let mut drive = transferring(kind, row.0);
    let is_told = match drive.move_sector(&mut packs, 4, 0, &mut book, window) {
        Ok(verdict) => number == 0 && verdict == row.1 && shows_error(&drive, kind, row),
        Err(_) => number > 0,
    };
    Some(is_told && packs.calls == if number > 0 { number } else { row.3 })
}

// Whether a row holds if no call fails, and if each call does.
fn are_tried(alloc: Global, kind: DriveKind, row: &Row) -> Option<bool> {
    let mut memory = MainMemory::new(alloc).ok()?;
    let buffer = to_bus(memory.lend(1, 0, 512).ok()?);
    let mut window = memory.window(&buffer, 0);
    for number in 0..=row.3 {
        if is_tried(alloc, kind, row, number, &mut window) != Some(true) {
            return None;
        }
    }
    Some(true)
}

#[test]
fn verdicts(rt: HostRuntime) {
    for (kind, _, _) in &KINDS {
        for row in &ROWS {
            assert!(rt; are_tried(rt.alloc(), *kind, row) == Some(true));
        }
    }
}

// What a function leaves on a drive whose volume is valid, with 0o2007 in Da and 0o10260 in Of: the function, the word
// in Dc, and whether the drive is locked; Er1 and Ds; and Ds, Cc and La after the arrival, where there is one.
type Done = (Function, u16, bool, [u16; 2], [u16; 3]);

static FUNCTIONS: [Done; 8] = [
    (Nop, 5, false, [0, 0o10700], [0o10700, 0, 0]),
    (Function::Seek, 5, false, [0, 0o30500], [0o110700, 5, 0]),
    (Search, 5, false, [0, 0o30500], [0o110700, 5, 0o700]),
    (Search, 1000, false, [0o2000, 0o150700], [0o150700, 0, 0]),
    (Write, 5, true, [0o4000, 0o154700], [0o154700, 0, 0]),
    (WriteHeader, 5, false, [0o1, 0o150700], [0o150700, 0, 0]),
    (Read, 5, true, [0, 0o14500], [0o14500, 0, 0]),
    (Centre, 5, false, [0, 0o10700], [0o10700, 0, 0]),
];

// Whether a function leaves a drive as a row says.
fn does_function(kind: DriveKind, row: &Done) -> bool {
    let (function, dc, locked, left, arrived) = *row;
    let mut drive = Drive::new(kind, 3);
    drive.go(Function::Pack);
    drive.write_register(Register::Of, 0o10260);
    drive.write_register(Register::Dc, dc);
    drive.write_register(Register::Da, 0o2007);
    drive.set_locked(locked);
    drive.go(function);
    // Of stays, but that Centre clears the offset.
    let of = if function == Centre { 0o10000 } else { 0o10260 };
    let found = [Register::Er1, Register::Ds, Register::Of].map(|it| drive.read_register(it));
    drive.arrive();
    let later = [Register::Ds, Register::Cc, Register::La].map(|it| drive.read_register(it));
    found == [left[0], left[1], of] && later == arrived
}

// A kind of drive, its type word, and the most bytes that an image of it may have.
type Kind = (DriveKind, u16, u64);

static KINDS: [Kind; 3] = [
    (DriveKind::Rp06, 0o20022, 174_423_040),
    (DriveKind::Rm03, 0o20024, 67_420_160),
    (DriveKind::Rm05, 0o20027, 256_196_608),
];

#[test]
fn registers(rt: HostRuntime) {
    for (kind, word, _) in &KINDS {
        assert!(rt; Drive::new(*kind, 3).read_register(Register::Dt) == *word);
        for row in &FUNCTIONS {
            assert!(rt; does_function(*kind, row));
        }
    }
}

// Whether a pack that is `more` bytes longer than it may be, and has no table, is attached with `calls` calls, of which call `number`
// fails. It is attached if it is as long as it may be and no call fails; otherwise it is told to be too long, or that a call failed.
fn is_attached(alloc: Global, row: &Kind, more: u64, number: u64, calls: u64) -> Option<bool> {
    let (kind, _, most) = *row;
    let mut packs = few_blocks(alloc, &[], number, Wrong::Fails)?;
    packs.length = most.saturating_add(more);
    let is_told = match attach(&mut Drive::new(kind, 3), &mut packs, 3) {
        Ok(found) => more == 0 && number == 0 && found.kind == kind && found.table.is_none(),
        Err(AttachFault::TooLong { length }) => more == 1 && length == packs.length,
        Err(AttachFault::Store) => number > 0,
    };
    Some(is_told && packs.calls == calls)
}

#[test]
fn attached_up_to_the_call_that_fails(rt: HostRuntime) {
    for row in &KINDS {
        // Its length, and a mark and a read of each copy of the table.
        assert!(rt; is_attached(rt.alloc(), row, 0, 0, 11) == Some(true));
        assert!(rt; is_attached(rt.alloc(), row, 1, 0, 1) == Some(true));
        for number in 1..=11 {
            assert!(rt; is_attached(rt.alloc(), row, 0, number, number) == Some(true));
        }
    }
}

// A drive type word, and the kind that it names or the bits that name none.
type Probed = (u16, Result<DriveKind, ProbeFault>);

static TYPES: [Probed; 6] = [
    (0o020022, Ok(Rp06)),
    (0o020024, Ok(Rm03)),
    (0o020027, Ok(Rm05)),
    (0o177022, Ok(Rp06)),
    (0o020023, Err(ProbeFault::Unknown(0o023))),
    (0o020122, Err(ProbeFault::Unknown(0o122))),
];

#[test]
fn drive_types(rt: HostRuntime) {
    for row in &TYPES {
        assert!(rt; probe(row.0) == row.1);
    }
}

// The copies of the table of an RP06 that are marked; the serial numbers of the five, 0 for no table; and the one that is found.
type Copies = (&'static [u32], [u32; 5], Option<u32>);

static COPIES: [Copies; 5] = [
    (&[340_648], [1, 2, 3, 0, 0], Some(2)),
    (&[], [0, 2, 3, 0, 0], Some(2)),
    (
        &[340_648, 340_650, 340_652, 340_654],
        [1, 2, 3, 4, 5],
        Some(5),
    ),
    (&[], [0; 5], None),
    (&[340_648, 340_650, 340_652, 340_654, 340_656], [1; 5], None),
];

// The serial number of the table with which such a pack is attached.
fn serial_found(alloc: Global, marks: &'static [u32], serials: &[u32; 5]) -> Option<u32> {
    let mut packs = few_blocks(alloc, marks, 0, Wrong::Fails)?;
    for k in 0..5u32 {
        if serials[k as usize] > 0 {
            packs.put_copy(Rp06, k, &empty_table(Rp06, serials[k as usize]));
        }
    }
    let found = attach(&mut Drive::new(Rp06, 3), &mut packs, 3).ok()?;
    found.table.as_ref().map(|table| serial(table))
}

#[test]
fn second_copy(rt: HostRuntime) {
    for (marks, serials, wanted) in &COPIES {
        assert!(rt; serial_found(rt.alloc(), *marks, serials) == *wanted);
    }
}
