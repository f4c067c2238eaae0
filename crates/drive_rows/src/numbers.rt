// Numbers that come from outside: the code's checks and verdicts, the ends of partitions, headers, type words, and digits.
use Admission::{Eof, Inside, Outside};
use DriveKind::{Rm03, Rm05, Rp06};
use HeaderFault::{BadSector, Format};
use NoiseClass::{Alias, Short, Shown};
use NumberFault::{Digit, Empty, Large};
use Radix::{Decimal, Hex, Octal};
use Verdict::{Burst, Clean, Uncorrectable};
use drive_model::sector_format::{HeaderFault, header_fault, header_of};
use drive_registers::{RM03_TYPE, RM05_TYPE, RP06_TYPE};
use fire_code::{
    Check, Noise, NoiseClass, Verdict, apply, class_of, encode, judge, judge_noise, plain, syndrome,
};
use mass_text::{NumberFault, Radix, number};
use pack_geometry::DriveKind;
use partitions::{Admission, Part, admit};

// Whether 511 zeros and this byte have this check, by the tables and by the plain program.
fn has_check(last: u8, check: u32) -> bool {
    let mut bytes = [0; 512];
    bytes[511] = last;
    encode(&bytes) == Check(check) && plain::remainder(&bytes, Check(0)) == check
}

// A last byte of zero, one with its highest bit set, and one with the next bit set.
static CHECKS: [(u8, u32); 3] = [(0, 0), (0x80, 0x00A0_0805), (0x40, 0x0140_100A)];

const SPREAD: Verdict = Burst {
    at: 4091,
    pattern: 0o2001,
};

const LAST: Verdict = Burst {
    at: 4128,
    pattern: 1,
};

static NOISE: [(&[u16], NoiseClass, Verdict); 4] = [
    (&[4090, 4100], Short, SPREAD),
    (&[0, 7, 14], Shown, Uncorrectable),
    (&[0, 9, 11, 21, 30, 32], Alias, Clean),
    (&[4127], Short, LAST),
];

// Whether noise has this class, and a sector of zeros that it strikes this verdict, by the tables and by the plain program.
fn strikes(places: &[u16], class: NoiseClass, verdict: Verdict) -> bool {
    let Some(noise) = Noise::new(places) else {
        return false;
    };
    let mut bytes = [0; 512];
    let check = apply(&noise, &mut bytes, Check(0));
    let remainder = plain::remainder(&bytes, check);
    syndrome(&bytes, check) == remainder
        && judge(&bytes, check) == verdict
        && plain::verdict_of(remainder) == verdict
        && judge_noise(&noise.copy()) == verdict
        && class_of(&noise) == class
}

#[test]
fn fire_code_values(rt: HostRuntime) {
    for (last, check) in &CHECKS {
        assert!(rt; has_check(*last, *check));
    }
    for (places, class, verdict) in &NOISE {
        assert!(rt; strikes(places, *class, *verdict));
    }
}

type End = (DriveKind, Part, u32, u32, Admission);

static ENDS: [End; 14] = [
    (Rp06, Part::C, 340522, 1, Eof),
    (Rp06, Part::C, 340521, 2, Outside),
    (Rp06, Part::H, 0, 1, Eof),
    (Rp06, Part::C, 340521, 1, Inside { first: 340521 }),
    (Rp06, Part::B, 0, 127, Inside { first: 15884 }),
    (Rp06, Part::C, u32::MAX, 127, Outside),
    (Rm03, Part::F, 0, 127, Inside { first: 121440 }),
    (Rm03, Part::F, 10080, 1, Eof),
    (Rm03, Part::G, 82079, 1, Inside { first: 131519 }),
    (Rm05, Part::C, 500225, 1, Inside { first: 500225 }),
    (Rm05, Part::C, 500226, 1, Eof),
    (Rm05, Part::D, 0, 1, Eof),
    (Rm05, Part::G, 450369, 1, Inside { first: 500225 }),
    (Rm05, Part::G, 450369, 2, Outside),
];

fn admits(row: &End) -> bool {
    let (kind, part, block, count, wanted) = *row;
    count >= 1 && count <= 127 && admit(kind, part, block, count) == wanted
}

#[test]
fn partition_ends(rt: HostRuntime) {
    for row in &ENDS {
        assert!(rt; admits(row));
    }
}

// Headers by the drives' tables, worked out by hand: a block, whether it is marked, its two words, and what they are at fault for.
type Row = (DriveKind, u32, bool, u16, u16, Option<HeaderFault>);

static HEADERS: [Row; 6] = [
    (Rp06, 1000, false, 0o010002, 0o003412, None),
    (Rp06, 1000, true, 0o000002, 0o003412, Some(Format)),
    (Rm03, 160, false, 0o150001, 0, None),
    (Rm03, 160, true, 0o110001, 0, Some(BadSector)),
    (Rm05, 1000, false, 0o150001, 0o006010, None),
    (Rm05, 1000, true, 0o110001, 0o006010, Some(BadSector)),
];

fn has_header(row: &Row) -> bool {
    let (kind, block, marked, cylinder_word, sector_word, fault) = *row;
    if block >= 131680 {
        return false;
    }
    let header = header_of(kind, block, marked);
    header.cylinder_word == cylinder_word
        && header.sector_word == sector_word
        && header_fault(kind, header, block) == fault
}

#[test]
fn headers(rt: HostRuntime) {
    for row in &HEADERS {
        assert!(rt; has_header(row));
    }
}

#[test]
fn type_words(rt: HostRuntime) {
    assert!(rt; RP06_TYPE == 0o020022 && RM03_TYPE == 0o020024 && RM05_TYPE == 0o020027);
}

// A text, its radix, the most that it may be, and its number, or what is wrong with it.
type Number = (&'static [u8], Radix, u64, Result<u64, NumberFault>);

static NUMBERS: [Number; 8] = [
    (b"", Decimal, 9, Err(Empty)),
    (b"1x", Decimal, 9, Err(Digit(1))),
    (b"10", Decimal, 9, Err(Large)),
    (b"09", Decimal, 9, Ok(9)),
    (b"99x", Decimal, 9, Err(Digit(2))),
    (b"18", Octal, 100, Err(Digit(1))),
    (b"aF", Hex, 255, Ok(175)),
    (b"18446744073709551616", Decimal, u64::MAX, Err(Large)),
];

#[test]
fn numbers(rt: HostRuntime) {
    for row in &NUMBERS {
        assert!(rt; number(row.0, row.1, row.2) == row.3);
    }
}
