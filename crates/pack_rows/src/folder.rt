// Tests over a folder in memory whose calls are short, fail or are interrupted.
ghost use Rattle.std.specs.Prelude.{◌<◌, ◌≤◌, IfOk};

use crate::steps::{Call, Step, failures_over};
use Call::{Length, Mark, Marked, Read, Write};
use Step::{Fail, Of};
use outside_files::folder::{PackFolder, Part};
use std::io;
use std::io::ErrorKind;

/// How many blocks unit 0 has room for.
const ROOM: usize = 16;

/// The two files of unit 0. No other unit has files or room for them. Calls are counted from 1.
#[derive(Drop)]
struct MemFolder {
    image: Vec<u8>,
    marks: Vec<u8>,
    /// By how many bytes a call is short of what is asked. It moves at least one byte if any are asked.
    short: usize,
    /// The call that fails.
    fail: u64,
    /// The call before which two calls are interrupted.
    interrupted: u64,
    calls: u64,
    interrupts: u8,
}

impl MemFolder {
    /// The bytes of a file.
    fn bytes(&self, unit: u8, part: Part) -> &[u8] {
        match (unit, part) {
            (0, Part::Image) => self.image.as_slice(),
            (0, Part::Marks) => self.marks.as_slice(),
            _ => b"",
        }
    }

    /// How many of the bytes that are asked the next call moves.
    fn next(&mut self, asked: usize) -> io::Result<usize>
        ensures bound { IfOk result (λ n. n ≤ asked) }
        ensures some { IfOk result (λ n. 0 < asked → 0 < n) }
    {
        if self.interrupts < 2 && self.calls.saturating_add(1) == self.interrupted {
            self.interrupts += 1;
            return Err(io::Error::from(ErrorKind::Interrupted));
        }
        self.calls = self.calls.saturating_add(1);
        if self.calls == self.fail {
            return Err(io::Error::from(ErrorKind::Other));
        }
        if asked > self.short {
            return Ok(asked - self.short);
        }
        Ok(asked.min(1))
    }
}

/// Puts bytes at a place of a file, which is extended by zeros if it ends too early and has room.
fn put(file: &mut Vec<u8>, at: u64, from: &[u8], room: usize) -> io::Result<()> {
    let at = at.min(room as u64) as usize;
    if from.len() > room - at {
        return Err(io::Error::from(ErrorKind::NotFound));
    }
    let end = at + from.len();
    if file.len() < end {
        file.resize(end, 0)?;
    }
    file[at..end].copy_from_slice(from);
    Ok(())
}

impl PackFolder for MemFolder {
    ghost use Rattle.std.specs.Prelude.{false, length};
    ghost use Rattle.pack_geometry.specs.Pack.{empty_pack};

    ghost tells = { λ _. false };

    ghost held = { λ _. λ _. empty_pack };

    fn length(&mut self, unit: u8, part: Part) -> io::Result<u64> {
        self.next(0)?;
        Ok(self.bytes(unit, part).len() as u64)
    }

    fn read_at(&mut self, unit: u8, part: Part, at: u64, into: &mut [u8]) -> io::Result<usize> {
        let most = self.next(into.len())?;
        let bytes = self.bytes(unit, part);
        let rest = bytes.get(at as usize..).unwrap_or(b"");
        let count = most.min(rest.len());
        into[..count].copy_from_slice(&rest[..count]);
        Ok(count)
    }

    fn write_at(&mut self, unit: u8, part: Part, at: u64, from: &[u8]) -> io::Result<usize> {
        let count = self.next(from.len())?;
        match (unit, part) {
            (0, Part::Image) => put(&mut self.image, at, &from[..count], 512 * ROOM)?,
            (0, Part::Marks) => put(&mut self.marks, at, &from[..count], ROOM)?,
            _ => return Err(io::Error::from(ErrorKind::NotFound)),
        }
        Ok(count)
    }
}

/// What calls answer on packs in this folder: on blocks inside the image, on a block that reaches beyond its end, and on blocks behind
/// its end.
static CALLS: [Step; 15] = [
    Of(0, &[(Length, 700), (Read(0), 0xFFFF), (Read(1), 0xFF00)]),
    Of(0, &[(Read(7), 0), (Write(1, 5), 0), (Length, 1024)]),
    Of(0, &[(Read(1), 0x0505), (Read(0), 0xFFFF), (Read(2), 0)]),
    Of(0, &[(Read(8), 0), (Read(u32::MAX), 0)]),
    Of(4, &[(Read(0), 0)]),
    Of(0, &[(Write(15, 6), 0), (Length, 8192), (Read(14), 0)]),
    Of(0, &[(Read(15), 0x0606), (Read(16), 0), (Write(15, 8), 0)]),
    Of(0, &[(Read(15), 0x0808)]),
    Of(4, &[(Length, 0)]),
    Fail(4, &[Write(0, 1)]),
    Of(4, &[(Read(0), 0)]),
    Of(0, &[(Marked(1), 0), (Mark(1, true), 0), (Marked(1), 1)]),
    Of(0, &[(Marked(0), 0), (Mark(9, true), 0), (Marked(9), 1)]),
    Of(0, &[(Marked(8), 0), (Mark(1, false), 0), (Marked(1), 0)]),
    Of(0, &[(Mark(0, true), 0), (Marked(0), 1), (Marked(5000), 0)]),
];

/// How many of these calls fail once if the calls of the folder behave like this. The image has 700 bytes 255, and each block a mark.
/// `None` if a call answers something else.
fn failures_by(rt: &HostRuntime, short: usize, fail: u64, interrupted: u64) -> Option<usize> {
    let folder = MemFolder {
        image: vec![in rt.alloc(); 0xFF; 700].ok()?,
        marks: vec![in rt.alloc(); 0; ROOM].ok()?,
        short,
        fail,
        interrupted,
        calls: 0,
        interrupts: 0,
    };
    failures_over(rt, folder, &CALLS)
}

/// Whether no call fails if the calls of the folder are short by `short` bytes and each of them, in turn, is interrupted.
fn are_whole(rt: &HostRuntime, short: usize) -> bool {
    (0..60u64).all(|call| failures_by(rt, short, 0, call) == Some(0))
}

/// If a call is short or interrupted, it is made again, and nothing fails.
#[test]
fn short_and_interrupted_calls(rt: HostRuntime) {
    for short in [0, 1, 100, 511] {
        assert!(rt; are_whole(&rt, short));
    }
}

/// How many calls on the packs fail if each call of the folder, in turn, fails. `None` if a call answers something else.
fn count_of_failures(rt: &HostRuntime) -> Option<usize> {
    let mut count = 0usize;
    for call in 1..60u64 {
        count = count.saturating_add(failures_by(rt, 0, call, 0)?);
    }
    Some(count)
}

/// By how many bytes calls are short, and a call of the folder that the first write makes. Before that write, two calls read three
/// blocks.
static FIRST_WRITE: [(usize, u64); 3] = [(0, 4), (100, 4), (100, 6)];

/// If a length, a write or a mark fails on the folder, it fails on the packs. If it is made again, it succeeds, even if a block was
/// written in part. No read fails: if the packs cannot read ahead, they read the block alone.
#[test]
fn each_call_fails(rt: HostRuntime) {
    for (short, call) in &FIRST_WRITE {
        assert!(rt; failures_by(&rt, *short, *call, 0) == Some(1));
    }
    assert!(rt; count_of_failures(&rt) == Some(11));
}
