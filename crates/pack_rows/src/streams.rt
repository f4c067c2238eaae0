// Tests of sources and sinks over the readers and writers of `std`.
use outside_files::streams::{StdSink, StdSource};
use outside_traits::traits::Source;
use outside_traits::whole::write_all;
use std::io::{ErrorKind, Read, Write};
use std::{fs, io};

/// A reader of which one call fails. Calls are counted from 1.
#[derive(Drop)]
struct FailingReader<'a> {
    rest: &'a [u8],
    calls: u8,
    fail: u8,
}

impl<'a> Read for FailingReader<'a> {
    fn read(&mut self, into: &mut [u8]) -> io::Result<usize> {
        self.calls = self.calls.saturating_add(1);
        if self.calls == self.fail {
            return Err(io::Error::from(ErrorKind::InvalidData));
        }
        self.rest.read(into)
    }
}

/// A writer that takes a few bytes with each call, and of which one call fails.
#[derive(Drop)]
struct ShortWriter<'a> {
    taken: &'a mut Vec<u8>,
    most: usize,
    calls: u8,
    fail: u8,
}

impl<'a> Write for ShortWriter<'a> {
    fn write(&mut self, from: &[u8]) -> io::Result<usize> {
        self.calls = self.calls.saturating_add(1);
        if self.calls == self.fail {
            return Err(io::Error::from(ErrorKind::InvalidData));
        }
        let count = from.len().min(self.most);
        self.taken.extend_from_slice(&from[..count])?;
        Ok(count)
    }

    fn flush(&mut self) -> io::Result<()> {
        Ok(())
    }
}

/// Which call of a source of three bytes fails, and how many bytes each piece of at most two bytes gives. 9 means a failure.
static PIECES: [(u8, [usize; 3]); 4] = [
    (1, [9, 2, 1]),
    (2, [2, 9, 1]),
    (3, [2, 1, 9]),
    (4, [2, 1, 0]),
];

/// How many bytes each of three pieces gives if this call fails.
fn pieces(fail: u8) -> [usize; 3] {
    let mut source = StdSource::new(FailingReader {
        rest: b"abc",
        calls: 0,
        fail,
    });
    let mut counts = [9usize; 3];
    let mut piece = [0u8; 2];
    for count in counts.iter_mut() {
        *count = source.read(&mut piece).unwrap_or(9);
    }
    counts
}

/// How many bytes a writer takes with each call, which call fails, whether the writer takes all bytes, and what it takes.
type Taken = (usize, u8, bool, &'static [u8]);

static TAKEN: [Taken; 5] = [
    (2, 9, true, b"abcde"),
    (9, 9, true, b"abcde"),
    (2, 2, false, b"ab"),
    (3, 1, false, b""),
    (0, 9, false, b""),
];

/// Whether such a writer takes what its row says.
fn writes(taken: &mut Vec<u8>, row: &Taken) -> bool {
    let (most, fail, done, text) = *row;
    let mut sink = StdSink::new(ShortWriter {
        taken,
        most,
        calls: 0,
        fail,
    });
    let all = write_all(&mut sink, b"abcde").is_ok();
    all == done && taken.as_slice() == text
}

#[test]
fn streams_of_std(rt: HostRuntime) {
    for (fail, counts) in &PIECES {
        assert!(rt; pieces(*fail) == *counts);
    }
    for row in &TAKEN {
        assert!(rt; writes(&mut Vec::new(rt.alloc()), row));
    }
}
