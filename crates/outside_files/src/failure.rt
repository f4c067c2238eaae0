// What a file or a stream keeps so that a message can say why a run failed.
ghost use Rattle.std.specs.Prelude.{◌≡◌, ◌+◌, ◌-◌, ◌^◌, [], None, min, take, OnOk, OnErr};
ghost use Rattle.outside_traits.specs.Causes.{HasCause, HandsOn, next};
ghost use Rattle.outside_files.specs.Notes.{first_failure, last_front};

use crate::folder::Part;
use std::io;

/// What was tried with a file.
#[derive(Clone, Copy, Debug, PartialEq, Eq)]
pub enum Deed {
    /// Open the file for reading.
    Open,
    /// Make the file, or open it for writing.
    Make,
    /// Read bytes of the file.
    Read,
    /// Write bytes to the file.
    Write,
    /// Get the length of the file.
    Measure,
}

/// A call on a unit's file: what it tried, and on which file.
#[derive(Clone, Copy)]
pub struct FileCall {
    pub deed: Deed,
    pub unit: u8,
    pub part: Part,
}

/// How many calls failed, and what the first of them tried, with its error.
#[derive(Clone, Copy)]
pub struct Failures<W> {
    pub count: u64,
    pub first: Option<(W, io::Error)>,
}

impl<W: Copy> Failures<W> {
    /// No call has failed.
    pub fn new() -> Failures<W>
        ensures { result ≡ record { count = 0; first = None } }
    {
        Failures {
            count: 0,
            first: None,
        }
    }

    /// Hands on what a call of `std` answered, with `failed` in place of its error. An error is counted, and it is kept with what the
    /// call tried, unless an earlier call failed.
    pub fn counted<T, E: Drop>(
        &mut self,
        answer: io::Result<T>,
        tried: W,
        failed: E,
    ) -> Result<T, E>
        ensures answer { HandsOn answer failed result self.old.count self.new.count }
        ensures cause { HasCause self.old.count self.new.count result }
        ensures first { self.new.first ≡ first_failure self.old.first tried answer }
    {
        match answer {
            Ok(value) => Ok(value),
            Err(error) => {
                self.count = self.count.saturating_add(1);
                if self.first.is_none() {
                    self.first = Some((tried, error));
                }
                Err(failed)
            }
        }
    }
}

/// What packs in files keep: the calls that failed, how many blocks were written, and the last block that was written.
#[derive(Clone, Copy)]
pub struct PackNotes {
    pub failures: Failures<FileCall>,
    pub written: u64,
    pub last: u32,
}

/// What a source keeps: the calls of its reader that failed, and how many bytes the source gave. It also keeps these bytes if it is
/// asked to.
#[derive(Drop)]
pub struct SourceNotes {
    pub failures: Failures<Deed>,
    pub given: u64,
    pub kept: Option<Vec<u8>>,
}

/// How many bytes of a piece a sink keeps.
const FRONT: usize = 64;

/// What a sink keeps: the calls of its writer that failed, how many bytes it took, and the front of the last piece that it was given.
#[derive(Clone, Copy)]
pub struct SinkNotes {
    pub failures: Failures<Deed>,
    pub taken: u64,
    front: [u8; 64],
    length: usize,
}

impl PackNotes {
    /// The notes of packs on which nothing was written and nothing failed.
    pub fn new() -> PackNotes
        ensures { result ≡ record { failures = record { count = 0; first = None }; written = 0; last = 0 } }
    {
        PackNotes {
            failures: Failures::new(),
            written: 0,
            last: 0,
        }
    }

    /// Counts a block that was written.
    pub(crate) fn count(&mut self, answer: &io::Result<()>, block: u32)
        ensures failures { self.new.failures ≡ self.old.failures }
        ensures written { OnOk answer.now (self.new.written ≡ next self.old.written) }
        ensures last { OnOk answer.now (self.new.last ≡ block) }
        ensures failed { OnErr answer.now (self.new ≡ self.old) }
    {
        if answer.is_ok() {
            self.written = self.written.saturating_add(1);
            self.last = block;
        }
    }
}

impl SourceNotes {
    pub(crate) fn new() -> SourceNotes
        ensures { result ≡ record { failures = record { count = 0; first = None }; given = 0; kept = None } }
    {
        SourceNotes {
            failures: Failures::new(),
            given: 0,
            kept: None,
        }
    }

    /// Notes bytes that the source gave. If there is no memory for them, the source keeps no bytes.
    pub(crate) fn take(&mut self, bytes: &[u8])
        ensures failures { self.new.failures ≡ self.old.failures }
    {
        self.given = self.given.saturating_add(bytes.len() as u64);
        let is_full = match &mut self.kept {
            Some(kept) => kept.extend_from_slice(bytes).is_err(),
            None => false,
        };
        if is_full {
            self.kept = None;
        }
    }
}

impl SinkNotes {
    pub(crate) fn new() -> SinkNotes
        ensures count { result.failures.count ≡ 0 }
        ensures first { result.failures.first ≡ None }
        ensures taken { result.taken ≡ 0 }
        ensures piece { last_front result ≡ [] }
    {
        SinkNotes {
            failures: Failures::new(),
            taken: 0,
            front: [0; 64],
            length: 0,
        }
    }

    /// Notes a piece that the sink was given, and how many bytes of it the sink took.
    pub(crate) fn take(&mut self, from: &[u8], taken: usize)
        ensures failures { self.new.failures ≡ self.old.failures }
        ensures taken { self.new.taken ≡ min (self.old.taken + taken) (2 ^ 64 - 1) }
        ensures piece { last_front self.new ≡ take 64 from.now }
    {
        self.taken = self.taken.saturating_add(taken as u64);
        let length = from.len().min(FRONT);
        self.front[..length].copy_from_slice(&from[..length]);
        self.length = length;
    }

    /// The front of the last piece, at most 64 bytes.
    pub fn last_piece(&self) -> &[u8]
        ensures { result.now ≡ last_front self.now }
    {
        &self.front[..self.length.min(FRONT)]
    }
}
