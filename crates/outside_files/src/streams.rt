ghost use Rattle.std.specs.Prelude.{◌≡◌, ◌<◌, ◌≤◌, ◌++◌, IsTrue, true, false, [], is_some, take, length, IfOk, OnErr, is_err, Ok};
ghost use Rattle.std.specs.Io.KnownBytes.{ReadConsumes, WriteAppends};
ghost use Rattle.outside_traits.specs.Causes.{HasCause, Counts};
ghost use Rattle.outside_files.specs.Answers.{takes_nothing, bytes_in};

use crate::failure::{Deed, SinkNotes, SourceNotes};
use outside_traits::traits::{Sink, SinkFailed, Source, SourceFailed};
use std::alloc::Global;
use std::io;
use std::io::{ErrorKind, Read, Write};

/// A writer's answer for a piece of `size` bytes. It is an error if the writer takes no byte of a piece that is not empty.
pub(crate) fn some_taken(answer: io::Result<usize>, size: usize) -> io::Result<usize>
    ensures exact { is_err result ≡ takes_nothing answer size }
    ensures count { IfOk result (λ n. answer ≡ Ok n) }
{
    let count = answer?;
    if count == 0 && size > 0 {
        return Err(io::Error::from(ErrorKind::WriteZero));
    }
    Ok(count)
}

/// A reader of `std` as a source, which gives exactly what the reader gives. Each error of the reader counts as a fault. A
/// source that `known` makes tells what is left of the reader's bytes.
#[derive(Drop)]
pub struct StdSource<R: Read> {
    inner: R,
    is_known: bool,
    notes: SourceNotes,
    ghost known: { IsTrue is_known → IsTrue (is_some (R.remaining inner)) },
}

impl<R: Read> StdSource<R> {
    /// A source that reads from this reader and tells nothing. Its count of faults begins at 0.
    pub fn new(inner: R) -> StdSource<R>
        ensures inner { result.inner ≡ inner }
        ensures untold { result.is_known ≡ false }
        ensures faults { result.notes.failures.count ≡ 0 }
    {
        StdSource {
            inner,
            is_known: false,
            notes: SourceNotes::new(),
        }
    }

    /// A source that reads from this reader, whose bytes are known, and tells what is left of them. Its count of faults begins
    /// at 0.
    pub fn known(inner: R) -> StdSource<R>
        requires { IsTrue (is_some (R.remaining inner)) }
        ensures inner { result.inner ≡ inner }
        ensures told { result.is_known ≡ true }
        ensures faults { result.notes.failures.count ≡ 0 }
    {
        let mut made = StdSource::new(inner);
        made.is_known = true;
        made
    }

    /// From now on, the source keeps the bytes that it gives, so that a message can say why a run refused them.
    pub fn keep(&mut self, alloc: Global)
        ensures inner { self.new.inner ≡ self.old.inner }
        ensures told { self.new.is_known ≡ self.old.is_known }
        ensures failures { self.new.notes.failures ≡ self.old.notes.failures }
    {
        self.notes.kept = Some(Vec::new(alloc));
    }

    /// What the source keeps so that a message can say why a run failed.
    pub fn notes(&self) -> &SourceNotes
        ensures { result.now ≡ self.now.notes }
    {
        &self.notes
    }
}

impl<R: Read> Source for StdSource<R> {
    ghost tells = { λ s. s.is_known };

    ghost left = { λ s. bytes_in (R.remaining s.inner) };

    ghost faults = { λ s. s.notes.failures.count };

    fn read(&mut self, into: &mut [u8]) -> Result<usize, SourceFailed>
        ensures bound { IfOk result (λ n. n ≤ length into.old) }
        ensures never_again { IsTrue self.new.is_known → IsTrue self.old.is_known }
        ensures bytes { IfOk result (λ n. IsTrue self.new.is_known
            → bytes_in (R.remaining self.old.inner) ≡ take n into.new ++ bytes_in (R.remaining self.new.inner)) }
        ensures end { IfOk result (λ n. IsTrue self.new.is_known → n ≡ 0 → 0 < length into.old → bytes_in (R.remaining self.new.inner) ≡ []) }
        ensures err { OnErr result (IsTrue self.new.is_known → bytes_in (R.remaining self.new.inner) ≡ bytes_in (R.remaining self.old.inner)) }
        ensures cause { HasCause self.old.notes.failures.count self.new.notes.failures.count result }
        // The source gives what the reader gives, still tells if it told, and counts each error of the reader and nothing else.
        ensures still { self.new.is_known ≡ self.old.is_known }
        ensures counted { Counts result self.old.notes.failures.count self.new.notes.failures.count }
        ensures given { ReadConsumes (R.remaining self.old.inner) (R.remaining self.new.inner) result into.new }
    {
        let answer = self.inner.read(into);
        self.notes
            .take(into.get(..answer.unwrap_or(0)).unwrap_or(b""));
        self.notes
            .failures
            .counted(answer, Deed::Read, SourceFailed)
    }
}

/// A writer of `std` as a sink, which takes exactly what the writer takes. Each error of the writer counts as a fault, and so does
/// a call that takes no byte of a piece that is not empty. A sink that `known` makes tells what it took.
#[derive(Drop)]
pub struct StdSink<W: Write> {
    inner: W,
    is_known: bool,
    notes: SinkNotes,
    ghost known: { IsTrue is_known → IsTrue (is_some (W.contents inner)) },
}

impl<W: Write> StdSink<W> {
    /// A sink that writes to this writer and tells nothing. Its count of faults begins at 0.
    pub fn new(inner: W) -> StdSink<W>
        ensures inner { result.inner ≡ inner }
        ensures untold { result.is_known ≡ false }
        ensures faults { result.notes.failures.count ≡ 0 }
    {
        StdSink {
            inner,
            is_known: false,
            notes: SinkNotes::new(),
        }
    }

    /// A sink that writes to this writer, whose bytes are known, and tells them. Its count of faults begins at 0.
    pub fn known(inner: W) -> StdSink<W>
        requires { IsTrue (is_some (W.contents inner)) }
        ensures inner { result.inner ≡ inner }
        ensures told { result.is_known ≡ true }
        ensures faults { result.notes.failures.count ≡ 0 }
    {
        let mut made = StdSink::new(inner);
        made.is_known = true;
        made
    }

    /// What the sink keeps so that a message can say why a run failed.
    pub fn notes(&self) -> &SinkNotes
        ensures { result.now ≡ self.now.notes }
    {
        &self.notes
    }
}

impl<W: Write> Sink for StdSink<W> {
    ghost tells = { λ s. s.is_known };

    ghost taken = { λ s. bytes_in (W.contents s.inner) };

    ghost faults = { λ s. s.notes.failures.count };

    fn write(&mut self, from: &[u8]) -> Result<usize, SinkFailed>
        ensures bound { IfOk result (λ n. n ≤ length from.now) }
        ensures some { IfOk result (λ n. 0 < length from.now → 0 < n) }
        ensures never_again { IsTrue self.new.is_known → IsTrue self.old.is_known }
        ensures bytes { IfOk result (λ n. IsTrue self.new.is_known
            → bytes_in (W.contents self.new.inner) ≡ bytes_in (W.contents self.old.inner) ++ take n from.now) }
        ensures err { OnErr result (IsTrue self.new.is_known → bytes_in (W.contents self.new.inner) ≡ bytes_in (W.contents self.old.inner)) }
        ensures cause { HasCause self.old.notes.failures.count self.new.notes.failures.count result }
        // The sink takes what the writer takes, still tells if it told, and counts each failure and nothing else.
        ensures still { self.new.is_known ≡ self.old.is_known }
        ensures counted { Counts result self.old.notes.failures.count self.new.notes.failures.count }
        ensures taken { WriteAppends (W.contents self.old.inner) (W.contents self.new.inner) result from.now }
    {
        let answer = some_taken(self.inner.write(from), from.len());
        self.notes.take(from, answer.unwrap_or(0));
        self.notes.failures.counted(answer, Deed::Write, SinkFailed)
    }
}
