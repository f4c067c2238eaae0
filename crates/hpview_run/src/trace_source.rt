ghost use Rattle.std.specs.Prelude.{◌≡◌, ◌≤◌, ◌++◌, ℕ, List, [], IsTrue, false, take, length, None, Err, IsSome, IfOk, IfErr, OnErr, OnOk};
ghost use Rattle.std.specs.Io.KnownBytes.{ReadConsumes};
ghost use Rattle.outside_files.specs.Notes.{first_failure};
ghost use Rattle.outside_traits.specs.Causes.{HandsOn, HasCause};

use outside_files::failure::{Deed, Failures};
use outside_traits::traits::{Source, SourceFailed};
use std::io;
use std::io::Read;

/// The file of the trace as a source. If the file could not be opened, each call fails. The source does not tell what is left of the
/// file, and it keeps the first error.
#[derive(Drop)]
pub(crate) struct TraceSource<R: Read> {
    file: io::Result<R>,
    failures: Failures<Deed>,
}

impl<R: Read + Drop> TraceSource<R> {
    /// A source that reads from this file. No call has failed.
    pub(crate) fn new(file: io::Result<R>) -> TraceSource<R>
        ensures file { result.file ≡ file }
        ensures count { result.failures.count ≡ 0 }
        ensures first { result.failures.first ≡ None }
    {
        TraceSource {
            file,
            failures: Failures::new(),
        }
    }

    /// The first call that failed, with its error.
    pub(crate) fn first_failure(&self) -> Option<(Deed, io::Error)>
        ensures { result ≡ self.now.failures.first }
    {
        self.failures.first
    }

    /// Reads the next bytes of the file. If the file could not be opened, the error is that of the opening.
    fn give(&mut self, into: &mut [u8]) -> io::Result<usize>
        ensures bound { IfOk result (λ n. n ≤ length into.old) }
        ensures bytes { IfOk self.old.file (λ old. IfOk self.new.file (λ new. ReadConsumes (R.remaining old) (R.remaining new) result into.new)) }
        ensures unopened { IfErr self.old.file (λ error. result ≡ Err error) }
        ensures failures { self.new.failures ≡ self.old.failures }
    {
        match &mut self.file {
            Ok(file) => file.read(into),
            Err(error) => Err(*error),
        }
    }
}

impl<R: Read + Drop> Source for TraceSource<R> {
    ghost tells = { λ _. false };

    ghost left = { λ _. [] };

    ghost faults = { λ s. s.failures.count };

    fn read(&mut self, into: &mut [u8]) -> Result<usize, SourceFailed>
        ensures bound { IfOk result (λ n. n ≤ length into.old) }
        ensures bytes { IfOk result (λ n. IsTrue false → ◌≡◌ {A = List ℕ} [] (take n into.new ++ [])) }
        ensures err { OnErr result (IsTrue false → ◌≡◌ {A = List ℕ} [] []) }
        ensures cause { HasCause self.old.failures.count self.new.failures.count result }
        // The source gives the bytes of the file in their order. An error is kept unless an earlier one is.
        ensures given { IfOk self.old.file (λ old. IfOk self.new.file (λ new. ReadConsumes (R.remaining old) (R.remaining new) result into.new)) }
        ensures kept { IsSome self.old.failures.first → self.new.failures.first ≡ self.old.failures.first }
        ensures served { OnOk result (self.new.failures.first ≡ self.old.failures.first) }
        ensures noted { OnErr result (IsSome self.new.failures.first) }
    {
        let answer = self.give(into);
        self.failures.counted(answer, Deed::Read, SourceFailed)
    }
}
