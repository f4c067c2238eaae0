ghost use Rattle.std.specs.Prelude.{◌≡◌, ℕ, ◌<◌, ◌≤◌, ◌++◌, length, take, IfOk};
ghost use Rattle.outside_traits.specs.Causes.{HasCause, Counts};
ghost use Rattle.outside_files.specs.Answers.{TakesOn};

use crate::failure::{Deed, Failures};
use crate::streams::some_taken;
use outside_traits::traits::{Sink, SinkFailed};
use std::io;
use std::io::{ErrorKind, Write};
use std::rt::Files;

/// A file as a sink. The first write makes the file anew. The sink does not tell what it took. Each error counts as a fault, and so
/// does a call that takes no byte of a piece that is not empty.
#[derive(Drop)]
pub struct FileSink<'a, R: Files> {
    rt: R,
    name: &'a str,
    file: Option<R::File>,
    failures: Failures<Deed>,
}

impl<'a, R: Files> FileSink<'a, R> {
    /// A sink that writes to the file of this name. This call opens nothing, and the count of faults begins at 0.
    pub fn new(rt: R, name: &'a str) -> FileSink<'a, R>
        ensures file { result.name.now ≡ name.now }
        ensures faults { result.failures.count ≡ 0 }
    {
        FileSink {
            rt,
            name,
            file: None,
            failures: Failures::new(),
        }
    }

    /// What the first failed call tried, to make the file or to write to it, and its error.
    pub fn first_failure(&self) -> Option<(Deed, io::Error)>
        ensures { result ≡ self.now.failures.first }
    {
        self.failures.first
    }

    fn try_write(&mut self, from: &[u8]) -> io::Result<usize>
        ensures bound { IfOk result (λ n. n ≤ length from.now) }
        ensures name { self.new.name.now ≡ self.old.name.now }
        ensures failures { self.new.failures ≡ self.old.failures }
        ensures on { TakesOn R.File.contents self.old.file self.new.file result from.now }
    {
        if self.file.is_none() {
            self.file = Some(std::fs::create(&self.rt, self.name)?);
        }
        match &mut self.file {
            Some(file) => file.write(from),
            None => Err(io::Error::from(ErrorKind::NotFound)),
        }
    }
}

impl<'a, R: Files> Sink for FileSink<'a, R> {
    ghost use Rattle.std.specs.Prelude.{false, List, [], IsTrue, OnErr};

    ghost tells = { λ _. false };

    ghost taken = { λ _. [] };

    ghost faults = { λ s. s.failures.count };

    fn write(&mut self, from: &[u8]) -> Result<usize, SinkFailed>
        ensures bound { IfOk result (λ n. n ≤ length from.now) }
        ensures some { IfOk result (λ n. 0 < length from.now → 0 < n) }
        ensures bytes { IfOk result (λ n. IsTrue false → ◌≡◌ {A = List ℕ} [] ([] ++ take n from.now)) }
        ensures err { OnErr result (IsTrue false → ◌≡◌ {A = List ℕ} [] []) }
        ensures cause { HasCause self.old.failures.count self.new.failures.count result }
        // The sink counts each failure and nothing else, and keeps the name of its file.
        ensures counted { Counts result self.old.failures.count self.new.failures.count }
        ensures name { self.new.name.now ≡ self.old.name.now }
        // If the file was open, the sink takes what the file takes.
        ensures on { TakesOn R.File.contents self.old.file self.new.file result from.now }
    {
        let answer = some_taken(self.try_write(from), from.len());
        let deed = if self.file.is_some() {
            Deed::Write
        } else {
            Deed::Make
        };
        self.failures.counted(answer, deed, SinkFailed)
    }
}
