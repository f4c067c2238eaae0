ghost use Rattle.std.specs.Prelude.{◌≡◌, ◌≤◌, ◌+◌, [], IfOk, vec_len, vec_capacity, take, length, min};

use outside_traits::traits::{NoMemory, Sink, SinkFailed, Source, SourceFailed};
use std::alloc::Global;

/// A source in memory, which tells what is left. Exactly the calls whose numbers, counted from 1, are listed fail.
#[derive(Drop)]
pub struct MemSource {
    bytes: Vec<u8>,
    at: usize,
    fail: Vec<u64>,
    calls: u64,
    faults: u64,
    ghost inside: { at ≤ vec_len bytes },
}

/// Copies as many bytes as there are and as fit, and returns how many they are.
fn copy_front(from: &[u8], into: &mut [u8]) -> usize
    ensures count { result ≡ min (length from.now) (length into.old) }
    ensures front { take result into.new ≡ take result from.now }
{
    let count = from.len().min(into.len());
    into[..count].copy_from_slice(&from[..count]);
    count
}

impl MemSource {
    ghost use Rattle.mass_outside.specs.Streams.{left_of};

    /// A source of these bytes. Its calls with the listed numbers fail.
    pub fn new(bytes: Vec<u8>, fail: Vec<u64>) -> MemSource
        ensures left { left_of result ≡ bytes.items }
        ensures fail { result.fail ≡ fail }
        ensures calls { result.calls ≡ 0 }
        ensures faults { result.faults ≡ 0 }
    {
        MemSource {
            bytes,
            at: 0,
            fail,
            calls: 0,
            faults: 0,
        }
    }
}

impl Source for MemSource {
    ghost use Rattle.std.specs.Prelude.{true, ◌<◌, ◌==◌, ◌++◌, OnErr, is_err};
    ghost use Rattle.std.specs.List.{list_any};
    ghost use Rattle.outside_traits.specs.Causes.{HasCause, next};
    ghost use Rattle.mass_outside.specs.Streams.{left_of};

    ghost tells = { λ _. true };

    ghost left = { left_of };

    ghost faults = { λ s. s.faults };

    fn read(&mut self, into: &mut [u8]) -> Result<usize, SourceFailed>
        ensures bound { IfOk result (λ n. n ≤ length into.old) }
        ensures bytes { IfOk result (λ n. left_of self.old ≡ take n into.new ++ left_of self.new) }
        ensures end { IfOk result (λ n. n ≡ 0 → 0 < length into.old → left_of self.new ≡ []) }
        ensures err { OnErr result (left_of self.new ≡ left_of self.old) }
        ensures cause { HasCause self.old.faults self.new.faults result }
        // The call fails exactly if it is listed. Otherwise it gives as many bytes as there are and as fit.
        ensures counted { self.new.calls ≡ next self.old.calls }
        ensures listed { self.new.fail ≡ self.old.fail }
        ensures exact { is_err result ≡ list_any (λ n. n == self.new.calls) self.old.fail.items }
        ensures full { IfOk result (λ n. n ≡ min (length (left_of self.old)) (length into.old)) }
    {
        self.calls = self.calls.saturating_add(1);
        if self.fail.contains(&self.calls) {
            self.faults = self.faults.saturating_add(1);
            return Err(SourceFailed);
        }
        let count = copy_front(&self.bytes[self.at..], into);
        self.at += count;
        Ok(count)
    }
}

/// A sink in memory, which tells what it took. The calls whose numbers, counted from 1, are listed fail, and so do those
/// whose bytes do not fit in its room.
#[derive(Drop)]
pub struct MemSink {
    bytes: Vec<u8>,
    room: usize,
    fail: Vec<u64>,
    calls: u64,
    faults: u64,
    ghost inside: { vec_len bytes ≤ room },
    ghost reserved: { room ≤ vec_capacity bytes },
}

impl MemSink {
    ghost use Rattle.mass_outside.specs.Streams.{taken_of};

    /// A sink that reserves room for `room` bytes. Its calls with the listed numbers fail. `NoMemory` if the room is not available.
    pub fn new(alloc: Global, room: usize, fail: Vec<u64>) -> Result<MemSink, NoMemory>
        ensures taken { IfOk result (λ sink. taken_of sink ≡ []) }
        ensures room { IfOk result (λ sink. sink.room ≡ room) }
        ensures fail { IfOk result (λ sink. sink.fail ≡ fail) }
        ensures calls { IfOk result (λ sink. sink.calls ≡ 0) }
        ensures faults { IfOk result (λ sink. sink.faults ≡ 0) }
    {
        let bytes = Vec::with_capacity(alloc, room)?;
        Ok(MemSink {
            bytes,
            room,
            fail,
            calls: 0,
            faults: 0,
        })
    }

    /// The bytes that the sink took.
    pub fn taken(&self) -> &[u8]
        ensures { result.now ≡ taken_of self.now }
    {
        self.bytes.as_slice()
    }
}

impl Sink for MemSink {
    ghost use Rattle.std.specs.Prelude.{true, ◌<◌, ◌==◌, ◌||◌, ◌++◌, OnErr, is_err, nat_lt};
    ghost use Rattle.std.specs.List.{list_any};
    ghost use Rattle.outside_traits.specs.Causes.{HasCause, next};
    ghost use Rattle.mass_outside.specs.Streams.{taken_of};

    ghost tells = { λ _. true };

    ghost taken = { taken_of };

    ghost faults = { λ s. s.faults };

    fn write(&mut self, from: &[u8]) -> Result<usize, SinkFailed>
        ensures bound { IfOk result (λ n. n ≤ length from.now) }
        ensures some { IfOk result (λ n. 0 < length from.now → 0 < n) }
        ensures bytes { IfOk result (λ n. taken_of self.new ≡ taken_of self.old ++ take n from.now) }
        ensures err { OnErr result (taken_of self.new ≡ taken_of self.old) }
        ensures cause { HasCause self.old.faults self.new.faults result }
        // The call fails exactly if it is listed or its bytes do not fit. Otherwise it takes all of them.
        ensures counted { self.new.calls ≡ next self.old.calls }
        ensures listed { self.new.fail ≡ self.old.fail }
        ensures room { self.new.room ≡ self.old.room }
        ensures exact { is_err result ≡ (list_any (λ n. n == self.new.calls) self.old.fail.items || nat_lt self.old.room (length (taken_of self.old) + length from.now)) }
        ensures whole { IfOk result (λ n. n ≡ length from.now) }
    {
        self.calls = self.calls.saturating_add(1);
        if self.fail.contains(&self.calls) || from.len() > self.room - self.bytes.len() {
            self.faults = self.faults.saturating_add(1);
            return Err(SinkFailed);
        }
        // The room is reserved, so this cannot fail.
        let _ = self.bytes.extend_from_slice(from);
        Ok(from.len())
    }
}

/// A source in memory that tells what is left and never fails.
#[derive(Drop)]
pub struct SureSource {
    bytes: Vec<u8>,
    at: usize,
    ghost inside: { at ≤ vec_len bytes },
}

impl SureSource {
    ghost use Rattle.mass_outside.specs.Streams.{sure_left};

    /// A source of these bytes.
    pub fn new(bytes: Vec<u8>) -> SureSource
        ensures { sure_left result ≡ bytes.items }
    {
        SureSource { bytes, at: 0 }
    }
}

impl Source for SureSource {
    ghost use Rattle.std.specs.Prelude.{true, ◌<◌, ◌++◌, IsOk, OnErr};
    ghost use Rattle.outside_traits.specs.Causes.{HasCause};
    ghost use Rattle.mass_outside.specs.Streams.{sure_left};

    ghost tells = { λ _. true };

    ghost left = { sure_left };

    ghost faults = { λ _. 0 };

    fn read(&mut self, into: &mut [u8]) -> Result<usize, SourceFailed>
        ensures bound { IfOk result (λ n. n ≤ length into.old) }
        ensures bytes { IfOk result (λ n. sure_left self.old ≡ take n into.new ++ sure_left self.new) }
        ensures end { IfOk result (λ n. n ≡ 0 → 0 < length into.old → sure_left self.new ≡ []) }
        ensures err { OnErr result (sure_left self.new ≡ sure_left self.old) }
        ensures cause { HasCause 0 0 result }
        ensures sure { IsOk result }
        ensures full { IfOk result (λ n. n ≡ min (length (sure_left self.old)) (length into.old)) }
    {
        let count = copy_front(&self.bytes[self.at..], into);
        self.at += count;
        Ok(count)
    }
}

/// A sink that keeps nothing, tells nothing and never fails.
#[derive(Drop)]
pub struct SureSink;

impl SureSink {
    ghost use Rattle.mass_outside.specs.Streams.{none_kept};

    /// A sink that has taken nothing.
    pub fn new() -> SureSink
        ensures { none_kept result ≡ [] }
    {
        SureSink
    }
}

impl Sink for SureSink {
    ghost use Rattle.std.specs.Prelude.{false, ◌<◌, ◌++◌, IsTrue, IsOk, OnErr};
    ghost use Rattle.outside_traits.specs.Causes.{HasCause};
    ghost use Rattle.mass_outside.specs.Streams.{none_kept};

    ghost tells = { λ _. false };

    ghost taken = { none_kept };

    ghost faults = { λ _. 0 };

    fn write(&mut self, from: &[u8]) -> Result<usize, SinkFailed>
        ensures bound { IfOk result (λ n. n ≤ length from.now) }
        ensures some { IfOk result (λ n. 0 < length from.now → 0 < n) }
        ensures bytes { IfOk result (λ n. IsTrue false → none_kept self.new ≡ none_kept self.old ++ take n from.now) }
        ensures err { OnErr result (IsTrue false → none_kept self.new ≡ none_kept self.old) }
        ensures cause { HasCause 0 0 result }
        ensures sure { IsOk result }
    {
        Ok(from.len())
    }
}
