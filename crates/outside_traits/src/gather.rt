ghost use Rattle.std.specs.Prelude.{◌≡◌, ◌+◌, ◌≤◌, true, false, IfOk, [], ◌++◌, length, take, vec_len};
ghost use Rattle.outside_traits.specs.Puts.{Puts};
ghost use Rattle.outside_traits.specs.declared.traits.SinkFailed.{SinkFailed};
ghost use Rattle.outside_traits.specs.Gathers.{Gathers, PutsNothing, Join, Stop, PutWhole};

use crate::traits::{NoMemory, Sink, SinkFailed};
use crate::whole::write_all;
use std::alloc::Global;
use std::marker::Model;

/// How many bytes are copied for a short text, whatever its own length is.
const SHORT: usize = 64;

/// A list of `size` bytes, of which only the number is known. `NoMemory` if there is no memory for them.
fn room_of(alloc: Global, size: usize) -> Result<Vec<u8>, NoMemory>
    ensures { IfOk result (λ room. vec_len room ≡ size) }
{
    Ok(vec![in alloc; 0; size]?)
}

/// Writes bytes at a place inside.
fn put_at(room: &mut Vec<u8>, at: usize, from: &[u8])
    requires { at + length from.now ≤ vec_len room.old }
    ensures front { take (at + length from.now) room.new.items ≡ take at room.old.items ++ from.now }
    ensures len { vec_len room.new ≡ vec_len room.old }
{
    room[at..at + from.len()].copy_from_slice(from);
}

/// Writes 64 bytes at a place inside, and says where the first `len` of them end.
fn put_short_at(room: &mut Vec<u8>, at: usize, from: &[u8; SHORT], len: usize) -> usize
    requires inside { at + 64 ≤ vec_len room.old }
    requires short { len ≤ 64 }
    ensures end { result ≡ at + len }
    ensures front { take result room.new.items ≡ take at room.old.items ++ take len from.now }
    ensures len { vec_len room.new ≡ vec_len room.old }
{
    room[at..at + SHORT].copy_from_slice(from);
    at + len
}

/// The first bytes of a short text.
fn front(text: &[u8; SHORT], len: usize) -> &[u8]
    requires { len ≤ 64 }
    ensures { result.now ≡ take len text.now }
{
    &text.as_slice()[..len]
}

/// Text that is kept for a sink. Its room is reserved from the start, and the front of the room is filled. Behind the
/// room there are 64 bytes more, so that a short text can always be copied as 64 bytes.
#[derive(Drop)]
pub struct Gather {
    room: Vec<u8>,
    filled: usize,
    ghost inside: { filled + 64 ≤ vec_len room },
}

impl Model for Gather {
    ghost use Rattle.std.specs.Prelude.{ℕ, List, take};

    ghost Value = { List ℕ };

    ghost view = { λ gather. take gather.filled gather.room.items };
}

impl Gather {
    /// A writer that keeps nothing yet. It reserves room for `room` bytes of text; `NoMemory` if the room is not available.
    pub fn new(alloc: Global, room: u32) -> Result<Gather, NoMemory>
        ensures { IfOk result (λ gather. gather ≡ []) }
    {
        let room = room_of(alloc, room as usize + SHORT)?;
        Ok(Gather { room, filled: 0 })
    }

    /// Keeps a text if it fits behind what is kept, and says whether it does. If it does not fit, nothing changes.
    pub fn try_keep(&mut self, text: &[u8]) -> bool
        ensures fits { result ≡ true → self.new ≡ self.old ++ text.now }
        ensures full { result ≡ false → self.new ≡ self.old }
    {
        if text.len() > self.room.len() - SHORT - self.filled {
            return false;
        }
        put_at(&mut self.room, self.filled, text);
        self.filled += text.len();
        true
    }

    /// Keeps the first `len` of these bytes, from 0 to 64, as [`Gather::try_keep`] does. It always copies 64 bytes, which takes less time.
    pub fn try_keep_short(&mut self, text: &[u8; 64], len: usize) -> bool
        requires { len ≤ 64 }
        ensures fits { result ≡ true → self.new ≡ self.old ++ take len text.now }
        ensures full { result ≡ false → self.new ≡ self.old }
    {
        if len > self.room.len() - SHORT - self.filled {
            return false;
        }
        self.filled = put_short_at(&mut self.room, self.filled, text, len);
        true
    }

    /// Passes on what is kept. Afterwards nothing is kept, even if the sink failed.
    pub fn flush<T: Sink>(&mut self, sink: &mut T) -> Result<(), SinkFailed>
        ensures puts { Puts T.tells T.taken T.faults sink.old sink.new result self.old }
        ensures gathers { Gathers T.tells T.taken T.faults sink.old sink.new self.old self.new result [] }
        ensures empty { self.new ≡ [] }
    {
        let result = write_all(sink, &self.room[..self.filled]);
        self.filled = 0;
        result
    }

    /// Puts a text when nothing is kept: keeps it, or passes it on at once if it does not fit.
    fn put_first<T: Sink>(&mut self, text: &[u8], sink: &mut T) -> Result<(), SinkFailed>
        requires { self.old ≡ [] }
        ensures { Gathers T.tells T.taken T.faults sink.old sink.new [] self.new result text.now }
    {
        if self.try_keep(text) {
            return Ok(());
        }
        write_all(sink, text)
    }

    /// Puts a text behind what is kept. If the text does not fit there, what is kept is passed on first. If the sink
    /// fails, it has taken a front of what was kept and of the text, and nothing is kept.
    pub fn put<T: Sink>(&mut self, text: &[u8], sink: &mut T) -> Result<(), SinkFailed>
        ensures { Gathers T.tells T.taken T.faults sink.old sink.new self.old self.new result text.now }
    {
        if self.try_keep(text) {
            return Ok(());
        }
        match self.flush(sink) {
            Ok(()) => self.put_first(text, sink),
            Err(failed) => Err(failed),
        }
    }

    /// Puts the first `len` of these bytes, from 0 to 64, as [`Gather::put`] does. It always copies 64 bytes, which takes less time.
    pub fn put_short<T: Sink>(
        &mut self,
        text: &[u8; 64],
        len: usize,
        sink: &mut T,
    ) -> Result<(), SinkFailed>
        requires { len ≤ 64 }
        ensures { Gathers T.tells T.taken T.faults sink.old sink.new self.old self.new result (take len text.now) }
    {
        if self.try_keep_short(text, len) {
            return Ok(());
        }
        self.put(front(text, len), sink)
    }
}

/// The law of gathering: texts that are put one after another are one text. If nothing is kept at the beginning and at
/// the end, the texts were put to the sink itself.
pub fn gather_law<T: Sink>()
    ensures nothing { PutsNothing (Unit {0}) SinkFailed T.tells T.taken T.faults }
    ensures join { Join (Unit {0}) SinkFailed T.tells T.taken T.faults }
    ensures stop { Stop (Unit {0}) SinkFailed T.tells T.taken T.faults }
    ensures whole { PutWhole (Unit {0}) SinkFailed T.tells T.taken T.faults }
{}
