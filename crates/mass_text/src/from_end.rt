ghost use Rattle.std.specs.Prelude.{◌≡◌, ◌≤◌, ◌+◌, [], ◌∷◌, ◌++◌, length, take, decimal};

use crate::ends::{put_byte, put_digits, put_piece};
use std::marker::Model;

/// A text of at most `END` bytes that is put together from its end: each piece goes in front of what is there. The text
/// ends at place `END` of a room of `ROOM` bytes, which has 64 more bytes behind that place, so that 64 bytes can always be
/// read from the start of the text.
#[derive(Drop)]
pub struct FrontLine<const ROOM: usize, const END: usize> {
    bytes: [u8; ROOM],
    start: usize,
}

impl<const ROOM: usize, const END: usize> Model for FrontLine<ROOM, END> {
    ghost use Rattle.std.specs.Prelude.{ℕ, List, ◌≤◌, ◌+◌, ◌-◌, take, drop};

    ghost Value = { List ℕ };

    ghost view = { λ line. take (END - line.start) (drop line.start line.bytes) };

    ghost invariant = { λ line. (line.start ≤ END) × (END + 64 ≤ ROOM) };
}

impl<const ROOM: usize, const END: usize> FrontLine<ROOM, END> {
    /// An empty text.
    pub fn new() -> FrontLine<ROOM, END>
        requires room { END + 64 ≤ ROOM }
        ensures { result ≡ [] }
    {
        FrontLine {
            bytes: [0; ROOM],
            start: END,
        }
    }

    /// Empties the text.
    pub fn clear(&mut self)
        ensures { self.new ≡ [] }
    {
        self.start = END;
    }

    /// Puts a piece in front of the text. The piece must fit.
    pub fn put_piece(&mut self, piece: &[u8])
        requires { length piece.now + length self.old ≤ END }
        ensures { self.new ≡ piece.now ++ self.old }
    {
        self.start = put_piece(&mut self.bytes, self.start, piece);
    }

    /// Puts a byte in front of the text. The byte must fit.
    pub fn put_byte(&mut self, byte: u8)
        requires { 1 + length self.old ≤ END }
        ensures { self.new ≡ byte ∷ self.old }
    {
        self.start = put_byte(&mut self.bytes, self.start, byte);
    }

    /// Puts the decimal digits of a number in front of the text. The digits must fit.
    pub fn put_digits(&mut self, value: u64)
        requires { length (decimal value) + length self.old ≤ END }
        ensures { self.new ≡ decimal value ++ self.old }
    {
        self.start = put_digits(&mut self.bytes, self.start, value);
    }

    /// How many bytes the text has, at most `END`.
    pub fn len(&self) -> usize
        ensures len { result ≡ length self.now }
        ensures few { result ≤ END }
    {
        END - self.start
    }

    /// 64 bytes, which begin with the text, if `END` is at most 64.
    pub fn front(&self) -> &[u8; 64]
        requires { END ≤ 64 }
        ensures { take (length self.now) result.now ≡ self.now }
    {
        let bytes = &self.bytes[..];
        match bytes[self.start..].first_chunk::<64>() {
            Some(front) => front,
            None => unreachable!(),
        }
    }

    /// The text.
    pub fn as_bytes(&self) -> &[u8]
        ensures { result.now ≡ self.now }
    {
        let bytes = &self.bytes[..];
        &bytes[self.start..END]
    }
}
