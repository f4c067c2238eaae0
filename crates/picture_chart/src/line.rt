//! A line of a chart.

ghost use Rattle.std.specs.Prelude.{◌≡◌, ◌↔◌, ◌∷◌, [], ◌++◌, true, decimal, All, IsTrue, IfOk, OnOk};
ghost use Rattle.picture_chart.specs.Charts.{is_plain, plain_of, front, goes_on, ended, with_text, fitted, blanks, at_left, at_right, line_of, text_of, IsChartLine, IsChart};

use arrayvec::ArrayVec;
use itoa::Buffer;
use std::alloc::{AllocError, Global};
use std::marker::Model;

/// What putting something comes to. It fails only if there is no memory.
pub(crate) type Done = Result<(), AllocError>;

/// How many characters a line has at most.
pub const WIDEST: usize = 100;

/// A line of a chart: at most 100 printing characters.
#[derive(Drop)]
pub struct ChartLine {
    text: ArrayVec<u8, WIDEST>,
}

impl Model for ChartLine {
    ghost use Rattle.std.specs.Prelude.{ℕ, List};
    ghost use Rattle.picture_chart.specs.Charts.{IsChartLine};

    ghost Value = { List ℕ };

    ghost view = { λ line. line.text.items };

    ghost invariant = { λ line. IsChartLine line.text.items };
}

/// A byte as it is printed; a byte that does not print becomes a question mark.
fn plain(byte: u8) -> u8
    ensures value { result ≡ plain_of byte }
    ensures plain { is_plain result ≡ true }
{
    match byte {
        b' '..=b'~' => byte,
        _ => b'?',
    }
}

/// Whether a byte goes on in a letter beyond ASCII, as UTF-8 spells it.
fn goes_on(byte: u8) -> bool
    ensures { result ≡ goes_on byte }
{
    byte >= 128 && byte <= 191
}

/// A text, if it fits into `width` characters, and otherwise a plus.
fn fitting(text: &[u8], width: usize) -> &[u8]
    ensures { result.now ≡ fitted width text.now }
{
    if text.len() <= width { text } else { b"+" }
}

impl ChartLine {
    /// An empty line.
    pub fn new() -> ChartLine
        ensures { result ≡ [] }
    {
        ChartLine {
            text: ArrayVec::new(),
        }
    }

    /// Puts a byte as it is printed, if there is room.
    fn put_plain(&mut self, byte: u8)
        ensures { self.new ≡ front (self.old ++ plain_of byte ∷ []) }
    {
        if self.text.len() < WIDEST {
            self.text.push(plain(byte));
        }
    }

    /// Puts a byte, if there is room. A letter beyond ASCII becomes one question mark.
    pub fn put_byte(&mut self, byte: u8)
        ensures { self.new ≡ with_text self.old (byte ∷ []) }
    {
        let _ = &self.text;
        if goes_on(byte) {
            return;
        }
        self.put_plain(byte);
    }

    /// Puts the front of some bytes, as far as there is room.
    pub fn put(&mut self, bytes: &[u8])
        ensures { self.new ≡ with_text self.old bytes.now }
    {
        let _ = &self.text;
        for byte in bytes.iter() {
            self.put_byte(*byte);
        }
    }

    /// Puts a number.
    pub fn put_number(&mut self, number: u64)
        ensures { self.new ≡ with_text self.old (decimal number) }
    {
        let mut buffer = Buffer::new();
        self.put(buffer.format(number).as_bytes());
    }

    /// Puts blanks.
    fn put_blanks(&mut self, count: usize)
        ensures { self.new ≡ with_text self.old (blanks count) }
    {
        let _ = &self.text;
        for _ in 0..count {
            self.put_byte(b' ');
        }
    }

    /// Puts a text at the left of `width` characters; a plus if it does not fit.
    pub fn put_left(&mut self, text: &[u8], width: usize)
        ensures { self.new ≡ with_text self.old (at_left width text.now) }
    {
        let text = fitting(text, width);
        self.put(text);
        self.put_blanks(width.saturating_sub(text.len()));
    }

    /// Puts a text at the right of `width` characters; a plus if it does not fit.
    pub fn put_right(&mut self, text: &[u8], width: usize)
        ensures { self.new ≡ with_text self.old (at_right width text.now) }
    {
        let text = fitting(text, width);
        self.put_blanks(width.saturating_sub(text.len()));
        self.put(text);
    }

    /// Puts a number at the right of `width` characters, after a blank.
    pub(crate) fn put_count(&mut self, number: u64, width: usize)
        ensures { self.new ≡ with_text self.old (32 ∷ at_right width (decimal number)) }
    {
        let mut buffer = Buffer::new();
        self.put_byte(b' ');
        self.put_right(buffer.format(number).as_bytes(), width);
    }

    /// Whether it has nothing except blanks.
    pub(crate) fn is_blank(&self) -> bool
        ensures { IsTrue result ↔ All (λ byte. byte ≡ 32) self.now }
    {
        self.text.iter().all(|byte| *byte == b' ')
    }

    /// Its characters.
    pub fn as_bytes(&self) -> &[u8]
        ensures text { result.now ≡ self.now }
        ensures line { IsChartLine self.now }
    {
        self.text.as_slice()
    }
}

/// A line of a text.
pub(crate) fn line_of(text: &[u8]) -> ChartLine
    ensures { result ≡ line_of (text.now ∷ []) }
{
    let mut line = ChartLine::new();
    line.put(text);
    line
}

/// A line of a text and a number.
pub(crate) fn line_with(text: &[u8], number: u64) -> ChartLine
    ensures { result ≡ line_of (text.now ∷ decimal number ∷ []) }
{
    let mut line = line_of(text);
    line.put_number(number);
    line
}

/// Puts a line, and its end.
fn put_ended(text: &mut Vec<u8>, line: &ChartLine) -> Done
    ensures text { OnOk result (text.new.items ≡ text.old.items ++ ended line.now) }
    ensures line { IsChartLine line.now }
{
    let bytes = line.as_bytes();
    text.extend_from_slice(bytes)?;
    text.push(b'\n')?;
    Ok(())
}

/// The text of lines, each ended.
pub fn text_of(alloc: Global, lines: &[ChartLine]) -> Result<Vec<u8>, AllocError>
    ensures text { IfOk result (λ text. text.items ≡ text_of lines.now) }
    ensures chart { IfOk result (λ text. IsChart text.items) }
{
    let mut text = Vec::new(alloc);
    for line in lines.iter() {
        put_ended(&mut text, line)?;
    }
    Ok(text)
}
