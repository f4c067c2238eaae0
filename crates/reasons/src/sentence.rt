// A sentence for standard error.
use std::fmt::{Display, Formatter};
use std::{fmt, io};

/// How many bytes of a word are shown at most.
const MOST: usize = 40;

/// What a sentence says in the place of a number in braces.
#[derive(Clone, Copy)]
pub enum Piece<'a> {
    Nothing,
    Text(&'a str),
    Number(u64),
    /// The numbers from the first one to the second one.
    Numbers(u64, u64),
    /// This many hexadecimal digits.
    Digits(usize),
    /// The first 40 bytes of a word between quotes, with `\xHH` for each byte that is not a printable ASCII character. If the word is
    /// longer, `..` follows these bytes.
    Word(&'a [u8]),
    Error(io::Error),
}

/// A sentence: the line of the script that is faulty, if there is one, and a text with its pieces. The first piece stands in the place
/// of each `{0}`, the next one in the place of each `{1}`, and so on.
#[derive(Clone, Copy)]
pub struct Sentence<'a> {
    line: Option<u64>,
    text: &'static str,
    pieces: [Piece<'a>; 6],
}

/// A piece by its place. It is empty if there is no such piece.
fn piece_at<'a>(pieces: &[Piece<'a>], at: usize) -> Piece<'a> {
    pieces.get(at).copied().unwrap_or(Piece::Nothing)
}

/// The sentence of a text and at most six pieces.
pub(crate) fn say<'a>(text: &'static str, pieces: &[Piece<'a>]) -> Sentence<'a> {
    let at = |place: usize| piece_at(pieces, place);
    let pieces: [Piece<'a>; 6] = [at(0), at(1), at(2), at(3), at(4), at(5)];
    Sentence {
        line: None,
        text,
        pieces,
    }
}

impl<'a> Sentence<'a> {
    /// The sentence about a line of the script.
    pub(crate) fn in_line(mut self, line: u64) -> Sentence<'a> {
        self.line = Some(line);
        self
    }
}

/// Puts the front of a word between quotes.
fn put_word<W: fmt::Write>(word: &[u8], f: &mut Formatter<W>) -> fmt::Result {
    f.write_str("'")?;
    for byte in word.iter().take(MOST) {
        match byte {
            33..=126 => write!(f, "{}", char::from(*byte))?,
            _ => write!(f, "\\x{byte:02x}")?,
        }
    }
    f.write_str(if word.len() > MOST { "..'" } else { "'" })
}

impl Display for Piece<'_> {
    fn fmt<W: fmt::Write>(&self, f: &mut Formatter<W>) -> fmt::Result {
        match self {
            Piece::Nothing => Ok(()),
            Piece::Text(text) => f.write_str(text),
            Piece::Number(number) => Display::fmt(number, f),
            Piece::Numbers(low, high) => write!(f, "{low} to {high}"),
            Piece::Digits(count) => write!(f, "{count} hexadecimal digits"),
            Piece::Word(word) => put_word(word, f),
            Piece::Error(error) => Display::fmt(error, f),
        }
    }
}

impl Display for Sentence<'_> {
    fn fmt<W: fmt::Write>(&self, f: &mut Formatter<W>) -> fmt::Result {
        if let Some(line) = self.line {
            write!(f, "line {line} of the script: ")?;
        }
        for part in self.text.split('{') {
            let (place, text) = part.split_once('}').unwrap_or(("", part));
            if let Ok(place) = place.parse::<usize>() {
                Display::fmt(&piece_at(&self.pieces, place), f)?;
            }
            f.write_str(text)?;
        }
        Ok(())
    }
}
