// The fields of commands and of lines, and the first one that contains something that it may not contain.
use crate::sentence::Piece::{Digits, Numbers, Text, Word};
use crate::sentence::{Piece, Sentence, say};
use crate::words::is;
use mass_text::{Radix, number};

/// A field: its name, as the usage and `docs/formats.md` give it, and what it may contain: numbers, one of some words, which commas
/// separate, or digits.
#[derive(Clone, Copy)]
pub struct Field(pub &'static str, pub Piece<'static>);

pub const UNIT: Field = Field("U", Numbers(0, 31));

pub const KIND: Field = Field("KIND", Text("rp06, rm03, rm05"));

pub const PART: Field = Field("PART", Text("a, b, c, d, e, f, g, h"));

pub const BYTE: Field = Field("HH", Digits(2));

/// Whether a field may contain this word.
fn may_contain(field: Field, word: &[u8]) -> bool {
    match field.1 {
        Numbers(low, high) => number(word, Radix::Decimal, high).is_ok_and(|value| value >= low),
        Text(words) => words.split(", ").any(|one| one.as_bytes() == word),
        Digits(count) => word.len() == count && word.iter().all(|byte| byte.is_ascii_hexdigit()),
        _ => false,
    }
}

/// The words that follow these fields. An error says what is wrong with the first faulty field.
pub fn walk<'a, 'b>(
    words: &'b [&'a [u8]],
    fields: &[Field],
) -> Result<&'b [&'a [u8]], Sentence<'a>> {
    let mut rest = words;
    for field in fields {
        let Field(name, allowed) = *field;
        match rest {
            [] => return Err(say("{0} is missing ({1})", &[Text(name), allowed])),
            [word, more @ ..] if may_contain(*field, word) => rest = more,
            [word, ..] => {
                let pieces = [Word(word), Text(name), allowed];
                return Err(say("{0} is not a valid {1} ({2})", &pieces));
            }
        }
    }
    Ok(rest)
}

/// The words that follow an optional word and its fields. If the words do not begin with the optional word, all of them.
pub fn optional<'a, 'b>(
    words: &'b [&'a [u8]],
    name: &str,
    fields: &[Field],
) -> Result<&'b [&'a [u8]], Sentence<'a>> {
    match words {
        [word, rest @ ..] if is(word, name) => walk(rest, fields),
        _ => Ok(words),
    }
}

/// An error if a word is left: this text, unless the word begins a comment.
pub fn end<'a>(words: &[&'a [u8]], text: &'static str) -> Result<(), Sentence<'a>> {
    let comment = "{0} cannot stand there: a comment is a line of its own that begins with #";
    match words {
        [] => Ok(()),
        [word, ..] if word.starts_with(b"#") => Err(say(comment, &[Word(word)])),
        [word, ..] => Err(say(text, &[Word(word)])),
    }
}

/// An error unless the words are exactly these fields.
pub fn only<'a>(words: &[&'a [u8]], fields: &[Field]) -> Result<(), Sentence<'a>> {
    end(walk(words, fields)?, "{0} is one word too many")
}
