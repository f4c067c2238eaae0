// The words of a command line, and which of them is wrong.
use crate::fields::{Field, KIND, PART, UNIT, only, optional, walk};
use crate::sentence::Piece::{Numbers, Text, Word};
use crate::sentence::{Sentence, say};
use mass_text::{Radix, number};
use pack_geometry::{DriveKind, blocks, kind_of};
use std::alloc::{AllocError, Global};

const COMMAND: Field = Field(
    "COMMAND",
    Text("play, cached, bad144, format, raw, dump, exercise, help"),
);

const TOOL: Field = Field("word after bad144", Text("list, add, fresh, mark"));

const WAY: Field = Field("word after raw", Text("read, write"));

const SERIAL: Field = Field("SERIAL", Numbers(0, 4_294_967_295));

const PLACE: Field = Field("AT", Numbers(0, 1_099_511_627_775));

const LENGTH: Field = Field("LEN", Numbers(0, 16_777_216));

/// The words of a command line as bytes. An error if there is no memory for the list.
pub fn bytes_of<'a>(alloc: Global, words: &'a [String]) -> Result<Vec<&'a [u8]>, AllocError> {
    let mut all = Vec::new(alloc);
    for word in words {
        all.push(word.as_bytes())?;
    }
    Ok(all)
}

/// Whether a word is this text.
pub(crate) fn is(word: &[u8], text: &str) -> bool {
    word == text.as_bytes()
}

/// A word by its place. It is empty if there is no such word.
pub(crate) fn word<'a>(words: &[&'a [u8]], at: usize) -> &'a [u8] {
    words.get(at).copied().unwrap_or(b"")
}

/// The text that a table has for a word. Each line of the table is a word, a colon and its text. None if the table does not have the
/// word.
pub(crate) fn text_of(table: &'static str, word: &[u8]) -> Option<&'static str> {
    for line in table.lines() {
        let (name, text) = line.split_once(": ")?;
        if is(word, name) {
            return Some(text);
        }
    }
    None
}

/// The decimal number in a field. 0 if the field contains no number that fits.
pub(crate) fn value(field: &[u8]) -> u64 {
    number(field, Radix::Decimal, u64::MAX).unwrap_or(0)
}

/// Whether the command reads a script.
pub fn names_script(words: &[&[u8]]) -> bool {
    let command = word(words, 0);
    is(command, "play") || is(command, "cached")
}

/// A unit and a kind of drive, from their words. None if one of the words is not valid.
pub(crate) fn named(unit: &[u8], kind: &[u8]) -> Option<(u8, DriveKind)> {
    let unit = number(unit, Radix::Decimal, 31).ok()?;
    let kind = kind_of(kind)?;
    Some(((unit as u8).min(31), kind))
}

/// The unit and the kind of drive that a command names. None if the command names no unit.
pub(crate) fn target(words: &[&[u8]]) -> Option<(u8, DriveKind)> {
    match words {
        [first, unit, kind, ..] if is(first, "format") || is(first, "dump") => named(unit, kind),
        [first, _, unit, kind, ..] if is(first, "bad144") || is(first, "raw") => named(unit, kind),
        _ => None,
    }
}

/// The field of a block of a unit.
pub(crate) fn block_field(kind: DriveKind) -> Field {
    let last = u64::from(blocks(kind)).saturating_sub(1);
    Field("BLOCK", Numbers(0, last))
}

/// An error if there is something wrong with the words after `bad144 add`.
fn check_add<'a>(words: &[&'a [u8]]) -> Result<(), Sentence<'a>> {
    let rest = walk(words, &[UNIT, KIND])?;
    let kind = kind_of(word(words, 1)).unwrap_or(DriveKind::Rp06);
    let ways = walk(rest, &[block_field(kind)])?;
    match optional(optional(ways, "copy", &[])?, "mark", &[])? {
        [] => Ok(()),
        [word, ..] => Err(say(
            "{0} cannot stand there: only these may follow: [copy] [mark], in this order",
            &[Word(word)],
        )),
    }
}

/// An error if something is found to be wrong with the words of a command line of `hpsim`.
pub(crate) fn check_command<'a>(words: &[&'a [u8]]) -> Result<(), Sentence<'a>> {
    let rest = walk(words, &[COMMAND])?;
    match (word(words, 0), word(rest, 0)) {
        (b"cached", _) => only(rest, &[Field("N", Numbers(1, 4096))]),
        (b"exercise", _) => only(rest, &[Field("N", Numbers(0, u64::MAX))]),
        (b"dump", _) => only(rest, &[UNIT, KIND]),
        (b"format", _) => only(rest, &[UNIT, KIND, SERIAL]),
        (b"bad144", b"add") => check_add(walk(rest, &[TOOL])?),
        (b"bad144", b"fresh") => only(rest, &[TOOL, UNIT, KIND, SERIAL]),
        (b"bad144", _) => only(rest, &[TOOL, UNIT, KIND]),
        (b"raw", b"read") => only(rest, &[WAY, UNIT, KIND, PART, PLACE, LENGTH]),
        (b"raw", _) => only(rest, &[WAY, UNIT, KIND, PART, PLACE]),
        _ => only(rest, &[]),
    }
}

/// An error if something is found to be wrong with the words of a command line of `hpview`.
pub(crate) fn check_view<'a>(words: &[&'a [u8]]) -> Result<(), Sentence<'a>> {
    let form = Field("FORM", Text("svg, text, tsv, summary, json"));
    let rest = walk(words, &[form])?;
    if is(word(words, 0), "summary") {
        return only(rest, &[]);
    }
    let most = 4_294_967_295;
    let first = number(word(rest, 0), Radix::Decimal, most).unwrap_or(1);
    let from = Field("FROM", Numbers(1, most));
    only(rest, &[from, Field("TO", Numbers(first.max(1), most))])
}
