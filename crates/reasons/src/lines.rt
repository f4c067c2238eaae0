// The lines of a script, and which field of a refused line is wrong.
use crate::fields::{BYTE, Field, KIND, PART, UNIT, end, only, optional, walk};
use crate::sentence::Piece::{Digits, Numbers, Text};
use crate::sentence::{Sentence, say};
use crate::words::{block_field, is, named, word};
use mass_text::{Fields, Radix, number};
use pack_geometry::{DriveKind, geometry_of};
use std::alloc::{AllocError, Global};

const VERB: Field = Field(
    "first word",
    Text(
        "unit, read, write, arrive, turn, move, attend, noise, fault, offline, online, lock, unlock, drain",
    ),
);

const CACHED_VERB: Field = Field("first word", Text("unit, read, write, sync"));

const ID: Field = Field("ID", Numbers(0, 4_294_967_295));

const BLOCK: Field = Field("BLOCK", Numbers(0, 4_294_967_295));

const COUNT: Field = Field("COUNT", Numbers(1, 127));

const TIMES: Field = Field("TIMES", Numbers(1, 1000));

const PLACE: Field = Field("BITS", Numbers(0, 4127));

const WHAT: Field = Field("WHAT", Text("seek, opi, dte, hcrc, late"));

const CODE: Field = Field("CODE", Text("+400, -400, +800, -800, +1200, -1200"));

const FILL: Field = Field("kind of data", Text("fill"));

const CONTENT: Field = Field("kind of data", Text("fill, seq, hex"));

/// A line of a text by its number, counted from 1, without its LF and CR. It is empty if there is no such line.
pub(crate) fn line_of(text: &[u8], line: u64) -> &[u8] {
    let mut lines = text.split(|byte| *byte == b'\n');
    match lines.nth(line.saturating_sub(1) as usize) {
        Some([line @ .., b'\r']) => line,
        Some(line) => line,
        None => b"",
    }
}

/// The fields of a line, at most 100 of them. An error if there is no memory for them.
pub(crate) fn fields_of<'a>(alloc: Global, line: &'a [u8]) -> Result<Vec<&'a [u8]>, AllocError> {
    let mut all = Vec::new(alloc);
    let mut fields = Fields::new(line);
    for _ in 0..100u8 {
        match fields.next() {
            Some(field) => all.push(field)?,
            None => return Ok(all),
        }
    }
    Ok(all)
}

/// The fields of a text of one line. There are none if there is no memory for them.
pub fn text_fields<'a>(alloc: Global, text: &'a [u8]) -> Vec<&'a [u8]> {
    fields_of(alloc, line_of(text, 1)).unwrap_or(Vec::new(alloc))
}

/// The kind of drive of a unit, if this line declares the unit.
fn declared(line: &[u8], unit: u8) -> Option<DriveKind> {
    let mut fields = Fields::new(line);
    let verb = fields.next()?;
    let number = fields.next()?;
    let (other, kind) = named(number, fields.next()?)?;
    (is(verb, "unit") && other == unit).then_some(kind)
}

/// The kind of drive of a unit, if a script declares the unit.
pub(crate) fn kind_of_unit(script: &[u8], unit: u8) -> Option<DriveKind> {
    script
        .split(|byte| *byte == b'\n')
        .find_map(|line| declared(line, unit))
}

/// The kind of drive of the unit that a field names. It is an RP06 if the script does not declare the unit.
fn kind_at(script: &[u8], field: &[u8]) -> DriveKind {
    match number(field, Radix::Decimal, 31) {
        Ok(unit) => kind_of_unit(script, (unit as u8).min(31)).unwrap_or(DriveKind::Rp06),
        Err(_) => DriveKind::Rp06,
    }
}

/// An error if there is something wrong with the words that follow the blocks or the bytes of a request.
fn check_tail<'a>(words: &[&'a [u8]]) -> Result<(), Sentence<'a>> {
    let rest = optional(words, "off", &[Field("N of off", Numbers(0, 511))])?;
    end(
        optional(rest, "last", &[Field("M of last", Numbers(1, 512))])?,
        "{0} cannot stand there: only these may follow: [off N] [last M], in this order",
    )
}

/// An error if there is something wrong with the fields of a `write`.
fn check_write<'a>(words: &[&'a [u8]]) -> Result<(), Sentence<'a>> {
    let rest = walk(words, &[ID, UNIT, PART, BLOCK, COUNT, CONTENT])?;
    let content = match word(words, 5) {
        b"fill" => BYTE,
        b"seq" => Field("N of seq", Numbers(0, 255)),
        _ => {
            let count = number(word(words, 4), Radix::Decimal, 127).unwrap_or(1);
            Field("DIGITS", Digits((count as usize).saturating_mul(1024)))
        }
    };
    check_tail(walk(rest, &[content])?)
}

/// An error if there is something wrong with the fields of a `noise` of a unit of this kind.
fn check_noise<'a>(kind: DriveKind, words: &[&'a [u8]]) -> Result<(), Sentence<'a>> {
    let rest = walk(words, &[UNIT, block_field(kind)])?;
    let places = match rest {
        [word, rest @ ..] if is(word, "until") => walk(rest, &[CODE])?,
        _ => walk(rest, &[TIMES])?,
    };
    let mut left = walk(places, &[PLACE])?;
    for _ in 1..places.len() {
        left = walk(left, &[PLACE])?;
    }
    Ok(())
}

/// An error if a field of a line is faulty by itself. The line stands in a script of `cached` if `is_cached`, otherwise of `play`.
pub(crate) fn check_line<'a>(
    script: &[u8],
    words: &[&'a [u8]],
    is_cached: bool,
) -> Result<(), Sentence<'a>> {
    let verb = word(words, 0);
    if verb.starts_with(b"\xEF\xBB\xBF") {
        let text = "it begins with a byte-order mark, so save the script without one";
        return Err(say(text, &[]));
    }
    let rest = walk(words, &[if is_cached { CACHED_VERB } else { VERB }])?;
    let kind = kind_at(script, word(rest, 0));
    match verb {
        b"unit" => only(rest, &[UNIT, KIND]),
        b"read" if is_cached => only(rest, &[ID, UNIT, BLOCK, COUNT]),
        b"write" if is_cached => only(rest, &[ID, UNIT, BLOCK, COUNT, FILL, BYTE]),
        b"read" => check_tail(walk(rest, &[ID, UNIT, PART, BLOCK, COUNT])?),
        b"write" => check_write(rest),
        b"turn" => {
            let last = u64::from(geometry_of(kind).sectors).saturating_sub(1);
            only(rest, &[UNIT, Field("S", Numbers(0, last))])
        }
        b"move" | b"attend" => only(rest, &[Field("A", Numbers(0, 3))]),
        b"noise" => check_noise(kind, rest),
        b"fault" => only(rest, &[UNIT, WHAT, TIMES]),
        b"drain" | b"sync" => only(rest, &[]),
        _ => only(rest, &[UNIT]),
    }
}
