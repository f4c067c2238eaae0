ghost use Rattle.std.specs.Prelude.{◌≡◌, ◌<◌, ◌+◌, ◌*◌, ◌%◌, ℕ, [], length, drop, slice_index, slice_index_or, slice_range};
ghost use Rattle.mass_text.specs.Pieces.{pieces};
ghost use Rattle.script_reader.specs.Data.{IsFilled, IsSequence, IsDecoded};

use mass_text::Fields;
use script_lines::Span;

/// The part of a text at `span`, as far as there is one.
fn part(text: &[u8], span: Span) -> &[u8]
    ensures { result.now ≡ slice_range text.now span.start span.end }
{
    let (start, end) = (span.start as usize, span.end as usize);
    if start >= text.len() || end <= start {
        return &[];
    }
    if end >= text.len() {
        return &text[start..];
    }
    &text[start..end]
}

/// Passes over a field, if there is one.
fn skip(fields: &mut Fields)
    ensures { fields.new ≡ drop 1 fields.old }
{
    match fields.next() {
        Some(_) => {}
        None => {}
    }
}

/// The next field, or nothing if there is none.
fn field_or_nothing<'a>(fields: &mut Fields<'a>) -> &'a [u8]
    ensures { result.now ≡ slice_index_or fields.old 0 [] }
{
    match fields.next() {
        Some(field) => field,
        None => &[],
    }
}

/// The eighth field of a line, or nothing if the line has fewer fields.
#[tactic(auto, using(crate::proofs::DataLaws::drop_more, crate::proofs::DataLaws::eighth_of))]
fn eighth(line: &[u8]) -> &[u8]
    ensures { result.now ≡ slice_index_or (pieces line.now) 7 [] }
{
    let mut fields = Fields::new(line);
    for _ in 0..7u32 {
        skip(&mut fields);
    }
    field_or_nothing(&mut fields)
}

/// Fills `into` with one byte.
pub fn fill(byte: u8, into: &mut [u8])
    ensures { IsFilled byte into.new }
{
    into.fill(byte);
}

/// Puts the sums of a number and each place, from 0 on.
fn ascend(first: u8, into: &mut [u8])
    ensures bytes { (i : ℕ) → i < length into.new → slice_index into.new i ≡ (first + i) % 256 }
{
    let mut next = first;
    for place in into.iter_mut() {
        *place = next;
        next = next.wrapping_add(1);
    }
}

/// Puts a sequence.
pub(crate) fn sequence(first: u8, into: &mut [u8])
    ensures { IsSequence first into.new }
{
    let mut next = first;
    let mut start = 0;
    'rows: while into.len() - start > 512 {
        ascend(next, &mut into[start..start + 512]);
        next = next.wrapping_add(1);
        start += 512;
    }
    ascend(next, &mut into[start..]);
}

/// Puts the bytes that the digits of a line say. False exactly if there are not two digits for each byte.
pub(crate) fn decode(text: &[u8], span: Span, into: &mut [u8]) -> bool
    ensures { IsDecoded (slice_index_or (pieces (slice_range text.now span.start span.end)) 7 []) (length into.old) result into.new }
{
    hex::decode_to_slice(eighth(part(text, span)), into).is_ok()
}
