// Fields that are taken from the front of a line. Each function that takes one answers `Word` if there is none.
ghost use Rattle.std.specs.Prelude.{◌≡◌, ◌∷◌, [], ◌*◌, ◌≤◌, ◌<◌, ℕ, List, IfOk, MatchResult};
ghost use Rattle.std.specs.List.{list_all};
ghost use Rattle.hex.specs.Hex.{is_hex_digit};
ghost use Rattle.script_lines.specs.Fields.{number_field, count_field, byte_field, seq_field, digits_field, place_field};
ghost use Rattle.script_lines.specs.Forms.{field, gives, mapped, next, Parses};
ghost use Rattle.script_lines.specs.Renamed.{content_by};

use crate::kinds::ScriptKind;
use crate::statement::{Content, Span};
use hex::FromHex;
use mass_text::{Fields, NumberFault, Radix, number};

/// Takes the next field.
pub(crate) fn need<'a>(fields: &mut Fields<'a>) -> Result<&'a [u8], ScriptKind>
    ensures { MatchResult result (λ text. fields.old ≡ text.now ∷ fields.new) (λ kind. (fields.old ≡ []) × (kind ≡ ScriptKind.Word)) }
{
    fields.next().ok_or(ScriptKind::Word)
}

/// Reads a decimal number from `low` to `high`. `Number` otherwise.
pub(crate) fn number_field(field: &[u8], low: u32, high: u32) -> Result<u32, ScriptKind>
    ensures value { result ≡ number_field low high field.now }
    ensures bound { IfOk result (λ n. n ≤ high) }
{
    match number(field, Radix::Decimal, u64::from(high)) {
        Ok(n) if n >= u64::from(low) => Ok(n as u32),
        _ => Err(ScriptKind::Number),
    }
}

/// Takes a decimal number from `low` to `high`. `Number` otherwise.
#[tactic(auto, using(crate::proofs::FieldLaws::field_read))]
pub(crate) fn next_number(fields: &mut Fields, low: u32, high: u32) -> Result<u32, ScriptKind>
    ensures value { Parses (field (number_field low high)) fields.old result fields.new }
    ensures bound { IfOk result (λ n. n ≤ high) }
{
    number_field(need(fields)?, low, high)
}

/// Takes a count of blocks, 1 to 127. `Count` for a number out of this range, and `Number` for a field that is no number.
#[tactic(auto, using(crate::proofs::FieldLaws::field_read))]
pub(crate) fn next_count(fields: &mut Fields) -> Result<u8, ScriptKind>
    ensures value { Parses (field count_field) fields.old result fields.new }
    ensures bound { IfOk result (λ n. n ≤ 127) }
{
    match number(need(fields)?, Radix::Decimal, 127) {
        Ok(0) | Err(NumberFault::Large) => Err(ScriptKind::Count),
        Ok(count) => Ok(count as u8),
        Err(_) => Err(ScriptKind::Number),
    }
}

/// Takes a byte, as two hexadecimal digits. `Data` otherwise.
#[tactic(auto, using(crate::proofs::FieldLaws::field_read))]
pub(crate) fn next_byte(fields: &mut Fields) -> Result<u8, ScriptKind>
    ensures { Parses (field byte_field) fields.old result fields.new }
{
    let [byte] = <[u8; 1]>::from_hex(need(fields)?).map_err(|_| ScriptKind::Data)?;
    Ok(byte)
}

/// Takes the start of a sequence, 0 to 255 in decimal. `Data` otherwise.
#[tactic(auto, using(crate::proofs::FieldLaws::field_read))]
pub(crate) fn next_seq(fields: &mut Fields) -> Result<u8, ScriptKind>
    ensures { Parses (field seq_field) fields.old result fields.new }
{
    let value = number(need(fields)?, Radix::Decimal, 255).map_err(|_| ScriptKind::Data)?;
    Ok(value as u8)
}

/// Whether all bytes are hexadecimal digits, of either case.
fn are_digits(field: &[u8]) -> bool
    ensures { result ≡ list_all is_hex_digit field.now }
{
    field.iter().all(|byte| byte.is_ascii_hexdigit())
}

/// Takes 1,024 hexadecimal digits for each of `count` blocks, on the line at `span`. `Data` otherwise.
pub(crate) fn next_digits(
    count: u8,
    span: Span,
    fields: &mut Fields,
) -> Result<Content<Span>, ScriptKind>
    ensures { Parses (mapped (content_by {C = List ℕ} (λ _. span)) (next (field (digits_field count)) (λ digits. gives (Content.Hex digits)))) fields.old result fields.new }
{
    let text = need(fields)?;
    if text.len() != 1024 * usize::from(count) {
        return Err(ScriptKind::Data);
    }
    if are_digits(text) {
        Ok(Content::Hex(span))
    } else {
        Err(ScriptKind::Data)
    }
}

/// Reads a place of noise, 0 to 4127 in decimal. `Bits` otherwise.
pub(crate) fn place_field(field: &[u8]) -> Result<u16, ScriptKind>
    ensures value { result ≡ place_field field.now }
    ensures bound { IfOk result (λ place. place ≤ 4127) }
{
    let place = number(field, Radix::Decimal, 4127).map_err(|_| ScriptKind::Bits)?;
    Ok(place as u16)
}
