ghost use Rattle.std.specs.Prelude.{◌≡◌, IfOk, ◌≤◌};
ghost use Rattle.script_lines.specs.Fields.{changed, number_field};
ghost use Rattle.script_lines.specs.Forms.{mapped, option, start_form, last_form, tail_form, content_form, span_form, unit_form, read_form, write_form, turn_form, noise_form, fault_form, form_of, unit_number_form, adapter_form, Parses, too_late};
ghost use Rattle.script_lines.specs.Dialects.{form_in, said};
ghost use Rattle.script_lines.specs.Knowing.{known_in};
ghost use Rattle.script_lines.specs.declared.statement.Span.{Span};
ghost use Rattle.script_lines.specs.Renamed.{content_by, read_of};

use crate::cached::cached_form;
use crate::dialect::Dialect;
use crate::fields::{
    need, next_byte, next_count, next_digits, next_number, next_seq, number_field,
};
use crate::known::Known;
use crate::places::places;
use crate::statement::{Content, Request, Span, Statement};
use crate::words::{next_fault, next_kind, next_offset, next_part};
use crate::{ScriptKind, Verb, is_word};
use fire_code::Noise;
use mass_text::Fields;
use pack_geometry::{blocks, geometry_of};
use trace_replay::NoiseSpan;

/// What a line says, as it is read. The digits of a write are named by the place of their line in the text.
pub type Read = Statement<Span, Noise>;

/// `ID U PART BLOCK COUNT`
#[tactic(auto, unfolding(crate::specs::Forms::start_form))]
fn start(known: &Known, fields: &mut Fields) -> Result<Request, ScriptKind>
    ensures form { Parses (start_form (known_in known.now)) fields.old result fields.new }
    ensures count { IfOk result (λ request. request.count ≤ 127) }
{
    let id = known.new_id(fields)?;
    let (unit, _) = known.old_unit(fields)?;
    let part = next_part(fields)?;
    let block = next_number(fields, 0, u32::MAX)?;
    let count = next_count(fields)?;
    Ok(Request {
        id,
        unit,
        part,
        block,
        count,
        offset: 0,
        last: 512,
    })
}

/// `WORD N`, a number from `low` to `high`, or neither: then `absent`.
fn option(
    word: &[u8],
    low: u32,
    high: u32,
    absent: u32,
    fields: &mut Fields,
) -> Result<u32, ScriptKind>
    requires { absent ≤ high }
    ensures value { Parses (option word.now (number_field low high) absent) fields.old result fields.new }
    ensures bound { IfOk result (λ n. n ≤ high) }
{
    if fields.next_if(word) {
        next_number(fields, low, high)
    } else {
        Ok(absent)
    }
}

/// `[last M]`, at the end of a line.
#[tactic(auto, unfolding(crate::specs::Forms::last_form))]
fn last(fields: &mut Fields) -> Result<u16, ScriptKind>
    ensures { Parses last_form fields.old result fields.new }
{
    let last = option(b"last".as_slice(), 1, 512, 512, fields)?;
    match fields.next() {
        Some(_) => Err(ScriptKind::Word),
        None => Ok(last as u16),
    }
}

/// `[off N] [last M]`, at the end of a line.
#[tactic(auto, unfolding(crate::specs::Forms::tail_form))]
fn tail(start: &Request, fields: &mut Fields) -> Result<Request, ScriptKind>
    ensures { Parses (tail_form start.now) fields.old result fields.new }
{
    let offset = option(b"off".as_slice(), 0, 511, 0, fields)?;
    let last = last(fields)?;
    Ok(Request {
        offset: offset as u16,
        last,
        ..*start
    })
}

/// `fill HH`, `seq N` or `hex DIGITS`, on the line that stands at `span`.
#[tactic(auto, unfolding(crate::specs::Forms::content_form))]
fn content(count: u8, span: Span, fields: &mut Fields) -> Result<Content<Span>, ScriptKind>
    ensures { Parses (mapped (content_by (λ _. span)) (content_form count)) fields.old result fields.new }
{
    let word = need(fields)?;
    if is_word(word, b"fill".as_slice()) {
        next_byte(fields).map(Content::Fill)
    } else if is_word(word, b"seq".as_slice()) {
        next_seq(fields).map(Content::Seq)
    } else if is_word(word, b"hex".as_slice()) {
        next_digits(count, span, fields)
    } else {
        Err(ScriptKind::Word)
    }
}

/// `TIMES` or `until CODE`
#[tactic(auto, unfolding(crate::specs::Forms::span_form))]
fn noise_span(fields: &mut Fields) -> Result<NoiseSpan, ScriptKind>
    ensures { Parses span_form fields.old result fields.new }
{
    let word = need(fields)?;
    if is_word(word, b"until".as_slice()) {
        next_offset(fields).map(NoiseSpan::Until)
    } else {
        number_field(word, 1, 1000).map(NoiseSpan::Times)
    }
}

pub(crate) fn unit_line(known: &Known, fields: &mut Fields) -> Result<Read, ScriptKind>
    ensures { (span : Span) → Parses (mapped (read_of span) (unit_form (known_in known.now))) fields.old result fields.new }
{
    let unit = known.new_unit(fields)?;
    let kind = next_kind(fields)?;
    Ok(Statement::Unit { unit, kind })
}

fn read_line(known: &Known, fields: &mut Fields) -> Result<Read, ScriptKind>
    ensures { (span : Span) → Parses (mapped (read_of span) (read_form (known_in known.now))) fields.old result fields.new }
{
    let start = start(known, fields)?;
    let request = tail(&start, fields)?;
    Ok(Statement::Read { request })
}

fn write_line(known: &Known, span: Span, fields: &mut Fields) -> Result<Read, ScriptKind>
    ensures { Parses (mapped (read_of span) (write_form (known_in known.now))) fields.old result fields.new }
{
    let start = start(known, fields)?;
    let content = content(start.count, span, fields)?;
    let request = tail(&start, fields)?;
    Ok(Statement::Write { request, content })
}

fn turn_line(known: &Known, fields: &mut Fields) -> Result<Read, ScriptKind>
    ensures { (span : Span) → Parses (mapped (read_of span) (turn_form (known_in known.now))) fields.old result fields.new }
{
    let (unit, kind) = known.old_unit(fields)?;
    let sector = next_number(fields, 0, geometry_of(kind).sectors - 1)?;
    Ok(Statement::Turn { unit, sector })
}

fn noise_line(known: &Known, fields: &mut Fields) -> Result<Read, ScriptKind>
    ensures { (span : Span) → Parses (mapped (read_of span) (noise_form (known_in known.now))) fields.old result fields.new }
{
    let (unit, kind) = known.old_unit(fields)?;
    let block = next_number(fields, 0, blocks(kind) - 1)?;
    let span = noise_span(fields)?;
    let places = places(fields)?;
    Ok(Statement::Noise {
        unit,
        block,
        span,
        places,
    })
}

fn fault_line(known: &Known, fields: &mut Fields) -> Result<Read, ScriptKind>
    ensures { (span : Span) → Parses (mapped (read_of span) (fault_form (known_in known.now))) fields.old result fields.new }
{
    let unit = unit(known, fields)?;
    let what = next_fault(fields)?;
    let times = next_number(fields, 1, 1000)?;
    Ok(Statement::Fault { unit, what, times })
}

/// The number of a unit that was declared.
fn unit(known: &Known, fields: &mut Fields) -> Result<u8, ScriptKind>
    ensures { Parses (unit_number_form (known_in known.now)) fields.old result fields.new }
{
    let (unit, _) = known.old_unit(fields)?;
    Ok(unit)
}

/// The number of an adapter.
fn adapter(fields: &mut Fields) -> Result<u8, ScriptKind>
    ensures { Parses adapter_form fields.old result fields.new }
{
    let adapter = next_number(fields, 0, 3)?;
    Ok(adapter as u8)
}

/// What the fields after a word say.
fn form(known: &Known, verb: Verb, span: Span, fields: &mut Fields) -> Result<Read, ScriptKind>
    ensures { Parses (mapped (read_of span) (form_of (known_in known.now) verb)) fields.old result fields.new }
{
    match verb {
        Verb::Unit => unit_line(known, fields),
        Verb::Read => read_line(known, fields),
        Verb::Write => write_line(known, span, fields),
        Verb::Arrive => unit(known, fields).map(|unit| Statement::Arrive { unit }),
        Verb::Turn => turn_line(known, fields),
        Verb::Move => adapter(fields).map(|adapter| Statement::Move { adapter }),
        Verb::Attend => adapter(fields).map(|adapter| Statement::Attend { adapter }),
        Verb::Noise => noise_line(known, fields),
        Verb::Fault => fault_line(known, fields),
        Verb::Offline => unit(known, fields).map(|unit| Statement::Offline { unit }),
        Verb::Online => unit(known, fields).map(|unit| Statement::Online { unit }),
        Verb::Lock => unit(known, fields).map(|unit| Statement::Lock { unit }),
        Verb::Unlock => unit(known, fields).map(|unit| Statement::Unlock { unit }),
        Verb::Drain => Ok(Statement::Drain),
    }
}

/// What the fields after a word say in a dialect.
fn form_in(
    dialect: Dialect,
    known: &Known,
    verb: Verb,
    span: Span,
    fields: &mut Fields,
) -> Result<Read, ScriptKind>
    ensures { Parses (mapped (read_of span) (form_in dialect (known_in known.now) verb)) fields.old result fields.new }
{
    match dialect {
        Dialect::Events => form(known, verb, span, fields),
        Dialect::Cached => cached_form(known, verb, fields),
    }
}

/// What is wrong with a word, whatever fields follow it.
fn too_late(known: &Known, verb: Verb) -> Option<ScriptKind>
    ensures { result ≡ too_late (known_in known.now) verb }
{
    if verb == Verb::Unit && known.is_later() {
        return Some(ScriptKind::LateUnit);
    }
    if known.is_full(verb) {
        return Some(ScriptKind::TooMany);
    }
    None
}

/// Reads what a line with this word says. Otherwise answers the kind of the line's first fault.
pub fn said(
    dialect: Dialect,
    known: &Known,
    verb: Verb,
    span: Span,
    fields: &mut Fields,
) -> Result<Read, ScriptKind>
    ensures { result ≡ changed (read_of span) (said dialect (known_in known.now) verb fields.old) }
{
    if let Some(kind) = too_late(known, verb) {
        return Err(kind);
    }
    let read = form_in(dialect, known, verb, span, fields)?;
    match fields.next() {
        Some(_) => Err(ScriptKind::Word),
        None => Ok(read),
    }
}
