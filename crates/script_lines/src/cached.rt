// Lines of a script of the cache, behind their words.
ghost use Rattle.std.specs.Prelude.{◌≡◌, ◌∷◌};
ghost use Rattle.script_lines.specs.Dialects.{blocks_form, fill_form, cached_read_form, cached_write_form, cached_form};
ghost use Rattle.script_lines.specs.Forms.{mapped, Parses};
ghost use Rattle.script_lines.specs.Knowing.{known_in};
ghost use Rattle.script_lines.specs.Renamed.{read_of};
ghost use Rattle.script_lines.specs.declared.statement.Span.{Span};

use crate::fields::{need, next_byte, next_count, next_number};
use crate::forms::{Read, unit_line};
use crate::known::Known;
use crate::statement::{Content, Request, Statement};
use crate::{ScriptKind, Verb, is_word};
use mass_text::Fields;
use partitions::Part;

/// `ID U BLOCK COUNT`
#[tactic(auto, unfolding(crate::specs::Dialects::blocks_form))]
fn blocks(known: &Known, fields: &mut Fields) -> Result<Request, ScriptKind>
    ensures { Parses (blocks_form (known_in known.now)) fields.old result fields.new }
{
    let id = next_number(fields, 0, u32::MAX)?;
    let (unit, _) = known.old_unit(fields)?;
    let block = next_number(fields, 0, u32::MAX)?;
    let count = next_count(fields)?;
    Ok(Request {
        id,
        unit,
        part: Part::C,
        block,
        count,
        offset: 0,
        last: 512,
    })
}

/// `fill HH`
#[tactic(auto, unfolding(crate::specs::Dialects::fill_form))]
fn filled(fields: &mut Fields) -> Result<u8, ScriptKind>
    ensures { Parses fill_form fields.old result fields.new }
{
    if is_word(need(fields)?, b"fill".as_slice()) {
        next_byte(fields)
    } else {
        Err(ScriptKind::Word)
    }
}

fn read_line(known: &Known, fields: &mut Fields) -> Result<Read, ScriptKind>
    ensures { (span : Span) → Parses (mapped (read_of span) (cached_read_form (known_in known.now))) fields.old result fields.new }
{
    let request = blocks(known, fields)?;
    Ok(Statement::Read { request })
}

fn write_line(known: &Known, fields: &mut Fields) -> Result<Read, ScriptKind>
    ensures { (span : Span) → Parses (mapped (read_of span) (cached_write_form (known_in known.now))) fields.old result fields.new }
{
    let request = blocks(known, fields)?;
    let fill = filled(fields)?;
    Ok(Statement::Write {
        request,
        content: Content::Fill(fill),
    })
}

/// What the fields after a word say.
pub(crate) fn cached_form(
    known: &Known,
    verb: Verb,
    fields: &mut Fields,
) -> Result<Read, ScriptKind>
    ensures { (span : Span) → Parses (mapped (read_of span) (cached_form (known_in known.now) verb)) fields.old result fields.new }
{
    match verb {
        Verb::Unit => unit_line(known, fields),
        Verb::Read => read_line(known, fields),
        Verb::Write => write_line(known, fields),
        Verb::Drain => Ok(Statement::Drain),
        _ => Err(ScriptKind::Word),
    }
}
