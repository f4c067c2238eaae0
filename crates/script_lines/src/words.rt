ghost use Rattle.std.specs.Prelude.{◌≡◌};
ghost use Rattle.std.specs.Str.{bytes_eq};
ghost use Rattle.script_lines.specs.Fields.{some_or, kind_field, part_field, offset_field, fault_field};
ghost use Rattle.script_lines.specs.Dialects.{cached_word, cached_verbs, word_of, verbs_of};
ghost use Rattle.script_lines.specs.Forms.{field, Parses};
ghost use Rattle.script_lines.specs.Words.{named, verb_word, event_verbs, first_verbs, later_verbs, offsets, faults};
ghost use Rattle.trace_replay.specs.Text.{offset_word, fault_word};

use crate::dialect::Dialect;
use crate::fields::need;
use crate::kinds::ScriptKind;
use crate::verbs::Verb;
use drive_registers::OffsetCode;
use mass_text::Fields;
use pack_geometry::{DriveKind, kind_of};
use partitions::{Part, part_of};
use trace_replay::FaultKind;

/// Whether a field is this word.
pub fn is_word(field: &[u8], word: &[u8]) -> bool
    ensures { result ≡ bytes_eq field.now word.now }
{
    field == word
}

/// The word at the front of a line, if it is one of the first seven.
fn first_verb(word: &[u8]) -> Option<Verb>
    ensures { result ≡ named verb_word first_verbs word.now }
{
    if is_word(word, b"unit".as_slice()) {
        Some(Verb::Unit)
    } else if is_word(word, b"read".as_slice()) {
        Some(Verb::Read)
    } else if is_word(word, b"write".as_slice()) {
        Some(Verb::Write)
    } else if is_word(word, b"arrive".as_slice()) {
        Some(Verb::Arrive)
    } else if is_word(word, b"turn".as_slice()) {
        Some(Verb::Turn)
    } else if is_word(word, b"move".as_slice()) {
        Some(Verb::Move)
    } else if is_word(word, b"attend".as_slice()) {
        Some(Verb::Attend)
    } else {
        None
    }
}

/// The word at the front of a line, if it is one of the others.
fn later_verb(word: &[u8]) -> Option<Verb>
    ensures { result ≡ named verb_word later_verbs word.now }
{
    if is_word(word, b"noise".as_slice()) {
        Some(Verb::Noise)
    } else if is_word(word, b"fault".as_slice()) {
        Some(Verb::Fault)
    } else if is_word(word, b"offline".as_slice()) {
        Some(Verb::Offline)
    } else if is_word(word, b"online".as_slice()) {
        Some(Verb::Online)
    } else if is_word(word, b"lock".as_slice()) {
        Some(Verb::Lock)
    } else if is_word(word, b"unlock".as_slice()) {
        Some(Verb::Unlock)
    } else if is_word(word, b"drain".as_slice()) {
        Some(Verb::Drain)
    } else {
        None
    }
}

/// The word at the front of a line of a script of events.
fn event_verb(word: &[u8]) -> Option<Verb>
    ensures { result ≡ named verb_word event_verbs word.now }
{
    match first_verb(word) {
        Some(verb) => Some(verb),
        None => later_verb(word),
    }
}

/// The word at the front of a line of a script of the cache.
fn cached_verb(word: &[u8]) -> Option<Verb>
    ensures { result ≡ named cached_word cached_verbs word.now }
{
    if is_word(word, b"unit".as_slice()) {
        Some(Verb::Unit)
    } else if is_word(word, b"read".as_slice()) {
        Some(Verb::Read)
    } else if is_word(word, b"write".as_slice()) {
        Some(Verb::Write)
    } else if is_word(word, b"sync".as_slice()) {
        Some(Verb::Drain)
    } else {
        None
    }
}

/// Reads the word at the front of a line. `Word` if the dialect has no such word.
pub fn verb(dialect: Dialect, word: &[u8]) -> Result<Verb, ScriptKind>
    ensures { result ≡ some_or ScriptKind.Word (named (word_of dialect) (verbs_of dialect) word.now) }
{
    let verb = match dialect {
        Dialect::Events => event_verb(word),
        Dialect::Cached => cached_verb(word),
    };
    verb.ok_or(ScriptKind::Word)
}

/// Takes a kind of drive. `Word` if the field names none.
pub(crate) fn next_kind(fields: &mut Fields) -> Result<DriveKind, ScriptKind>
    ensures { Parses (field kind_field) fields.old result fields.new }
{
    kind_of(need(fields)?).ok_or(ScriptKind::Word)
}

/// Reads a partition's letter. `Word` if the field names none.
pub fn part_field(word: &[u8]) -> Result<Part, ScriptKind>
    ensures { result ≡ part_field word.now }
{
    if word.len() != 1 {
        return Err(ScriptKind::Word);
    }
    part_of(word[0]).ok_or(ScriptKind::Word)
}

/// Takes a partition's letter, as `part_field` reads it.
#[tactic(auto, using(crate::proofs::FieldLaws::field_read))]
pub(crate) fn next_part(fields: &mut Fields) -> Result<Part, ScriptKind>
    ensures { Parses (field part_field) fields.old result fields.new }
{
    part_field(need(fields)?)
}

/// The offset of the heads that a word names. None if it names none.
pub fn offset_in(word: &[u8]) -> Option<OffsetCode>
    ensures { result ≡ named offset_word offsets word.now }
{
    if is_word(word, b"+400".as_slice()) {
        Some(OffsetCode::Plus400)
    } else if is_word(word, b"-400".as_slice()) {
        Some(OffsetCode::Minus400)
    } else if is_word(word, b"+800".as_slice()) {
        Some(OffsetCode::Plus800)
    } else if is_word(word, b"-800".as_slice()) {
        Some(OffsetCode::Minus800)
    } else if is_word(word, b"+1200".as_slice()) {
        Some(OffsetCode::Plus1200)
    } else if is_word(word, b"-1200".as_slice()) {
        Some(OffsetCode::Minus1200)
    } else {
        None
    }
}

/// The kind of fault that a word names. None if it names none.
pub fn fault_in(word: &[u8]) -> Option<FaultKind>
    ensures { result ≡ named fault_word faults word.now }
{
    if is_word(word, b"seek".as_slice()) {
        Some(FaultKind::Seek)
    } else if is_word(word, b"opi".as_slice()) {
        Some(FaultKind::Opi)
    } else if is_word(word, b"dte".as_slice()) {
        Some(FaultKind::Dte)
    } else if is_word(word, b"hcrc".as_slice()) {
        Some(FaultKind::Hcrc)
    } else if is_word(word, b"late".as_slice()) {
        Some(FaultKind::Late)
    } else {
        None
    }
}

/// Takes an offset of the heads. `Word` if the field names none.
#[tactic(auto, using(crate::proofs::FieldLaws::field_read))]
pub(crate) fn next_offset(fields: &mut Fields) -> Result<OffsetCode, ScriptKind>
    ensures { Parses (field offset_field) fields.old result fields.new }
{
    offset_in(need(fields)?).ok_or(ScriptKind::Word)
}

/// Takes a kind of fault. `Word` if the field names none.
#[tactic(auto, using(crate::proofs::FieldLaws::field_read))]
pub(crate) fn next_fault(fields: &mut Fields) -> Result<FaultKind, ScriptKind>
    ensures { Parses (field fault_field) fields.old result fields.new }
{
    fault_in(need(fields)?).ok_or(ScriptKind::Word)
}
