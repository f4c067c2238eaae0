ghost use Rattle.std.specs.Prelude.{◌≡◌, ◌⊎◌, ◌<◌, ◌≤◌, ◌+◌, ℕ, List, Ok, Some, IfOk, IfErr, OnOk, length, map, [], ◌∷◌, ◌++◌};
ghost use Rattle.std.specs.Option.{option_map};
ghost use Rattle.script_lines.specs.declared.kinds.ScriptKind.{ScriptKind};
ghost use Rattle.script_lines.specs.declared.dialect.Dialect.{Dialect};
ghost use Rattle.script_reader.specs.Data.{IsData};
ghost use Rattle.script_lines.specs.Fields.{changed};
ghost use Rattle.script_reader.specs.Grammar.{entry, line_says, Spells, IsRefused};
ghost use Rattle.script_reader.specs.Formed.{AreWell, AreWellIn};
ghost use Rattle.script_lines.specs.Known.{Said, Numbered, known_of};
ghost use Rattle.script_lines.specs.Knowing.{known_in, LearnsFrom};
ghost use Rattle.script_reader.specs.Lines.{lines_of};
ghost use Rattle.script_reader.specs.Printing.{text_of, numbered};
ghost use Rattle.script_reader.specs.Reading.{reading, Finds, Refuses};
ghost use Rattle.script_lines.specs.Renamed.{content_by, renamed, read_of};
ghost use Rattle.script_reader.specs.Stored.{digits_at, seen, lines_in, Stores};
ghost use Rattle.script_lines.specs.Words.{all_verbs};
ghost use Rattle.std.specs.Box.{box_value};

use crate::data::{decode, fill, sequence};
use crate::fault::ReadFault;
use crate::lines::{first_piece, without_cr};
use fire_code::Noise;
use mass_text::Fields;
use script_lines::{Content, Dialect, Known, Line, Read, ScriptKind, Span, Statement, said, verb};
use std::alloc::Global;
use std::marker::Model;

/// The longest script, in bytes: 16 MiB.
const LONGEST: usize = 16_777_216;

/// The largest number of lines in a script.
const MOST_LINES: u32 = 1_000_000;

/// The longest line, in bytes.
const LONGEST_LINE: usize = 140_000;

/// A line as a script holds it. The digits of a write are named by the place of their line in the text.
pub type Stored = Line<Span, Box<Noise>>;

/// What fields say, on the line at `span` of the text. None if there is no field.
fn entry(
    dialect: Dialect,
    known: &Known,
    span: Span,
    fields: &mut Fields,
) -> Result<Option<Read>, ScriptKind>
    ensures { result ≡ changed (option_map (read_of span)) (entry dialect (known_in known.now) fields.old) }
{
    match fields.next() {
        Some(word) => {
            let verb = verb(dialect, word)?;
            let read = said(dialect, known, verb, span, fields)?;
            Ok(Some(read))
        }
        None => Ok(None),
    }
}

/// What line number `number` says, at `span` of the text. None if the line is passed over.
fn line_says(
    dialect: Dialect,
    known: &Known,
    number: u32,
    span: Span,
    line: &[u8],
) -> Result<Option<Read>, ScriptKind>
    ensures value { result ≡ changed (option_map (read_of span)) (line_says dialect (known_in known.now) number line.now) }
    ensures number { OnOk result (number ≤ 1000000) }
{
    if number > MOST_LINES {
        return Err(ScriptKind::TooMany);
    }
    if line.len() > LONGEST_LINE {
        return Err(ScriptKind::LineLong);
    }
    if !line.is_empty() && line[0] == b'#' {
        return Ok(None);
    }
    entry(dialect, known, span, &mut Fields::new(line))
}

/// A statement as a script holds it.
fn kept(alloc: Global, read: Read) -> Result<Statement<Span, Box<Noise>>, ReadFault>
    ensures ok { IfOk result (λ kept. renamed (λ span. span) box_value kept ≡ read) }
    ensures err { IfErr result (λ fault. fault ≡ ReadFault.Memory) }
{
    Ok(match read {
        Statement::Unit { unit, kind } => Statement::Unit { unit, kind },
        Statement::Read { request } => Statement::Read { request },
        Statement::Write { request, content } => Statement::Write { request, content },
        Statement::Arrive { unit } => Statement::Arrive { unit },
        Statement::Turn { unit, sector } => Statement::Turn { unit, sector },
        Statement::Move { adapter } => Statement::Move { adapter },
        Statement::Attend { adapter } => Statement::Attend { adapter },
        Statement::Noise {
            unit,
            block,
            span,
            places,
        } => Statement::Noise {
            unit,
            block,
            span,
            places: Box::new(alloc, places)?,
        },
        Statement::Fault { unit, what, times } => Statement::Fault { unit, what, times },
        Statement::Offline { unit } => Statement::Offline { unit },
        Statement::Online { unit } => Statement::Online { unit },
        Statement::Lock { unit } => Statement::Lock { unit },
        Statement::Unlock { unit } => Statement::Unlock { unit },
        Statement::Drain => Statement::Drain,
    })
}

/// Stores what was read of line number `number` after the others, if it says something.
fn store(
    alloc: Global,
    number: u32,
    read: Option<Read>,
    known: &mut Known,
    lines: &mut Vec<Stored>,
) -> Result<(), ReadFault>
    requires requests { (known_in known.old).requests < 1000000 }
    requires noises { (known_in known.old).noises < 1000000 }
    ensures learns { OnOk result (LearnsFrom read (known_in known.old) (known_in known.new)) }
    ensures stores { OnOk result (Stores number read lines.old.items lines.new.items) }
    ensures requests { OnOk result ((known_in known.new).requests ≤ (known_in known.old).requests + 1) }
    ensures noises { OnOk result ((known_in known.new).noises ≤ (known_in known.old).noises + 1) }
    ensures err { IfErr result (λ fault. fault ≡ ReadFault.Memory) }
{
    let Some(read) = read else {
        return Ok(());
    };
    known.learn(&read)?;
    let statement = kept(alloc, read)?;
    lines.push(Line { number, statement })?;
    Ok(())
}

/// Reads the lines of a text behind nothing, and gives the number of the line behind the last.
fn read_into(
    alloc: Global,
    dialect: Dialect,
    text: &[u8],
    known: &mut Known,
    lines: &mut Vec<Stored>,
) -> Result<u32, ReadFault>
    requires short { length text.now ≤ 16777216 }
    requires known { known_in known.old ≡ known_of {D = List ℕ} {N = List ℕ} [] }
    requires none { lines.old.items ≡ [] }
    ensures ok { IfOk result (λ next. reading dialect [] 1 (lines_of text.now) ≡ Ok (record { lines = map (seen text.now) lines.new.items; next = next })) }
    ensures some { IfOk result (λ next. 0 < next) }
    ensures err { IfErr result (λ fault. Finds fault (reading dialect [] 1 (lines_of text.now))) }
{
    let mut number = 1;
    let mut rest = text;
    'lines: while !rest.is_empty() {
        let start = text.len() - rest.len();
        let (piece, after) = first_piece(rest);
        let line = without_cr(piece);
        let span = Span {
            start: start as u32,
            end: (start + line.len()) as u32,
        };
        match line_says(dialect, known, number, span, line) {
            Ok(read) => store(alloc, number, read, known, lines)?,
            Err(kind) => {
                return Err(ReadFault::Refused {
                    line: u64::from(number),
                    kind,
                });
            }
        }
        number += 1;
        rest = after;
    }
    Ok(number)
}

/// A script: its text, those of its lines that say something, and the number of all its lines.
#[derive(Drop)]
pub struct Script {
    text: Vec<u8>,
    lines: Vec<Stored>,
    count: u32,
}

impl Model for Script {
    ghost use Rattle.script_reader.specs.Stored.{Stored};

    ghost Value = { Stored };

    ghost view = { λ s. record { text = s.text.items; lines = s.lines.items; count = s.count } };
}

/// Reads a script of a dialect from its bytes. It is refused exactly if the bytes spell no such script.
pub(crate) fn read_in(alloc: Global, dialect: Dialect, bytes: Vec<u8>) -> Result<Script, ReadFault>
    ensures ok { IfOk result (λ script. Spells dialect bytes.items (lines_in script) script.count) }
    ensures text { IfOk result (λ script. script.text ≡ bytes.items) }
    ensures err { IfErr result (λ fault. Refuses dialect fault bytes.items) }
{
    if bytes.len() > LONGEST {
        return Err(ReadFault::Refused {
            line: 0,
            kind: ScriptKind::ScriptLong,
        });
    }
    let mut known = Known::new(alloc);
    let mut lines = Vec::new(alloc);
    let next = read_into(alloc, dialect, bytes.as_slice(), &mut known, &mut lines)?;
    Ok(Script {
        text: bytes,
        lines,
        count: next - 1,
    })
}

/// Reads a script from its bytes. It is refused exactly if the bytes spell no script. The refusal names the first fault: `ScriptLong`
/// at line 0 if there are more than 16 MiB, and otherwise the first faulty line with its kind. `Memory` comes only if there was no
/// memory.
pub fn read_script(alloc: Global, bytes: Vec<u8>) -> Result<Script, ReadFault>
    ensures ok { IfOk result (λ script. Spells all_verbs bytes.items (lines_in script) script.count) }
    ensures text { IfOk result (λ script. script.text ≡ bytes.items) }
    ensures err { IfErr result (λ fault. Refuses all_verbs fault bytes.items) }
{
    read_in(alloc, Dialect::Events, bytes)
}

impl Script {
    /// The lines that say something, in order.
    pub fn lines(&self) -> &[Stored]
        ensures { result.now ≡ self.now.lines }
    {
        self.lines.as_slice()
    }

    /// The number of all lines, including those that are passed over.
    pub fn count(&self) -> u32
        ensures { result ≡ self.now.count }
    {
        self.count
    }

    /// Puts what a write writes into `into`, in whole blocks of 512 bytes. False exactly if the digits are not two for each byte.
    pub fn data(&self, content: &Content<Span>, into: &mut [u8]) -> bool
        ensures { IsData (content_by (digits_at self.now.text) content.now) (length into.old) result into.new }
    {
        match content {
            Content::Fill(byte) => {
                fill(*byte, into);
                true
            }
            Content::Seq(first) => {
                sequence(*first, into);
                true
            }
            Content::Hex(span) => decode(self.text.as_slice(), *span, into),
        }
    }
}

/// The law of the grammar, for each dialect: any bytes spell exactly one list of lines or have exactly one first fault,
/// and never both.
pub fn grammar_law()
    ensures one_script { (dialect : Dialect) (bytes : List ℕ) (lines others : List Numbered) (count other : ℕ) → Spells dialect bytes lines count → Spells dialect bytes others other → (lines ≡ others) × (count ≡ other) }
    ensures no_fault { (dialect : Dialect) (bytes : List ℕ) (lines : List Numbered) (count : ℕ) → Spells dialect bytes lines count → (number : ℕ) (kind : ScriptKind) → ¬ IsRefused dialect bytes number kind }
    ensures one_fault { (dialect : Dialect) (bytes : List ℕ) (number other : ℕ) (kind kind_other : ScriptKind) → IsRefused dialect bytes number kind → IsRefused dialect bytes other kind_other → (number ≡ other) × (kind ≡ kind_other) }
    ensures some { (dialect : Dialect) (bytes : List ℕ) → ((lines : List Numbered) × (count : ℕ) × Spells dialect bytes lines count) ⊎ ((number : ℕ) × (kind : ScriptKind) × IsRefused dialect bytes number kind) }
{}

/// The law of printed lines: the text of well-formed statements spells exactly those statements, one on each line; and what any text
/// spells is well formed.
pub fn read_back_law()
    ensures back { (statements : List Said) → AreWell (known_of {D = List ℕ} {N = List ℕ} []) statements → length statements ≤ 1000000 → length (text_of statements) ≤ 16777216 → Spells all_verbs (text_of statements) (numbered 1 statements) (length statements) }
    ensures well { (dialect : Dialect) (bytes : List ℕ) (lines : List Numbered) (count : ℕ) → Spells dialect bytes lines count → AreWellIn dialect (known_of {D = List ℕ} {N = List ℕ} []) (map (λ line. line.statement) lines) }
{}
