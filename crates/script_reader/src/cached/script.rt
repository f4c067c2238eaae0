ghost use Rattle.std.specs.Prelude.{◌≡◌, ◌⊎◌, ℕ, List, IfOk, IfErr, map};
ghost use Rattle.script_lines.specs.declared.kinds.ScriptKind.{ScriptKind};
ghost use Rattle.script_reader.specs.declared.cached.statement.Line.{Line};
ghost use Rattle.script_reader.specs.cached.Formed.{IsScript};
ghost use Rattle.script_reader.specs.cached.Scripts.{asked_of, narrowed, narrowed_line, Spells, IsRefused, Refuses};

use crate::ReadFault;
use crate::cached::kind::{CachedKind, CachedRefusal};
use crate::cached::statement::{Asked, Line, Statement};
use crate::script::{Stored, read_in};
use fire_code::Noise;
use script_lines::{Content, Dialect, Request, Span};
use std::alloc::Global;
use std::marker::Model;

/// The blocks that a line asks for.
fn asked(request: &Request) -> Asked
    ensures { result ≡ asked_of request.now }
{
    Asked {
        id: request.id,
        unit: request.unit,
        block: request.block,
        count: request.count,
    }
}

/// What a line of the cache says. None of the lines that are left comes, except a drain.
fn narrowed(statement: &script_lines::Statement<Span, Box<Noise>>) -> Statement
    ensures { result ≡ narrowed statement.now }
{
    match statement {
        script_lines::Statement::Unit { unit, kind } => Statement::Unit {
            unit: *unit,
            kind: *kind,
        },
        script_lines::Statement::Read { request } => Statement::Read {
            asked: asked(request),
        },
        script_lines::Statement::Write {
            request,
            content: Content::Fill(fill),
        } => Statement::Write {
            asked: asked(request),
            fill: *fill,
        },
        _ => Statement::Sync,
    }
}

/// Lines of the cache, without what other lines have.
fn narrowed_lines(alloc: Global, lines: &[Stored]) -> Result<Vec<Line>, CachedRefusal>
    ensures ok { IfOk result (λ narrow. narrow.items ≡ map narrowed_line lines.now) }
    ensures err { IfErr result (λ fault. fault ≡ CachedRefusal.Memory) }
{
    let mut narrow = Vec::new(alloc);
    for line in lines {
        narrow.push(Line {
            number: line.number,
            statement: narrowed(&line.statement),
        })?;
    }
    Ok(narrow)
}

/// A script of the cache: its lines that say something, and how many lines it has in all.
#[derive(Drop)]
pub struct CachedScript {
    lines: Vec<Line>,
    count: u32,
}

impl Model for CachedScript {
    ghost use Rattle.script_reader.specs.cached.Scripts.{Script, IsSpelled};

    ghost Value = { Script };

    ghost view = { λ s. record { lines = s.lines.items; count = s.count } };

    ghost invariant = { λ s. IsSpelled (record { lines = s.lines.items; count = s.count }) };
}

/// Reads a script from its bytes. It is refused exactly where the bytes spell none, with the first fault: Refused at line 0 as
/// ScriptLong for more than 16 MiB; else the first line that is faulty, and its kind. Memory tells only that there was none.
pub fn read_cached(alloc: Global, bytes: Vec<u8>) -> Result<CachedScript, CachedRefusal>
    ensures ok { IfOk result (λ script. Spells bytes.items script.lines script.count) }
    ensures err { IfErr result (λ refusal. Refuses refusal bytes.items) }
{
    let script = match read_in(alloc, Dialect::Cached, bytes) {
        Ok(script) => script,
        Err(ReadFault::Memory) => return Err(CachedRefusal::Memory),
        Err(ReadFault::Refused { line, kind }) => {
            return Err(CachedRefusal::Refused {
                line,
                kind: CachedKind::named(kind),
            });
        }
    };
    let lines = narrowed_lines(alloc, script.lines())?;
    Ok(CachedScript {
        lines,
        count: script.count(),
    })
}

impl CachedScript {
    /// The law of scripts: units are declared first, each once and among 32; each request is of a unit that is declared, for 1 to 127 blocks;
    /// and the numbers of lines ascend, up to the number of all lines.
    pub fn law(&self)
        ensures { IsScript self.now }
    {
        let _count = self.count;
    }

    /// The lines that say something, in order.
    pub fn lines(&self) -> &[Line]
        ensures { result.now ≡ self.now.lines }
    {
        self.lines.as_slice()
    }

    /// How many lines there are in all, those that are passed over among them.
    pub fn count(&self) -> u32
        ensures { result ≡ self.now.count }
    {
        self.count
    }
}

/// The law of the grammar: bytes spell one list of lines, or have one first fault, never both and never neither.
pub fn cached_grammar_law()
    ensures one_script { (bytes : List ℕ) (lines others : List Line) (count other : ℕ) → Spells bytes lines count → Spells bytes others other → (lines ≡ others) × (count ≡ other) }
    ensures no_fault { (bytes : List ℕ) (lines : List Line) (count : ℕ) → Spells bytes lines count → (number : ℕ) (kind : ScriptKind) → ¬ IsRefused bytes number kind }
    ensures one_fault { (bytes : List ℕ) (number other : ℕ) (kind kind_other : ScriptKind) → IsRefused bytes number kind → IsRefused bytes other kind_other → (number ≡ other) × (kind ≡ kind_other) }
    ensures some { (bytes : List ℕ) → ((lines : List Line) × (count : ℕ) × Spells bytes lines count) ⊎ ((number : ℕ) × (kind : ScriptKind) × IsRefused bytes number kind) }
{}
