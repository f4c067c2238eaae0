// A trace that is read a line at a time.
ghost use Rattle.std.specs.Prelude.{◌≡◌, [], IfOk, IfErr, List};
ghost use Rattle.trace_reader.specs.declared.line.TraceLine.{TraceLine};
ghost use Rattle.trace_reader.specs.Grammar.{Refuses};
ghost use Rattle.trace_reader.specs.Knowing.{Knows};
ghost use Rattle.trace_reader.specs.Ended.{is_open};
ghost use Rattle.trace_reader.specs.Reading.{judged_by, standing_at};
ghost use Rattle.trace_reader.specs.SoFar.{HasRead, Reads};

use crate::asked::Asked;
use crate::ended::Ended;
use crate::fault::{TraceFault, TraceKind};
use crate::forms::line_of;
use crate::line::{ReadLine, TraceLine};
use script_reader::{Script, first_piece};
use std::alloc::Global;
use std::marker::Model;

/// The longest trace, in bytes: 256 MiB.
const LONGEST: usize = 268_435_456;

/// A line that was read, after a line with the number `before`.
fn standing(
    script: &Script,
    asked: &Asked,
    ended: &Ended,
    before: u32,
    line: TraceLine,
) -> Result<TraceLine, TraceKind>
    requires { Knows asked.now script.now.lines }
    ensures { result ≡ standing_at script.now before (is_open ended.now script.now.count line) line }
{
    if line.line() < before {
        return Err(TraceKind::Order);
    }
    if !asked.is_of_script(script, &line) {
        return Err(TraceKind::Script);
    }
    if ended.is_open(script.count(), &line) {
        Ok(line)
    } else {
        Err(TraceKind::Ended)
    }
}

/// What a text says, after a line with the number `before`.
fn judged(
    script: &Script,
    asked: &Asked,
    ended: &Ended,
    before: u32,
    text: &[u8],
) -> Result<TraceLine, TraceKind>
    requires { Knows asked.now script.now.lines }
    ensures { result ≡ judged_by (λ line. standing_at script.now before (is_open ended.now script.now.count line) line) text.now }
{
    let line = line_of(text).map_err(|_| TraceKind::Word)?;
    standing(script, asked, ended, before, line)
}

/// The lines of a trace, one after another, beside the script of its run. The value holds the requests of the script, those that
/// have ended, and the place that was reached in the trace.
#[derive(Drop)]
pub struct TraceLines<'a> {
    script: &'a Script,
    asked: Asked,
    ended: Ended,
    bytes: &'a [u8],
    rest: &'a [u8],
    before: u32,
    number: u64,
}

impl<'a> Model for TraceLines<'a> {
    ghost use Rattle.std.specs.Prelude.{◌≤◌, ◌+◌, length};
    ghost use Rattle.script_reader.specs.Lines.{pieces_of};
    ghost use Rattle.trace_reader.specs.Knowing.{Knows};
    ghost use Rattle.trace_reader.specs.SoFar.{Left};

    ghost Value = { Left };

    ghost view = { λ l. record {
      script = l.script.now;
      bytes = l.bytes.now;
      texts = pieces_of l.rest.now;
      before = l.before;
      ended = l.ended;
      number = l.number;
    } };

    ghost invariant = { λ l. Knows l.asked l.script.now.lines × (length l.bytes.now ≤ 268435456) × (l.number + length l.rest.now ≤ length l.bytes.now + 1) };
}

impl<'a> TraceLines<'a> {
    /// The lines of a trace's bytes, beside the script of its run. The trace is refused, at line 0 as `Long`, exactly if there are
    /// more than 2^28 bytes. `Memory` says only that there was no memory.
    pub fn new(
        alloc: Global,
        bytes: &'a [u8],
        script: &'a Script,
    ) -> Result<TraceLines<'a>, TraceFault>
        ensures script { IfOk result (λ left. left.script ≡ script.now) }
        ensures bytes { IfOk result (λ left. left.bytes ≡ bytes.now) }
        ensures read { IfOk result (λ left. HasRead left []) }
        ensures err { IfErr result (λ fault. Refuses script.now bytes.now fault) }
    {
        if bytes.len() > LONGEST {
            return Err(TraceFault::Refused {
                line: 0,
                kind: TraceKind::Long,
            });
        }
        let asked = Asked::new(alloc, script)?;
        Ok(TraceLines {
            script,
            asked,
            ended: Ended::new(alloc),
            bytes,
            rest: bytes,
            before: 0,
            number: 1,
        })
    }

    /// The next line, with its text; `None` if no line is left, and then the lines so far are all that the bytes spell. The call
    /// gives the first fault exactly if the bytes spell no trace of the script and the lines so far are those before that fault.
    /// It takes time in proportion to the line.
    pub fn next(&mut self) -> Result<Option<ReadLine<'a>>, TraceFault>
        ensures ok { IfOk result (λ found. Reads self.old self.new found) }
        ensures err { IfErr result (λ fault. (lines : List TraceLine) → HasRead self.old lines → Refuses self.old.script self.old.bytes fault) }
    {
        if self.rest.is_empty() {
            return Ok(None);
        }
        let (text, after) = first_piece(self.rest);
        match judged(self.script, &self.asked, &self.ended, self.before, text) {
            Ok(line) => {
                self.ended.learn(&line)?;
                self.rest = after;
                self.before = line.line();
                self.number += 1;
                Ok(Some(ReadLine { line, text }))
            }
            Err(kind) => Err(TraceFault::Refused {
                line: self.number,
                kind,
            }),
        }
    }
}
