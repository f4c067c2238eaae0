// Where answers are written: what is gathered for their sink, what is counted of them, and the lines of blocks.
ghost use Rattle.std.specs.Prelude.{◌≡◌, ◌≤◌, [], IfOk, replicate, take};
ghost use Rattle.trace_lines.specs.answers.AnswerText.{block_text};
ghost use Rattle.trace_lines.specs.answers.Counting.{Counts, tally_by};
ghost use Rattle.event_player.specs.Saying.{side, Says};

use hp_driver::Subsystem;
use outside_traits::Gather;
use outside_traits::traits::{NoMemory, Sink, SinkFailed};
use std::alloc::Global;
use trace_lines::answers::{BlockLine, FillLine, Tally, write_block};

/// How many bytes of answers are gathered at most.
const ANSWER_ROOM: u32 = 32_768;

/// The text that is gathered for a sink, and the tally of the run so far. Up to 32,768 bytes of answers are gathered before they are
/// sent.
#[derive(Drop)]
pub struct Desk {
    pub gather: Gather,
    pub tally: Tally,
}

impl Desk {
    /// Creates a desk at which nothing is gathered yet, for `requests` requests, none of which is answered. Fails only if there is no
    /// memory for the answers.
    pub fn new(alloc: Global, requests: u64) -> Result<Desk, NoMemory>
        ensures gather { IfOk result (λ desk. desk.gather ≡ []) }
        ensures tally { IfOk result (λ desk. desk.tally ≡ tally_by requests [] []) }
    {
        let gather = Gather::new(alloc, ANSWER_ROOM)?;
        let tally = Tally::new(requests);
        Ok(Desk { gather, tally })
    }

    /// Counts a text, and keeps it. If the text does not fit, all lines are sent first, and then the text that was kept.
    pub fn say<O: Sink, T: Sink>(
        &mut self,
        text: &[u8],
        subsystem: &mut Subsystem,
        out: &mut O,
        trace: &mut T,
    ) -> Result<(), SinkFailed>
        ensures says { Says (side O.tells O.taken O.faults out.old self.old.gather) (side O.tells O.taken O.faults out.new self.new.gather)
            (side T.tells T.taken T.faults trace.old subsystem.old.kept) (side T.tells T.taken T.faults trace.new subsystem.new.kept) result text.now }
        ensures counts { Counts [] text.now self.old.tally self.new.tally }
        ensures requests { self.new.tally.requests ≡ self.old.tally.requests }
        ensures same { subsystem.new ≡ record subsystem.old { kept = subsystem.new.kept } }
    {
        self.tally.count_text(text);
        if self.gather.try_keep(text) {
            return Ok(());
        }
        subsystem.send(trace)?;
        self.gather.put(text, out)
    }

    /// Counts the first `len` bytes, and says them as [`Desk::say`] does.
    pub fn say_short<O: Sink, T: Sink>(
        &mut self,
        text: &[u8; 64],
        len: usize,
        subsystem: &mut Subsystem,
        out: &mut O,
        trace: &mut T,
    ) -> Result<(), SinkFailed>
        requires { len ≤ 64 }
        ensures says { Says (side O.tells O.taken O.faults out.old self.old.gather) (side O.tells O.taken O.faults out.new self.new.gather)
            (side T.tells T.taken T.faults trace.old subsystem.old.kept) (side T.tells T.taken T.faults trace.new subsystem.new.kept) result (take len text.now) }
        ensures counts { Counts [] (take len text.now) self.old.tally self.new.tally }
        ensures requests { self.new.tally.requests ≡ self.old.tally.requests }
        ensures same { subsystem.new ≡ record subsystem.old { kept = subsystem.new.kept } }
    {
        self.tally.count_text(&text.as_slice()[..len]);
        if self.gather.try_keep_short(text, len) {
            return Ok(());
        }
        subsystem.send(trace)?;
        self.gather.put_short(text, len, out)
    }
}

/// The first bytes of a block.
fn front(bytes: &[u8; 512], size: u32) -> &[u8]
    requires { size ≤ 512 }
    ensures { result.now ≡ take size bytes.now }
{
    &bytes.as_slice()[..size as usize]
}

/// Room for a block of 512 bytes and for its line, of either form.
#[derive(Drop)]
pub struct Forms {
    pub block: [u8; 512],
    pub line: BlockLine,
    pub fill: FillLine,
}

impl Forms {
    /// Creates forms on which nothing is written: a block of zeros, and empty lines.
    pub fn new() -> Forms
        ensures block { result.block ≡ replicate 512 0 }
        ensures line { result.line ≡ [] }
        ensures fill { result.fill ≡ [] }
    {
        Forms {
            block: [0; 512],
            line: BlockLine::new(),
            fill: FillLine::new(),
        }
    }

    /// Writes the line of block `k`, which has the first `size` bytes of the block.
    pub fn write_block(&mut self, k: u32, size: u32)
        requires some { 1 ≤ size }
        requires few { size ≤ 512 }
        ensures { self.new.line ≡ block_text k (take size self.old.block) }
    {
        write_block(&mut self.line, k, front(&self.block, size));
    }
}
