//! The desk at which the answers of a script of the cache are written: the text that is gathered for their sink, and room for the
//! blocks of a read and for the lines of these blocks.

ghost use Rattle.std.specs.Prelude.{ℕ, ◌≡◌, ◌<◌, ◌≤◌, [], IfOk, OnOk, length, take, slice_index_or};
ghost use Rattle.outside_traits.specs.Puts.{Puts};
ghost use Rattle.outside_traits.specs.Gathers.{Gathers};
ghost use Rattle.trace_lines.specs.answers.AnswerText.{block_text, block_texts};
ghost use Rattle.script_runs.specs.Saying.{rest_text, said_text};

use outside_traits::traits::{NoMemory, Sink, SinkFailed};
use outside_traits::{Gather, gather_law};
use std::alloc::Global;
use trace_lines::answers::{BlockLine, answer_line, write_block};
use trace_replay::requests::AnswerKind;

/// How many bytes of answers are gathered at most.
const ANSWER_ROOM: u32 = 16384;

/// How many blocks a request has at most.
const MOST_BLOCKS: usize = 127;

/// Text that is gathered for a sink, the blocks of a read, and the line of one block.
#[derive(Drop)]
pub struct Desk {
    pub gather: Gather,
    pub blocks: Vec<[u8; 512]>,
    pub line: BlockLine,
}

impl Desk {
    /// Creates a desk at which nothing is gathered yet.
    pub fn new(alloc: Global) -> Result<Desk, NoMemory>
        ensures gather { IfOk result (λ desk. desk.gather ≡ []) }
        ensures blocks { IfOk result (λ desk. length desk.blocks.items ≡ 127) }
    {
        let gather = Gather::new(alloc, ANSWER_ROOM)?;
        let blocks = vec![in alloc; [0; 512]; MOST_BLOCKS]?;
        Ok(Desk {
            gather,
            blocks,
            line: BlockLine::new(),
        })
    }
}

/// Gathers the line of a block at the desk.
fn gather_block<O: Sink>(k: u32, desk: &mut Desk, out: &mut O) -> Result<(), SinkFailed>
    requires { k < length desk.old.blocks.items }
    ensures gathers { Gathers O.tells O.taken O.faults out.old out.new desk.old.gather desk.new.gather result (block_text k (slice_index_or desk.old.blocks.items k [])) }
    ensures blocks { desk.new.blocks ≡ desk.old.blocks }
{
    write_block(&mut desk.line, k, &desk.blocks[k as usize]);
    desk.gather.put(desk.line.as_bytes(), out)
}

/// Gathers the lines of the first `count` blocks at the desk.
fn gather_blocks<O: Sink>(count: u32, desk: &mut Desk, out: &mut O) -> Result<(), SinkFailed>
    requires { count ≤ length desk.old.blocks.items }
    ensures gathers { Gathers O.tells O.taken O.faults out.old out.new desk.old.gather desk.new.gather result (block_texts 0 (take count desk.old.blocks.items)) }
    ensures blocks { desk.new.blocks ≡ desk.old.blocks }
{
    gather_law::<O>();
    for k in 0..count {
        gather_block(k, desk, out)?;
    }
    Ok(())
}

/// Gathers what follows the line of an answer: the blocks of a read.
fn gather_rest<O: Sink>(kind: AnswerKind, desk: &mut Desk, out: &mut O) -> Result<(), SinkFailed>
    requires { (count last : ℕ) → kind ≡ AnswerKind.ReadOk count last → count ≤ length desk.old.blocks.items }
    ensures gathers { Gathers O.tells O.taken O.faults out.old out.new desk.old.gather desk.new.gather result (rest_text kind desk.old.blocks.items) }
    ensures blocks { desk.new.blocks ≡ desk.old.blocks }
{
    gather_law::<O>();
    match kind {
        AnswerKind::ReadOk { count, .. } => gather_blocks(count, desk, out),
        _ => Ok(()),
    }
}

/// Writes the answer to the request with an id, which came at a line. Nothing may be gathered at the desk before the call, and nothing
/// is after Ok.
pub fn write_answer<O: Sink>(
    line: u64,
    id: u32,
    kind: AnswerKind,
    desk: &mut Desk,
    out: &mut O,
) -> Result<(), SinkFailed>
    requires kept { desk.old.gather ≡ [] }
    requires room { (count last : ℕ) → kind ≡ AnswerKind.ReadOk count last → count ≤ length desk.old.blocks.items }
    ensures puts { Puts O.tells O.taken O.faults out.old out.new result (said_text line id kind desk.old.blocks.items) }
    ensures kept { OnOk result (desk.new.gather ≡ []) }
    ensures blocks { desk.new.blocks ≡ desk.old.blocks }
{
    gather_law::<O>();
    let text = answer_line(line, id, kind);
    desk.gather.put(text.as_bytes(), out)?;
    gather_rest(kind, desk, out)?;
    desk.gather.flush(out)
}
