// The answers that wait are given to the caller, and taken.
ghost use Rattle.std.specs.Prelude.{◌≡◌, ◌+◌, ◌*◌, ◌==◌, ◌<◌, ◌≤◌, [], if◌then◌else◌, take, slice_index_or};
ghost use Rattle.trace_replay.specs.declared.requests.answers.AnswerKind.TheVariants.{ReadOk};
ghost use Rattle.driver_machine.specs.World.{bytes_in};
ghost use Rattle.driver_machine.specs.Lines.{answer_told};
ghost use Rattle.driver_laws.specs.answers.Waiting.{waiting, all_taken};
ghost use Rattle.blocking_io.specs.Given.{bytes_by, gives_all};
ghost use Rattle.driver_laws.specs.rules.Laid.{laid, laid_at};
ghost use Rattle.blocking_io.specs.Taking.{oldest_blocks, IsOldestKind, HasBlock};

use crate::reached::{Reached, reached_by};
use driver_laws::answers::answers::taken_law;
use hp_driver::{AnswerKind, Subsystem};

/// Lays bytes over others, as far as there is room.
fn lay(bytes: &[u8], into: &mut [u8])
    ensures { into.new ≡ laid bytes.now into.old }
{
    let fits = bytes.len().min(into.len());
    into[..fits].copy_from_slice(&bytes[..fits]);
}

/// Lays the first `size` bytes of a block over others from byte `at` on, as far as there is room.
fn lay_at(block: &[u8; 512], size: u32, at: usize, into: &mut [u8])
    requires { size ≤ 512 }
    ensures { into.new ≡ laid_at at (take size block.now) into.old }
{
    if at < into.len() {
        let (_, rest) = into.split_at_mut(at);
        lay(&block.as_slice()[..size as usize], rest);
    }
}

/// How many bytes block `k` of `count` has, of which the last one has `last`.
fn block_size(k: u32, count: u32, last: u32) -> u32
    requires { k < count }
    ensures { result ≡ (if k + 1 == count then last else 512) }
{
    if k + 1 == count { last } else { 512 }
}

/// Lays block `k`, of `size` bytes, of the read that the oldest answer belongs to over its place in a buffer.
fn give_block(subsystem: &Subsystem, k: u32, size: u32, into: &mut [u8])
    requires block { HasBlock subsystem.now.world k size }
    ensures { into.new ≡ laid_at (512 * k) (slice_index_or (oldest_blocks subsystem.now.world) k []) into.old }
{
    let mut block = [0; 512];
    subsystem.answer_block(k, &mut block);
    lay_at(&block, size, 512 * k as usize, into);
}

/// Gives the blocks of the read that the oldest answer belongs to: `count` of them, the last one with `last` bytes.
fn give_blocks(subsystem: &Subsystem, count: u32, last: u32, into: &mut [u8])
    requires reads { IsOldestKind subsystem.now.world (ReadOk count last) }
    ensures { into.new ≡ laid (bytes_in (oldest_blocks subsystem.now.world)) into.old }
{
    subsystem.law();
    for k in 0..count {
        give_block(subsystem, k, block_size(k, count, last), into);
    }
}

/// Gives the bytes of the oldest answer, if it answers a read.
fn give(subsystem: &Subsystem, kind: AnswerKind, into: &mut [u8])
    requires oldest { IsOldestKind subsystem.now.world kind }
    ensures { into.new ≡ bytes_by (answer_told kind (oldest_blocks subsystem.now.world)) into.old }
{
    match kind {
        AnswerKind::ReadOk { count, last } => give_blocks(subsystem, count, last, into),
        _ => {}
    }
}

/// Gives the answers that wait, the oldest first, and takes them.
pub(crate) fn take_answers(subsystem: &mut Subsystem, reached: &mut Reached, into: &mut [u8])
    ensures given { record { reached = reached.new; bytes = into.new }
        ≡ gives_all (waiting subsystem.old.world) (record { reached = reached.old; bytes = into.old }) }
    ensures taken { subsystem.new ≡ record subsystem.old { world = all_taken subsystem.old.world } }
{
    taken_law();
    while let Some(answer) = subsystem.answer() {
        subsystem.law();
        give(subsystem, answer.kind, into);
        *reached = reached_by(answer.kind);
        subsystem.take_answer();
    }
}
