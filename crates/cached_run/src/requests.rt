// What a line asks for: its blocks go through the cache, one by one in rising order.
ghost use Rattle.std.specs.Prelude.{◌≡◌, ◌+◌, ◌≤◌, ℕ, Some, option_map, IfOk, length};
ghost use Rattle.pack_geometry.specs.Geometry.{limit_of};
ghost use Rattle.partitions.specs.Partitions.{admission, first_of};
ghost use Rattle.buffer_cache.specs.Passes.{kind_at};
ghost use Rattle.script_reader.specs.cached.Meaning.{one_filled};
ghost use Rattle.cached_run.specs.Lines.{MayAsk};
ghost use Rattle.cached_run.specs.Saying.{kind_by, GivesAmong};
ghost use Rattle.cached_run.specs.Places.{Answers, MayAnswer, MayMove, MovesAll, asked_with, whole_by, world_at};

use crate::scene::Scene;
use buffer_cache::{CacheFault, Stop};
use partitions::{Admission, Part, admit};
use script_reader::cached::Asked;
use trace_replay::requests::{AnswerKind, Cause};

/// Reads `count` blocks of a unit, one after another, or writes the same bytes to each. Answers how many come before the first one that
/// can't be used.
fn move_blocks<S: Scene>(
    scene: &mut S,
    line: u64,
    unit: u8,
    first: u32,
    count: u32,
    written: &Option<[u8; 512]>,
    blocks: &mut Vec<[u8; 512]>,
) -> Result<u32, Stop>
    requires may { MayMove line unit first count (S.at scene.old) }
    requires room { count ≤ length blocks.old.items }
    ensures moves { MovesAll line unit first count written.now blocks.new.items result (S.at scene.old) (S.at scene.new) }
    ensures room { length blocks.new.items ≡ length blocks.old.items }
    ensures loans { S.loans scene.new ≡ S.loans scene.old }
{
    for k in 0..count {
        match scene.touch(line, unit, first + k, written, &mut blocks[k as usize]) {
            Ok(()) => {}
            Err(CacheFault::Unusable) => return Ok(k),
            Err(CacheFault::Stop(stop)) => return Err(stop),
        }
    }
    Ok(count)
}

/// The answer to a request of which `done` of `count` blocks were done. A write has a byte for its blocks.
fn answered(done: u32, count: u32, fill: Option<u8>) -> AnswerKind
    ensures { result ≡ kind_by done count (whole_by fill count) }
{
    if done < count {
        return AnswerKind::Error {
            cause: Cause::Unforwarded,
            done,
        };
    }
    match fill {
        None => AnswerKind::ReadOk { count, last: 512 },
        Some(_) => AnswerKind::WriteOk,
    }
}

/// What a request meets at partition `c` of its unit.
fn met<S: Scene>(scene: &S, asked: &Asked) -> Admission
    requires { MayAsk (world_at (S.at scene.now)) asked.now }
    ensures met { result ≡ admission (kind_at (world_at (S.at scene.now)) asked.now.unit) Part.C asked.now.block asked.now.count }
    ensures first { (first : ℕ) → result ≡ Admission.Inside first → first ≡ first_of (kind_at (world_at (S.at scene.now)) asked.now.unit) Part.C + asked.now.block }
    ensures inside { (first : ℕ) → result ≡ Admission.Inside first → first + asked.now.count ≤ limit_of (kind_at (world_at (S.at scene.now)) asked.now.unit) }
{
    admit(
        scene.kind(asked.unit),
        Part::C,
        asked.block,
        u32::from(asked.count),
    )
}

/// A block all of whose bytes are this one, if there is one.
#[tactic(auto, unfolding(script_reader::specs::cached::Meaning::one_filled))]
fn filled_block(fill: Option<u8>) -> Option<[u8; 512]>
    ensures { result ≡ option_map one_filled fill }
{
    match fill {
        None => None,
        Some(fill) => Some([fill; 512]),
    }
}

/// Reads what a line asks for, or writes blocks all of whose bytes are one: how the request is answered.
pub(crate) fn answer<S: Scene>(
    scene: &mut S,
    line: u64,
    asked: &Asked,
    fill: Option<u8>,
    blocks: &mut Vec<[u8; 512]>,
) -> Result<AnswerKind, Stop>
    requires may { MayAnswer line asked.now (S.at scene.old) }
    requires room { length blocks.old.items ≡ 127 }
    ensures answers { Answers line (asked_with asked.now fill) blocks.new.items result (S.at scene.old) (S.at scene.new) }
    ensures among { IfOk result (λ kind. GivesAmong kind blocks.new.items) }
    ensures room { length blocks.new.items ≡ 127 }
    ensures loans { S.loans scene.new ≡ S.loans scene.old }
{
    let count = u32::from(asked.count);
    match met(scene, asked) {
        Admission::Outside => Ok(AnswerKind::Error {
            cause: Cause::Partition,
            done: 0,
        }),
        Admission::Eof => Ok(AnswerKind::Eof),
        Admission::Inside { first } => {
            let written = filled_block(fill);
            let done = move_blocks(scene, line, asked.unit, first, count, &written, blocks)?;
            Ok(answered(done, count, fill))
        }
    }
}
