// A submission, over the core.
ghost use Rattle.std.specs.Prelude.{◌≡◌, ◌<◌, ◌≤◌, [], length, Some, IfOk, IfErr};
ghost use Rattle.main_memory.specs.Blocks.{IsShape};
ghost use Rattle.driver_machine.specs.Events.{refusal_of};
ghost use Rattle.hp_driver.specs.Subsystem.{asked};
ghost use Rattle.hp_driver.specs.Calls.{Stands, MayAsk, IsAdmitted, asked_at, Asks};

use crate::submission;
use driver_laws::answers::outcome::Stop;
use driver_machine::{AnswerKind, Cause};
use hp_core::{Asked, Core, frames_for};
use main_memory::FRAMES;
use outside_traits::traits::Sink;
use partitions::{Admission, admit};
use trace_replay::requests::Request;

/// The first block of a request on its pack, or how it is refused: outside its partition, at its very end, or for want of frames.
fn admitted(core: &Core, request: Request) -> Result<u32, AnswerKind>
    requires unit { request.unit < length core.now.world.units }
    requires shape { IsShape request.count request.offset request.last }
    requires used { core.now.world.frames ≤ 16384 }
    ensures joins { IfOk result (IsAdmitted core.now.world request) }
    ensures refused { IfErr result (λ kind. refusal_of (asked request []) core.now.world ≡ Some kind) }
{
    match admit(
        core.unit(request.unit).kind(),
        request.part,
        request.block,
        request.count,
    ) {
        Admission::Outside => Err(AnswerKind::Error {
            cause: Cause::Partition,
            done: 0,
        }),
        Admission::Eof => Err(AnswerKind::Eof),
        Admission::Inside { first } => {
            let frames = frames_for(request.count, request.offset, request.last);
            if core.frames() + frames > FRAMES {
                Err(AnswerKind::Error {
                    cause: Cause::Frames,
                    done: 0,
                })
            } else {
                Ok(first)
            }
        }
    }
}

/// What a request asks, with its first block on its pack.
fn asked_from(request: Request, first: u32) -> Asked
    ensures { result ≡ asked_at request first }
{
    Asked {
        id: request.id,
        unit: request.unit,
        first,
        count: request.count,
        last: request.last,
        write: request.write,
        offset: request.offset,
    }
}

/// A request joins in a free slot, of which there is one, from this block of its pack on.
fn join<T: Sink>(
    core: &mut Core,
    line: u64,
    request: Request,
    first: u32,
    bytes: &[u8],
    trace: &mut T,
) -> Result<(), Stop>
    requires stands { Stands core.old }
    requires none_waits { core.old.world.answers ≡ [] }
    requires may { MayAsk core.old.world request bytes.now }
    requires admitted { IsAdmitted core.old.world request first }
    ensures { Asks T.tells T.taken T.faults trace.old trace.new core.old core.new result line (asked request bytes.now) }
{
    let asked = asked_from(request, first);
    submission::join(core, line, asked, bytes, trace)
}

/// A request is submitted: it is refused, or joins in a free slot.
pub(crate) fn submit<T: Sink>(
    core: &mut Core,
    line: u64,
    request: Request,
    bytes: &[u8],
    trace: &mut T,
) -> Result<(), Stop>
    requires stands { Stands core.old }
    requires none_waits { core.old.world.answers ≡ [] }
    requires may { MayAsk core.old.world request bytes.now }
    ensures { Asks T.tells T.taken T.faults trace.old trace.new core.old core.new result line (asked request bytes.now) }
{
    match admitted(core, request) {
        Ok(first) => join(core, line, request, first, bytes, trace),
        Err(kind) => submission::refuse(core, line, request.unit, request.id, kind, trace),
    }
}
