// What is done for the request in hand of a unit.
ghost use Rattle.std.specs.Prelude.{◌≡◌};
ghost use Rattle.hardware_table.specs.Adapter.{AdapterState};
ghost use Rattle.driver_machine.specs.World.{UnitView, Held};
ghost use Rattle.driver_machine.specs.Lines.{deed_told, step_told};
ghost use Rattle.trace_replay.specs.requests.Requests.{Answer};
ghost use Rattle.trace_lines.specs.Deeds.{deed_of};
ghost use Rattle.hp_core.specs.Deeds.{deed_in, answer_by, told_by};

use driver_machine::{AnswerKind, RetryStep};
use hardware_table::Moved;
use pack_geometry::Place;
use trace_lines::Told;
use transfer_engine::Segment;

/// What the driver does for the request in hand of a unit. `moved` sectors of its segment moved clean before.
#[derive(Clone, Copy)]
pub enum Deed {
    /// The positioning of the drive ends.
    Arrive,
    /// The attention of the drive is taken, after `taken` steps of a retry.
    Attend {
        taken: u32,
    },
    /// The data interrupt is taken. The adapter is then free, and the request has its buffer back. The registers of the drive and the
    /// adapter decide what comes next.
    Interrupt,
    /// SEARCH for the place of the request's first block. It ends at a sector.
    Search {
        target: Place,
        sector: u32,
    },
    /// RECAL, SEEK or OFFSET, the last one of `taken` steps of a retry.
    Step {
        step: RetryStep,
        taken: u32,
    },
    /// RCOM or WCOM for a segment, and the adapter's start.
    Transfer {
        write: bool,
        segment: Segment,
    },
    /// PACK.
    Pack,
    /// DCLR. The verdict is judged after it.
    Clear {
        moved: u32,
        verdict: Moved,
    },
    /// RTC.
    Centre,
    /// The unit is ready with the transfer that it has.
    Ready,
    /// The unit is ready with a new transfer: the first one of the request.
    Begin,
    /// The next block is repaired in the buffer of the request.
    Repair {
        moved: u32,
        at: u16,
        pattern: u16,
    },
    /// The replacement of the next sector comes next: that of entry `index` of the pack's table.
    Forward {
        moved: u32,
        index: u8,
    },
    /// The blocks that follow come next.
    Continue {
        moved: u32,
    },
    /// A try at the next sector failed, at this block, where that many tries have failed now. The next try is then due; if this one was
    /// the last, the end of the request is due.
    Try {
        moved: u32,
        block: u32,
        failures: u32,
    },
    /// The request ends. Its answer waits until it is taken.
    End {
        kind: AnswerKind,
    },
}

/// What is told of a step of a retry.
fn told_step(step: RetryStep) -> Told
    ensures { (answer : Answer) → deed_of answer result ≡ step_told step }
{
    match step {
        RetryStep::Recalibrate => Told::Recal,
        RetryStep::Seek { cylinder } => Told::Seek { cylinder },
        RetryStep::Offset { code } => Told::Offset { code },
    }
}

/// What is told of a deed. None if it has no line.
pub(crate) fn told_of(deed: Deed) -> Option<Told>
    ensures { (v : UnitView) → (h : Held) → (a : AdapterState) → deed_told h (deed_in deed v h a) ≡ told_by (answer_by deed h) result }
{
    match deed {
        Deed::Arrive => Some(Told::Arrive),
        Deed::Attend { .. } => Some(Told::Attn),
        Deed::Interrupt => Some(Told::Intr),
        Deed::Search { target, sector } => Some(Told::Search {
            cylinder: target.cylinder,
            sector,
        }),
        Deed::Step { step, .. } => Some(told_step(step)),
        Deed::Transfer { write, segment } => Some(Told::Transfer {
            write,
            block: segment.block,
            count: segment.count,
        }),
        Deed::Pack => Some(Told::Pack),
        Deed::Clear { .. } => Some(Told::Clear),
        Deed::Centre => Some(Told::Centre),
        Deed::Ready | Deed::Begin => None,
        Deed::Repair { .. } | Deed::Forward { .. } | Deed::Continue { .. } => None,
        Deed::Try {
            block,
            failures,
            ..
        } => Some(Told::Try { block, failures }),
        Deed::End { .. } => Some(Told::End),
    }
}
