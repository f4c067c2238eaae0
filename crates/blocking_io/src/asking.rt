// A request is submitted, drained, and its answer given.
ghost use Rattle.std.specs.Prelude.{◌≡◌, ◌≤◌, ℕ, [], Bool, false, if◌then◌else◌, IsTrue, IfErr, OnOk};
ghost use Rattle.pack_geometry.specs.Pack.{Pack};
ghost use Rattle.outside_traits.specs.Causes.{HasCause};
ghost use Rattle.trace_replay.specs.Moments.{Idle};
ghost use Rattle.trace_replay.specs.Text.{moment_text};
ghost use Rattle.driver_laws.specs.answers.Outcome.{IsFront, stop_in};
ghost use Rattle.hp_driver.specs.Passes.{HasCauses};
ghost use Rattle.hp_driver.specs.Inputs.{input_of};
ghost use Rattle.hp_driver.specs.Subsystem.{asked, IsAsked, IsThere, writes_by};
ghost use Rattle.blocking_io.specs.Calls.{stage, telling, GivesSubmission, GivesEvent, SubmissionStops, EventStops, SaysText, SendsRest};
ghost use Rattle.blocking_io.specs.Asking.{MayAsk};
ghost use Rattle.blocking_io.specs.Spots.{Waits, spot};

use crate::answers::take_answers;
use crate::reached::Reached;
use driver_laws::rules::promises::beginnings_law;
use driver_laws::shown::runs::next_block_law;
use hp_driver::{Event, Request, Stop, Subsystem};
use outside_traits::traits::{Packs, Sink};
use outside_traits::whole::write_all;
use trace_lines::idle;

/// Submits a request at a line, with the bytes of a write. Its lines are kept.
fn submit<T: Sink>(
    subsystem: &mut Subsystem,
    line: u64,
    request: Request,
    from: &[u8],
    reached: &mut Reached,
    into: &mut [u8],
    trace: &mut T,
) -> Result<(), Stop>
    requires going { subsystem.old.failed ≡ false }
    requires none_waits { subsystem.old.world.answers ≡ [] }
    requires asked { IsAsked subsystem.old request from.now }
    requires sent { subsystem.old.kept ≡ [] }
    ensures gives { OnOk result ((tells : Bool) → (held : ℕ → Pack) → GivesSubmission line (asked request from.now)
        (stage (λ _. tells) (λ _. held) T.tells T.taken subsystem.old.world line trace.old reached.old into.old)
        (telling (λ _. tells) (λ _. held) T.tells T.taken subsystem.new line trace.new reached.new into.new)) }
    ensures stops { IfErr result (λ stop. (tells : Bool) → (held : ℕ → Pack) → SubmissionStops stop line (asked request from.now)
        (stage (λ _. tells) (λ _. held) T.tells T.taken subsystem.old.world line trace.old reached.old into.old)
        (stage (λ _. tells) (λ _. held) T.tells T.taken subsystem.new.world line trace.new reached.new into.new)) }
    ensures going { OnOk result (subsystem.new.failed ≡ false) }
    ensures sent { OnOk result (IsTrue (T.tells trace.new) → IsFront (T.taken trace.old) (T.taken trace.new)) }
    ensures outstanding { subsystem.new.outstanding ≡ subsystem.old.outstanding }
    ensures never_again { IsTrue (T.tells trace.new) → IsTrue (T.tells trace.old) }
    ensures cause { HasCause (T.faults trace.old) (T.faults trace.new) result }
{
    match subsystem.submit(line, request, from, trace) {
        Ok(()) => {
            take_answers(subsystem, reached, into);
            Ok(())
        }
        Err(_) => Err(Stop::Sink),
    }
}

/// Sends the lines that are kept.
fn send<T: Sink>(subsystem: &mut Subsystem, trace: &mut T) -> Result<(), Stop>
    ensures says { SaysText T.tells T.taken trace.old trace.new result subsystem.old.kept }
    ensures same { subsystem.new ≡ record subsystem.old { kept = [] } }
    ensures cause { HasCause (T.faults trace.old) (T.faults trace.new) result }
{
    match subsystem.send(trace) {
        Ok(()) => Ok(()),
        Err(_) => Err(Stop::Sink),
    }
}

/// Whether an event may write a block.
fn may_write(subsystem: &Subsystem, event: &Event) -> bool
    requires there { IsThere subsystem.now.world (input_of event.now) }
    ensures { result ≡ writes_by subsystem.now.world (input_of event.now) }
{
    match event {
        Event::Move { adapter } => subsystem.writes(*adapter),
        _ => false,
    }
}

/// Sends the lines that are kept before an event that may write a block.
fn send_ahead<T: Sink>(subsystem: &mut Subsystem, writes: bool, trace: &mut T) -> Result<(), Stop>
    ensures says { SaysText T.tells T.taken trace.old trace.new result (if writes then subsystem.old.kept else []) }
    ensures same { subsystem.new ≡ record subsystem.old { kept = if writes then [] else subsystem.old.kept } }
    ensures cause { HasCause (T.faults trace.old) (T.faults trace.new) result }
{
    if writes {
        send(subsystem, trace)
    } else {
        Ok(())
    }
}

/// Sends the lines that are kept if the packs failed at an event that writes nothing. If the trace fails too, the answer says that.
fn send_behind<T: Sink>(subsystem: &mut Subsystem, writes: bool, trace: &mut T) -> Stop
    ensures sends { SendsRest T.tells T.taken T.faults trace.old trace.new writes subsystem.old.kept result }
    ensures same { subsystem.new ≡ record subsystem.old { kept = if writes then subsystem.old.kept else [] } }
{
    if writes {
        return Stop::Store;
    }
    match subsystem.send(trace) {
        Ok(()) => Stop::Store,
        Err(_) => Stop::Sink,
    }
}

/// An event happens at a line. Its lines are kept. Earlier lines are sent before the event if it may write a block, and after it if the
/// packs failed.
fn happen<P: Packs, T: Sink>(
    subsystem: &mut Subsystem,
    line: u64,
    event: Event,
    reached: &mut Reached,
    into: &mut [u8],
    packs: &mut P,
    trace: &mut T,
) -> Result<(), Stop>
    requires going { subsystem.old.failed ≡ false }
    requires none_waits { subsystem.old.world.answers ≡ [] }
    requires there { IsThere subsystem.old.world (input_of event) }
    ensures gives { OnOk result (GivesEvent line (input_of event)
        (telling P.tells P.held T.tells T.taken subsystem.old packs.old trace.old reached.old into.old)
        (telling P.tells P.held T.tells T.taken subsystem.new packs.new trace.new reached.new into.new)) }
    ensures stops { IfErr result (λ stop. EventStops stop (T.taken trace.old) line (input_of event)
        (telling P.tells P.held T.tells T.taken subsystem.old packs.old trace.old reached.old into.old)
        (stage P.tells P.held T.tells T.taken subsystem.new.world packs.new trace.new reached.new into.new)) }
    ensures going { OnOk result (subsystem.new.failed ≡ false) }
    ensures sent { OnOk result (IsTrue (T.tells trace.new) → IsFront (T.taken trace.old) (T.taken trace.new)) }
    ensures outstanding { subsystem.new.outstanding ≡ subsystem.old.outstanding }
    ensures never_again { IsTrue (P.tells packs.new) → IsTrue (P.tells packs.old) }
    ensures never_again_trace { IsTrue (T.tells trace.new) → IsTrue (T.tells trace.old) }
    ensures causes { HasCauses (P.faults packs.old) (P.faults packs.new) (T.faults trace.old) (T.faults trace.new) (stop_in result) }
{
    subsystem.law();
    let writes = may_write(subsystem, &event);
    send_ahead(subsystem, writes, trace)?;
    match subsystem.event(line, event, packs, trace) {
        Ok(()) => {
            take_answers(subsystem, reached, into);
            Ok(())
        }
        Err(Stop::Sink) => Err(Stop::Sink),
        Err(Stop::Store) => Err(send_behind(subsystem, writes, trace)),
    }
}

/// Says that a drain found nothing to do.
fn say_idle<T: Sink>(line: u64, trace: &mut T) -> Result<(), Stop>
    ensures says { SaysText T.tells T.taken trace.old trace.new result (moment_text (Idle line)) }
    ensures cause { HasCause (T.faults trace.old) (T.faults trace.new) result }
{
    match write_all(trace, idle(line).as_bytes()) {
        Ok(()) => Ok(()),
        Err(_) => Err(Stop::Sink),
    }
}

/// Submits a request at a line, with the bytes if it is a write; drains it; and gives and takes its answer. This ends, however the
/// packs answer.
fn ask<P: Packs, T: Sink>(
    subsystem: &mut Subsystem,
    line: u64,
    request: Request,
    from: &[u8],
    into: &mut [u8],
    packs: &mut P,
    trace: &mut T,
) -> Result<Reached, Stop>
    requires line { 1 ≤ line }
    requires may { MayAsk subsystem.old request from.now }
    ensures { Waits line (asked request from.now) into.old into.new result
        (spot P.tells P.held P.faults T.tells T.taken T.faults subsystem.old packs.old trace.old)
        (spot P.tells P.held P.faults T.tells T.taken T.faults subsystem.new packs.new trace.new) }
{
    beginnings_law();
    next_block_law();
    subsystem.law();
    let mut reached = Reached::Before { done: 0 };
    submit(subsystem, line, request, from, &mut reached, into, trace)?;
    subsystem.law();
    let Some(first) = subsystem.next_event() else {
        send(subsystem, trace)?;
        say_idle(line, trace)?;
        return Ok(reached);
    };
    happen(subsystem, line, first, &mut reached, into, packs, trace)?;
    for turn in 0..u64::MAX {
        subsystem.law();
        let Some(event) = subsystem.next_event() else {
            send(subsystem, trace)?;
            return Ok(reached);
        };
        happen(subsystem, line, event, &mut reached, into, packs, trace)?;
    }
    unreachable!()
}

/// Reads the blocks of a request into a buffer, at a line from 1 on: submits the request to a ready driver, drains it, and gives what
/// was answered. The driver is ready again afterwards. The rest applies if the packs tell what they hold, and if the driver's tables
/// are theirs. If all blocks can be used, all of them were read, and the buffer has their bytes, as far as it has room. Otherwise only
/// the blocks before the first one that can't be used were read, and the buffer stays as it was. The buffer also stays as it was if the
/// partition refuses the request. The packs hold what they held.
///
/// `Store` comes only if the packs' count of faults rose, and `Sink` only if the trace's did. The trace then took a front of the lines,
/// and the packs are as these lines leave them. No call may follow, and nothing is said about the buffer.
pub fn ask_read<P: Packs, T: Sink>(
    subsystem: &mut Subsystem,
    line: u64,
    request: Request,
    into: &mut [u8],
    packs: &mut P,
    trace: &mut T,
) -> Result<Reached, Stop>
    requires line { 1 ≤ line }
    requires reads { request.write ≡ false }
    requires may { MayAsk subsystem.old request [] }
    ensures { Waits line (asked request []) into.old into.new result
        (spot P.tells P.held P.faults T.tells T.taken T.faults subsystem.old packs.old trace.old)
        (spot P.tells P.held P.faults T.tells T.taken T.faults subsystem.new packs.new trace.new) }
{
    ask(subsystem, line, request, &[], into, packs, trace)
}

/// Writes the blocks of a request, at a line from 1 on: submits the request to a ready driver, drains it, and takes the answer. The
/// driver is ready again afterwards. The rest applies if the packs tell what they hold, and if the driver's tables are theirs. If all
/// blocks can be used, all of them were replaced. Otherwise only the blocks before the first one that can't be used were. If the
/// partition refuses the request, no block was replaced. Nothing else changed.
///
/// `Store` comes only if the packs' count of faults rose, and `Sink` only if the trace's did. The trace then took a front of the lines,
/// and the packs are as these lines leave them; after `Store` they may also have the next block of the write. No call may follow.
pub fn ask_write<P: Packs, T: Sink>(
    subsystem: &mut Subsystem,
    line: u64,
    request: Request,
    from: &[u8],
    packs: &mut P,
    trace: &mut T,
) -> Result<Reached, Stop>
    requires line { 1 ≤ line }
    requires may { MayAsk subsystem.old request from.now }
    ensures { Waits line (asked request from.now) [] [] result
        (spot P.tells P.held P.faults T.tells T.taken T.faults subsystem.old packs.old trace.old)
        (spot P.tells P.held P.faults T.tells T.taken T.faults subsystem.new packs.new trace.new) }
{
    let mut none = [];
    ask(subsystem, line, request, from, &mut none, packs, trace)
}
