// Requests to two drives are submitted one after another, before any event happens, and then they are drained.
ghost use Rattle.std.specs.Prelude.{◌≡◌, ◌+◌, ◌<◌, ◌≤◌, false, [], length, IfOk, OnOk, IsTrue};
ghost use Rattle.driver_machine.specs.Runs.{NoneOutstanding};
ghost use Rattle.driver_laws.specs.answers.Waiting.{all_taken};
ghost use Rattle.hp_driver.specs.Inputs.{input_of};
ghost use Rattle.hp_driver.specs.Subsystem.{IsThere};
ghost use Rattle.callers.specs.Asking.{MayCall, MayGoOn, GoesOn};

use hp_driver::{AnswerKind, Event, Request, Stop, Subsystem};
use outside_traits::traits::{Packs, Sink};
use partitions::Part;

/// The number of requests that were answered, how many of them were answered ok, and whether no request is outstanding any more.
#[derive(Drop)]
pub struct Tally {
    pub answered: u64,
    pub ok: u64,
    pub over: bool,
}

/// A read of one block of partition `c`: of unit 0 if the id is even, and of unit 1 otherwise.
fn one_block(id: u32, block: u32) -> Request
    ensures id { result.id ≡ id }
    ensures unit { result.unit < 2 }
    ensures count { result.count ≡ 1 }
    ensures last { result.last ≡ 512 }
    ensures offset { result.offset ≡ 0 }
    ensures write { result.write ≡ false }
{
    Request {
        id,
        unit: u8::from(id % 2 == 1),
        part: Part::C,
        block,
        count: 1,
        write: false,
        offset: 0,
        last: 512,
    }
}

/// Counts an answer.
fn count(kind: AnswerKind, tally: &mut Tally) {
    tally.answered = tally.answered.saturating_add(1);
    match kind {
        AnswerKind::ReadOk { .. } | AnswerKind::WriteOk => tally.ok = tally.ok.saturating_add(1),
        _ => {}
    }
}

/// Takes the answers that wait, and counts them.
fn take_answers(subsystem: &mut Subsystem, tally: &mut Tally)
    ensures { subsystem.new ≡ record subsystem.old { world = all_taken subsystem.old.world } }
{
    while let Some(answer) = subsystem.answer() {
        count(answer.kind, tally);
        subsystem.take_answer();
    }
}

/// Submits the read of a block at a line. Requests with all lower ids were submitted before.
fn ask<T: Sink>(
    subsystem: &mut Subsystem,
    line: u64,
    id: u32,
    block: u32,
    tally: &mut Tally,
    trace: &mut T,
) -> Result<(), Stop>
    requires may { MayGoOn id subsystem.old }
    requires room { id < subsystem.old.outstanding }
    ensures may { OnOk result (MayGoOn (id + 1) subsystem.new) }
    ensures outstanding { subsystem.new.outstanding ≡ subsystem.old.outstanding }
{
    subsystem.law();
    match subsystem.submit(line, one_block(id, block), &[], trace) {
        Ok(()) => {
            take_answers(subsystem, tally);
            Ok(())
        }
        Err(_) => Err(Stop::Sink),
    }
}

/// Lets an event happen at a line.
fn happen<P: Packs, T: Sink>(
    subsystem: &mut Subsystem,
    line: u64,
    event: Event,
    tally: &mut Tally,
    packs: &mut P,
    trace: &mut T,
) -> Result<(), Stop>
    requires may { MayCall subsystem.old }
    requires there { IsThere subsystem.old.world (input_of event) }
    ensures goes { OnOk result (GoesOn subsystem.old subsystem.new) }
{
    subsystem.law();
    subsystem.event(line, event, packs, trace)?;
    take_answers(subsystem, tally);
    Ok(())
}

/// Lets events happen until no request is outstanding, and answers `true` then. The loop needs no measure, since it counts to 2^64 - 1.
/// No drain gets that far, since each event of `next_event` leaves fewer lines to come, at most 200 for each block.
pub fn drain<P: Packs, T: Sink>(
    subsystem: &mut Subsystem,
    line: u64,
    tally: &mut Tally,
    packs: &mut P,
    trace: &mut T,
) -> Result<bool, Stop>
    requires may { MayCall subsystem.old }
    ensures goes { OnOk result (GoesOn subsystem.old subsystem.new) }
    ensures over { IfOk result (λ over. IsTrue over → NoneOutstanding subsystem.new.world) }
{
    for _ in 0..u64::MAX {
        let Some(event) = subsystem.next_event() else {
            return Ok(true);
        };
        happen(subsystem, line, event, tally, packs, trace)?;
    }
    Ok(false)
}

/// Reads a block for each of these numbers, from unit 0 and unit 1 in turn. All requests are outstanding at once, so the drives seek at
/// the same time, and each drive serves its requests in the order of their cylinders.
pub fn read_from_both<P: Packs, T: Sink>(
    subsystem: &mut Subsystem,
    blocks: &[u32],
    packs: &mut P,
    trace: &mut T,
) -> Result<Tally, Stop>
    requires may { MayGoOn 0 subsystem.old }
    requires room { length blocks.now ≤ subsystem.old.outstanding }
    requires few { subsystem.old.outstanding ≤ 65536 }
    ensures may { OnOk result (MayCall subsystem.new) }
    ensures over { IfOk result (λ tally. IsTrue tally.over → NoneOutstanding subsystem.new.world) }
{
    let mut tally = Tally {
        answered: 0,
        ok: 0,
        over: false,
    };
    for i in 0..blocks.len() {
        ask(subsystem, 1, i as u32, blocks[i], &mut tally, trace)?;
    }
    let over = drain(subsystem, 2, &mut tally, packs, trace)?;
    tally.over = over;
    match subsystem.send(trace) {
        Ok(()) => Ok(tally),
        Err(_) => Err(Stop::Sink),
    }
}
