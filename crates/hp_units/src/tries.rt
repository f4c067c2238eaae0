// What a unit asks of the transfer of the request in hand.
ghost use Rattle.std.specs.Prelude.{◌≡◌, ◌<◌, ◌≤◌, ◌+◌, ◌∷◌, [], drop, slice_get, IfSome, IfNone, Option, unwrap_or};
ghost use Rattle.std.specs.Option.{option_map};
ghost use Rattle.pack_geometry.specs.Geometry.{block_count, place_at};
ghost use Rattle.pack_geometry.specs.Homes.{index_in};
ghost use Rattle.transfer_engine.specs.State.{segment_of, moved_on, forwarded, failures_after};
ghost use Rattle.transfer_engine.specs.Calls.{state_of, entry_for, step_for, next_at};
ghost use Rattle.trace_replay.specs.Schedule.{step_after};
ghost use Rattle.driver_machine.specs.World.{no_transfer};
ghost use Rattle.driver_machine.specs.Acts.{transfer_tried};
ghost use Rattle.driver_machine.specs.Due.{steps_of, steps_for, offset_steps, seek_steps, task_for};

use bad144_table::{BadTable, position};
use drive_registers::OffsetCode;
use driver_machine::{RetryStep, Task};
use pack_geometry::{DriveKind, data_limit, place_of};
use trace_replay::retry_offsets::{Step, next_step};
use transfer_engine::{Next, Transfer};

/// What follows the failures at the sector at hand. If there was none, the transfer comes at once.
fn step_behind(failures: u32, reads: bool) -> Step
    requires { failures ≤ 27 }
    ensures { result ≡ step_after failures reads }
{
    if failures == 0 {
        return Step::Again;
    }
    next_step(failures, reads)
}

/// Step `n` of those that are left when the heads are on the cylinder: OFFSET, if a code is given.
fn offset_at(code: Option<OffsetCode>, n: u32) -> Option<RetryStep>
    ensures { result ≡ slice_get (offset_steps code) n }
{
    match code {
        Some(code) if n == 0 => Some(RetryStep::Offset { code }),
        _ => None,
    }
}

/// Step `n` of those that come after RECAL: SEEK, except to cylinder 0, and then the offset.
fn seek_at(cylinder: u32, code: Option<OffsetCode>, n: u32) -> Option<RetryStep>
    ensures { result ≡ slice_get (seek_steps cylinder (offset_steps code)) n }
{
    if cylinder == 0 {
        offset_at(code, n)
    } else if n == 0 {
        Some(RetryStep::Seek { cylinder })
    } else {
        offset_at(code, n - 1)
    }
}

/// Step `n` of a retry at a sector of this cylinder.
fn step_at(cylinder: u32, step: Step, n: u32) -> Option<RetryStep>
    ensures { result ≡ slice_get (steps_for cylinder step) n }
{
    match step {
        Step::Again | Step::GiveUp => None,
        Step::Offset(code) => offset_at(Some(code), n),
        Step::Recalibrate(code) => {
            if n == 0 {
                Some(RetryStep::Recalibrate)
            } else {
                seek_at(cylinder, code, n - 1)
            }
        }
    }
}

/// The next step of a retry, after `taken` steps. None if all steps are taken.
pub(crate) fn step_in(
    transfer: &Option<Transfer>,
    kind: DriveKind,
    write: bool,
    taken: u32,
) -> Option<RetryStep>
    requires kind { (unwrap_or (option_map state_of transfer.now) no_transfer).job.kind ≡ kind }
    requires write { (unwrap_or (option_map state_of transfer.now) no_transfer).job.write ≡ write }
    ensures some { IfSome result (λ step. drop taken (steps_of (unwrap_or (option_map state_of transfer.now) no_transfer))
        ≡ step ∷ drop (taken + 1) (steps_of (unwrap_or (option_map state_of transfer.now) no_transfer))) }
    ensures none { IfNone result (drop taken (steps_of (unwrap_or (option_map state_of transfer.now) no_transfer)) ≡ []) }
{
    match transfer {
        Some(transfer) => {
            let cylinder = cylinder_of(transfer, kind);
            let step = step_behind(transfer.failures(), !write);
            step_at(cylinder, step, taken)
        }
        None => None,
    }
}

/// The cylinder with which the segment begins.
fn cylinder_of(transfer: &Transfer, kind: DriveKind) -> u32
    requires { (state_of transfer.now).job.kind ≡ kind }
    ensures { result ≡ (place_at (state_of transfer.now).job.kind (segment_of (state_of transfer.now)).block).cylinder }
{
    place_of(kind, transfer.segment().block).cylinder
}

/// The entry whose replacement takes the place of the sector behind `moved` others. None if the sector is itself a
/// replacement, as those lie at or above the data limit, or if its place is not listed.
pub(crate) fn listed(
    transfer: &Transfer,
    table: &Option<BadTable>,
    kind: DriveKind,
    moved: u32,
) -> Option<u8>
    requires kind { (state_of transfer.now).job.kind ≡ kind }
    requires moved { moved < (segment_of (state_of transfer.now)).count }
    ensures { result ≡ entry_for moved table.now (state_of transfer.now) }
{
    let block = transfer.segment().block;
    if block >= data_limit(kind) {
        return None;
    }
    listed_at(table, kind, block + moved)
}

/// The index at which a block is listed.
fn listed_at(table: &Option<BadTable>, kind: DriveKind, block: u32) -> Option<u8>
    requires { block < block_count kind }
    ensures { result ≡ index_in table.now (place_at kind block) }
{
    position(table.as_ref()?, place_of(kind, block))
}

/// The transfer at the replacement of an entry.
pub(crate) fn forwarded_to(
    transfer: Transfer,
    moved: u32,
    table: &Option<BadTable>,
    index: u8,
) -> Transfer
    requires moved { moved < (segment_of (state_of transfer)).count }
    requires entry { entry_for moved table.now (state_of transfer) ≡ Some index }
    ensures { state_of result ≡ forwarded moved index (state_of transfer) }
{
    match transfer.on_bad_sector(moved, table.as_ref()) {
        Ok(forwarded) => Transfer::Forwarded(forwarded),
        Err(_) => unreachable!(),
    }
}

/// What comes when `moved` sectors of the segment are done. The last of them may have been repaired.
fn next_behind(transfer: Transfer, moved: u32) -> Next
    requires some { 1 ≤ moved }
    requires moved { moved ≤ (segment_of (state_of transfer)).count }
    ensures { result ≡ next_at ((state_of transfer).done + moved) (state_of transfer) }
{
    if moved == transfer.segment().count {
        transfer.on_done()
    } else {
        transfer.on_corrected(moved - 1)
    }
}

/// The transfer of the blocks behind the `moved` ones that are done.
pub(crate) fn continued(transfer: Transfer, moved: u32) -> Transfer
    requires some { 1 ≤ moved }
    requires moved { moved ≤ (segment_of (state_of transfer)).count }
    requires left { (state_of transfer).done + moved < (state_of transfer).job.count }
    ensures { state_of result ≡ moved_on ((state_of transfer).done + moved) (state_of transfer) }
{
    match next_behind(transfer, moved) {
        Next::More(continued) => Transfer::Continued(continued),
        Next::Finished => unreachable!(),
    }
}

/// The block of the sector behind `moved` others, and how many tries at it failed, counting one more failure.
pub(crate) fn failing(transfer: &Transfer, moved: u32) -> (u32, u32)
    requires moved { moved < (segment_of (state_of transfer.now)).count }
    ensures block { result.0 ≡ (segment_of (state_of transfer.now)).block + moved }
    ensures failures { result.1 ≡ failures_after moved (state_of transfer.now).failures }
{
    let block = transfer.segment().block + moved;
    if moved == 0 {
        (block, transfer.failures() + 1)
    } else {
        (block, 1)
    }
}

/// The task that a step of the schedule calls for when `done` blocks are done.
fn task_of(step: Step, done: u32) -> Task
    ensures { result ≡ task_for step done }
{
    match step {
        Step::Again => Task::Command,
        Step::Offset(_) | Step::Recalibrate(_) => Task::Steps { taken: 0 },
        Step::GiveUp => Task::GiveUp { done },
    }
}

/// A try failed at the sector behind `moved` others. Gives the transfer of the next try, unless the try was the last one, and what comes next.
pub(crate) fn tried(transfer: Transfer, moved: u32) -> (Option<Transfer>, Task)
    requires moved { moved < (segment_of (state_of transfer)).count }
    ensures next { result.1 ≡ task_for (step_for moved (state_of transfer)) ((state_of transfer).done + moved) }
    ensures transfer { option_map state_of result.0 ≡ transfer_tried result.1 moved (state_of transfer) }
{
    let done = transfer.done() + moved;
    match transfer.on_fault(moved) {
        Ok((transfer, step)) => (Some(transfer), task_of(step, done)),
        Err(exhausted) => (
            None,
            Task::GiveUp {
                done: exhausted.done,
            },
        ),
    }
}
