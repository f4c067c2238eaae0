// The unit's part of each deed.
ghost use Rattle.std.specs.Prelude.{ℕ, ◌≡◌, ◌≢◌, ◌<◌, ◌≤◌, ◌+◌, length, drop, true, All, IfSome, IfNone, Option};
ghost use Rattle.pack_geometry.specs.Geometry.{block_count};
ghost use Rattle.drive_registers.specs.declared.Function.TheVariants.{Pack as PackFunction, Clear as ClearFunction};
ghost use Rattle.hardware_table.specs.Drive.{is_ready};
ghost use Rattle.hardware_table.specs.Functions.{performed};
ghost use Rattle.hardware_table.specs.Events.{arrived, attention_cleared};
ghost use Rattle.hardware_table.specs.declared.Moved.{Moved};
ghost use Rattle.hardware_table.specs.declared.Moved.TheVariants as verdict;
ghost use Rattle.hp_interrupts.specs.Verdicts.{cause_of};
ghost use Rattle.transfer_engine.specs.State.{IsJob, begun, segment_of, moved_on, forwarded};
ghost use Rattle.transfer_engine.specs.Calls.{entry_for, step_for};
ghost use Rattle.trace_replay.specs.Drives.{addressed};
ghost use Rattle.driver_machine.specs.declared.Task.TheVariants as task;
ghost use Rattle.driver_machine.specs.declared.Phase.TheVariants as phase;
ghost use Rattle.driver_machine.specs.declared.RetryStep.TheVariants as retry_step;
ghost use Rattle.driver_machine.specs.World.{no_held, transfer_of};
ghost use Rattle.driver_machine.specs.Acts.{joined, searching, stepping, transferring, centred, with_drive, going_to, in_phase, with_transfer, transfer_tried, interrupted};
ghost use Rattle.driver_machine.specs.Due.{task_for};

use super::DiskUnit;
use crate::tries::{continued, forwarded_to, tried};
use bitflags::Flags;
use drive_model::Drive;
use drive_registers::{Function, Of, offset_word};
use driver_machine::{Phase, RetryStep, Task};
use hardware_table::{Moved, Register};
use hp_interrupts::{DataCause, verdict_of};
use pack_geometry::{Place, place_of, sector_word};
use transfer_engine::{Job, Transfer, begin};

/// Writes the desired cylinder and address.
fn address(drive: &mut Drive, place: Place)
    requires cylinder { place.cylinder < 65536 }
    requires track { place.track < 256 }
    requires sector { place.sector < 256 }
    ensures { drive.new ≡ addressed place drive.old }
{
    drive.write_register(Register::Dc, place.cylinder as u16);
    drive.write_register(Register::Da, sector_word(place));
}

/// Begins a step of a retry.
fn go_step(drive: &mut Drive, step: RetryStep)
    requires cylinder { (cylinder : ℕ) → step ≡ retry_step.Seek cylinder → cylinder < 65536 }
    requires ready { is_ready drive.old.work ≡ true }
    requires online { drive.old.online ≡ true }
    ensures { drive.new ≡ stepping step drive.old }
{
    match step {
        RetryStep::Recalibrate => drive.go(Function::Recal),
        RetryStep::Seek { cylinder } => {
            drive.write_register(Register::Dc, cylinder as u16);
            drive.go(Function::Seek);
        }
        RetryStep::Offset { code } => {
            let word = Of::FMT22.bits() | offset_word(code);
            drive.write_register(Register::Of, word);
            drive.go(Function::Offset);
        }
    }
}

impl DiskUnit {
    /// A request joins the queue, by its slot and its first block.
    pub fn join(&mut self, slot: u32, first: u32)
        requires declared { self.old.declared ≡ true }
        requires room { length self.old.queue < 16384 }
        requires slot { slot < 16384 }
        requires absent { All (λ w. w.number ≢ slot) self.old.queue }
        requires inside { first < block_count self.old.drive.kind }
        ensures { self.new ≡ joined slot (record no_held { first = first }) self.old }
    {
        let place = place_of(self.kind(), first);
        self.queue.insert(slot, place.cylinder);
    }

    /// Ends the positioning that is under way.
    pub fn arrive(&mut self)
        ensures { self.new ≡ with_drive arrived self.old }
    {
        self.drive.arrive();
    }

    /// Takes the attention. Then the next step of the retry is due, after `taken` steps; if no step is left, the unit becomes ready.
    pub fn attend(&mut self, taken: u32)
        ensures { self.new ≡ going_to (phase.Due (task.Steps taken)) attention_cleared self.old }
    {
        self.drive.clear_attention();
        self.phase = Phase::Due {
            task: Task::Steps { taken },
        };
    }

    /// Issues SEARCH for a first try at a target, and begins the transfer. `sector` is the sector at which the search ends.
    pub fn search(&mut self, target: Place, sector: u32, job: Job)
        requires cylinder { target.cylinder < 65536 }
        requires track { target.track < 256 }
        requires sector { sector < 256 }
        requires job { IsJob job }
        requires ready { is_ready self.old.drive.work ≡ true }
        requires online { self.old.drive.online ≡ true }
        ensures { self.new ≡ record (going_to (phase.Positioning 0) (searching target sector) self.old) { transfer = Some (begun job) } }
    {
        let place = Place {
            cylinder: target.cylinder,
            track: target.track,
            sector,
        };
        address(&mut self.drive, place);
        self.drive.go(Function::Search);
        self.phase = Phase::Positioning { taken: 0 };
        self.transfer = Some(Transfer::Direct(begin(job)));
    }

    /// Issues RECAL, SEEK or OFFSET, as this step of a retry says. Afterwards `taken` steps are taken.
    pub fn step(&mut self, step: RetryStep, taken: u32)
        requires cylinder { (cylinder : ℕ) → step ≡ retry_step.Seek cylinder → cylinder < 65536 }
        requires ready { is_ready self.old.drive.work ≡ true }
        requires online { self.old.drive.online ≡ true }
        ensures { self.new ≡ going_to (phase.Positioning taken) (stepping step) self.old }
    {
        go_step(&mut self.drive, step);
        self.phase = Phase::Positioning { taken };
    }

    /// Issues RCOM, or WCOM for a write, from a block of the pack on.
    pub fn transfer(&mut self, write: bool, block: u32)
        requires block { block < block_count self.old.drive.kind }
        requires ready { is_ready self.old.drive.work ≡ true }
        requires online { self.old.drive.online ≡ true }
        ensures { self.new ≡ going_to phase.Transferring (transferring write block) self.old }
    {
        let place = place_of(self.kind(), block);
        address(&mut self.drive, place);
        self.drive.go(if write {
            Function::Write
        } else {
            Function::Read
        });
        self.phase = Phase::Transferring;
    }

    /// Issues PACK.
    pub fn pack(&mut self)
        requires ready { is_ready self.old.drive.work ≡ true }
        requires online { self.old.drive.online ≡ true }
        ensures { self.new ≡ with_drive (performed PackFunction) self.old }
    {
        self.drive.go(Function::Pack);
    }

    /// The data interrupt was taken: `moved` sectors moved clean, and `cause` is why the transfer ended.
    pub fn interrupt(&mut self, moved: u32, cause: DataCause)
        ensures { (verdict : Moved) → cause ≡ cause_of verdict → self.new ≡ in_phase (phase.Due (interrupted moved verdict)) self.old }
    {
        let verdict = verdict_of(cause);
        let task = match cause {
            DataCause::Complete => Task::Judge { moved, verdict },
            _ => Task::Clear { moved, verdict },
        };
        self.phase = Phase::Due { task };
    }

    /// Issues DCLR. The verdict is judged next.
    pub fn clear(&mut self, moved: u32, verdict: Moved)
        requires ready { is_ready self.old.drive.work ≡ true }
        ensures { self.new ≡ going_to (phase.Due (task.Judge moved verdict)) (performed ClearFunction) self.old }
    {
        self.drive.go(Function::Clear);
        self.phase = Phase::Due {
            task: Task::Judge { moved, verdict },
        };
    }

    /// Issues RTC. Afterwards no offset is set.
    pub fn centre(&mut self)
        requires ready { is_ready self.old.drive.work ≡ true }
        ensures { self.new ≡ with_drive centred self.old }
    {
        self.drive.go(Function::Centre);
        self.drive.write_register(Register::Of, Of::FMT22.bits());
    }

    /// Begins a new transfer, for which the unit is ready at once.
    pub fn begin(&mut self, job: Job)
        requires job { IsJob job }
        ensures { self.new ≡ record self.old { phase = phase.Queued; transfer = Some (begun job) } }
    {
        self.phase = Phase::Queued;
        self.transfer = Some(Transfer::Direct(begin(job)));
    }

    /// The unit becomes ready for the transfer that it has begun.
    pub fn ready(&mut self)
        requires begun { self.old.transfer ≡ Some (transfer_of self.old) }
        ensures { self.new ≡ record self.old { phase = phase.Queued; transfer = Some (transfer_of self.old) } }
    {
        self.phase = Phase::Queued;
    }

    /// A block was repaired in the buffer. Counting that block, `moved` sectors moved clean, and this is judged again.
    pub fn judge_again(&mut self, moved: u32)
        ensures { self.new ≡ in_phase (phase.Due (task.Judge moved verdict.Clean)) self.old }
    {
        self.phase = Phase::Due {
            task: Task::Judge {
                moved,
                verdict: Moved::Clean,
            },
        };
    }

    /// Makes the replacement of the sector behind `moved` others come next, and gives its entry. None if the sector is
    /// itself a replacement, or if its place is not listed; then the unit stays as it was.
    pub fn forward(&mut self, moved: u32) -> Option<u8>
        requires begun { self.old.transfer ≡ Some (transfer_of self.old) }
        requires kind { (transfer_of self.old).job.kind ≡ self.old.drive.kind }
        requires moved { moved < (segment_of (transfer_of self.old)).count }
        ensures entry { result ≡ entry_for moved self.old.table (transfer_of self.old) }
        ensures some { IfSome result (λ i. self.new ≡ with_transfer (Some (forwarded moved i (transfer_of self.old))) task.Command self.old) }
        ensures none { IfNone result (self.new ≡ self.old) }
    {
        let index = self.entry(moved)?;
        let Some(transfer) = self.transfer.take() else {
            unreachable!();
        };
        self.transfer = Some(forwarded_to(transfer, moved, &self.table, index));
        self.phase = Phase::Due {
            task: Task::Command,
        };
        Some(index)
    }

    /// Makes the blocks behind the `moved` ones that are done come next.
    pub fn go_on(&mut self, moved: u32)
        requires begun { self.old.transfer ≡ Some (transfer_of self.old) }
        requires some { 1 ≤ moved }
        requires moved { moved ≤ (segment_of (transfer_of self.old)).count }
        requires left { (transfer_of self.old).done + moved < (transfer_of self.old).job.count }
        ensures { self.new ≡ with_transfer (Some (moved_on ((transfer_of self.old).done + moved) (transfer_of self.old))) task.Command self.old }
    {
        let Some(transfer) = self.transfer.take() else {
            unreachable!();
        };
        self.transfer = Some(continued(transfer, moved));
        self.phase = Phase::Due {
            task: Task::Command,
        };
    }

    /// The try at the sector behind `moved` others failed. After the last try the unit has no transfer.
    pub fn retry(&mut self, moved: u32)
        requires begun { self.old.transfer ≡ Some (transfer_of self.old) }
        requires moved { moved < (segment_of (transfer_of self.old)).count }
        ensures { let next = task_for (step_for moved (transfer_of self.old)) ((transfer_of self.old).done + moved) in
            self.new ≡ with_transfer (transfer_tried next moved (transfer_of self.old)) next self.old }
    {
        let Some(transfer) = self.transfer.take() else {
            unreachable!();
        };
        let (transfer, task) = tried(transfer, moved);
        self.transfer = transfer;
        self.phase = Phase::Due { task };
    }

    /// Ends the request in hand: it leaves the queue, and its transfer is dropped.
    pub fn end(&mut self)
        ensures { self.new ≡ record self.old { queue = drop 1 self.old.queue; phase = phase.Waiting; transfer = None } }
    {
        let _head = self.queue.take_head();
        self.phase = Phase::Waiting;
        self.transfer = None;
    }
}
