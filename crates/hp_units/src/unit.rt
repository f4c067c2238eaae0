// One unit: its queue, its drive, and how far it is with the head of its queue.
ghost use Rattle.std.specs.Prelude.{ℕ, ◌≡◌, ◌<◌, ◌≤◌, ◌+◌, ◌/◌, ◌==◌, ◌&&◌, ◌∷◌, ◌^◌, [], length, drop, not, true, false, if◌then◌else◌, IfOk, IfSome, IfNone, Option};
ghost use Rattle.pack_geometry.specs.Geometry.{cylinders_of, sectors_of, IsInside};
ghost use Rattle.drive_registers.specs.Codes.{offset_field};
ghost use Rattle.hardware_table.specs.declared.Moved.{Moved};
ghost use Rattle.hardware_table.specs.Drive.{DriveState, is_positioning, status};
ghost use Rattle.hardware_table.specs.Events.{turned, online_set, locked_set, fault_armed, times_armed};
ghost use Rattle.hp_interrupts.specs.Verdicts.{IsLeftBy, AreLeft, registers_of, cause_of};
ghost use Rattle.trace_replay.specs.Seek.{position_for};
ghost use Rattle.transfer_engine.specs.State.{segment_of, failures_after};
ghost use Rattle.transfer_engine.specs.Calls.{entry_for};
ghost use Rattle.trace_replay.specs.Drives.{attached};
ghost use Rattle.driver_machine.specs.World.{no_unit, new_unit, transfer_of, slot_in_hand};
ghost use Rattle.driver_machine.specs.Acts.{with_drive};
ghost use Rattle.driver_machine.specs.Due.{steps_of};

mod deeds;

use crate::tries::{failing, listed, step_in};
use bad144_table::BadTable;
use bitflags::Flags;
use disksort::SortQueue;
use drive_model::Drive;
use drive_registers::{Ds, OFFSET_CODE, RM03_TYPE, RP06_TYPE};
use driver_machine::{Phase, RetryStep};
use hardware_table::{FaultKind, Register, status_law};
use hp_interrupts::{DataCause, Sensed, TransferRegs, data_interrupt, needs_pack, sense};
use outside_traits::traits::NoMemory;
use pack_geometry::{DriveKind, Place};
use std::alloc::Global;
use std::marker::Model;
use trace_replay::seek_engine::{Position, decide};
use transfer_engine::{Segment, Transfer};

/// How many slots there can be. All of them can wait at one unit.
const SLOTS: u32 = 16_384;

/// How many cylinders the largest drive has.
const CYLINDERS: u32 = 823;

/// A unit, which is set up or not: the requests that wait at it, in the order in which it serves them; how far it is with
/// the first of these requests, and that request's transfer; its drive; and the table of its pack.
#[derive(Drop)]
pub struct DiskUnit {
    declared: bool,
    queue: SortQueue,
    phase: Phase,
    transfer: Option<Transfer>,
    pub drive: Drive,
    table: Option<BadTable>,
}

impl Model for DiskUnit {
    ghost use Rattle.std.specs.Prelude.{◌≡◌, true};
    ghost use Rattle.std.specs.Option.{option_map};
    ghost use Rattle.transfer_engine.specs.Calls.{state_of};
    ghost use Rattle.driver_machine.specs.World.{UnitView};

    ghost Value = { UnitView };

    ghost view = { λ u. record {
      declared = u.declared;
      queue = u.queue.waiting;
      phase = u.phase;
      transfer = option_map state_of u.transfer;
      drive = u.drive;
      table = u.table;
    } };

    ghost invariant = { λ u. u.declared ≡ true → (u.queue.capacity ≡ 16384) × (u.queue.cylinders ≡ 823) };
}

/// A new drive, attached.
fn attached_drive(kind: DriveKind, unit: u8) -> Drive
    ensures { result ≡ attached kind unit }
{
    let mut drive = Drive::new(kind, u16::from(unit));
    drive.attach();
    drive
}

impl DiskUnit {
    /// A unit that is not set up, at which no request can wait. `NoMemory` if there is no memory for it.
    pub fn blank(alloc: Global) -> Result<DiskUnit, NoMemory>
        ensures { IfOk result (λ unit. unit ≡ no_unit) }
    {
        let queue = SortQueue::new(alloc, 0, 0)?;
        Ok(DiskUnit {
            declared: false,
            queue,
            phase: Phase::Waiting,
            transfer: None,
            drive: attached_drive(DriveKind::Rp06, 0),
            table: None,
        })
    }

    /// A unit that is set up. Its queue has room for each slot, and its drive is attached. `NoMemory` if there is no memory for it.
    pub fn set_up(
        alloc: Global,
        unit: u8,
        kind: DriveKind,
        table: Option<BadTable>,
    ) -> Result<DiskUnit, NoMemory>
        ensures { IfOk result (λ made. made ≡ new_unit (record { unit = unit; kind = kind; table = table })) }
    {
        let queue = SortQueue::new(alloc, SLOTS, CYLINDERS)?;
        Ok(DiskUnit {
            declared: true,
            queue,
            phase: Phase::Waiting,
            transfer: None,
            drive: attached_drive(kind, unit),
            table,
        })
    }

    /// The slot of the request in hand. None if the queue is empty.
    pub fn head(&self) -> Option<u32>
        ensures slot { IfSome result (λ p. p ≡ slot_in_hand self.now) }
        ensures some { IfSome result (λ p. 0 < length self.now.queue) }
        ensures none { IfNone result (self.now.queue ≡ []) }
    {
        let waiter = self.queue.head()?;
        Some(waiter.number)
    }

    /// How many requests wait at the unit, including the one in hand.
    pub fn queue_len(&self) -> u32
        ensures { result ≡ length self.now.queue }
    {
        self.queue.len()
    }

    /// How far the unit is with the head of its queue.
    pub fn phase(&self) -> Phase
        ensures { result ≡ self.now.phase }
    {
        self.phase
    }

    /// The drive status register.
    fn drive_status(&self) -> Ds
        ensures { result.0 ≡ status self.now.drive }
    {
        Ds::from_bits_retain(self.drive.read_register(Register::Ds))
    }

    /// Whether the drive positions.
    pub fn is_positioning(&self) -> bool
        ensures { result ≡ is_positioning self.now.drive.work }
    {
        status_law();
        self.drive_status().contains(Ds::PIP)
    }

    /// Whether the drive's attention is up.
    pub fn is_raised(&self) -> bool
        ensures { result ≡ self.now.drive.attention }
    {
        status_law();
        self.drive_status().contains(Ds::ATA)
    }

    /// The kind of the drive.
    pub fn kind(&self) -> DriveKind
        ensures { result ≡ self.now.drive.kind }
    {
        match self.drive.read_register(Register::Dt) {
            RP06_TYPE => DriveKind::Rp06,
            RM03_TYPE => DriveKind::Rm03,
            _ => DriveKind::Rm05,
        }
    }

    /// What the drive status says before a command. `writes` says whether the command is the transfer command of a write.
    pub fn sensed(&self, writes: bool) -> Sensed
        ensures { result ≡ (if not self.now.drive.online then Sensed.Offline
            else if writes && self.now.drive.locked then Sensed.Locked else Sensed.Go) }
    {
        sense(self.drive.read_register(Register::Ds), writes)
    }

    /// Whether the pack has to be acknowledged before the next command.
    pub fn needs_pack(&self) -> bool
        ensures { result ≡ not self.now.drive.valid }
    {
        needs_pack(self.drive.read_register(Register::Ds))
    }

    /// Why the transfer ended, by what the drive's registers show. `late` says whether the adapter shows data late.
    pub fn cause(&self, late: bool) -> DataCause
        requires left { AreLeft (registers_of self.now.drive late) }
        ensures { (verdict : Moved) → (before : DriveState) → (block : ℕ) → IsLeftBy verdict before block (registers_of self.now.drive late)
            → result ≡ cause_of verdict }
    {
        data_interrupt(TransferRegs {
            er1: self.drive.read_register(Register::Er1),
            er2: self.drive.read_register(Register::Er2),
            ec1: self.drive.read_register(Register::Ec1),
            ec2: self.drive.read_register(Register::Ec2),
            late,
        })
    }

    /// Whether no offset is set.
    pub fn is_centred(&self) -> bool
        ensures { result ≡ (offset_field self.now.drive.offset == 0) }
    {
        self.drive.read_register(Register::Of) & OFFSET_CODE == 0
    }

    /// How the unit has to position for a first try at a place.
    pub fn position(&self, target: Place) -> Position
        requires here { self.now.drive.cc < cylinders_of self.now.drive.kind }
        requires look { self.now.drive.la / 64 < sectors_of self.now.drive.kind }
        requires target { IsInside self.now.drive.kind target }
        ensures { result ≡ position_for self.now.drive.kind self.now.drive.cc (self.now.drive.la / 64) target true }
    {
        let here = u32::from(self.drive.read_register(Register::Cc));
        let look = u32::from(self.drive.read_register(Register::La)) / 64;
        decide(self.kind(), here, look, target, true)
    }

    /// What the next transfer command moves. If no transfer is begun, it moves nothing.
    pub fn segment(&self) -> Segment
        ensures { result ≡ segment_of (transfer_of self.now) }
    {
        match &self.transfer {
            Some(transfer) => transfer.segment(),
            None => Segment {
                block: 0,
                skip: 0,
                count: 0,
            },
        }
    }

    /// How many blocks of the request in hand are done, from the first one on.
    pub fn done(&self) -> u32
        ensures { result ≡ (transfer_of self.now).done }
    {
        match &self.transfer {
            Some(transfer) => transfer.done(),
            None => 0,
        }
    }

    /// The next step of a retry, after `taken` steps. None if all steps are taken.
    pub fn next_step(&self, taken: u32, write: bool) -> Option<RetryStep>
        requires kind { (transfer_of self.now).job.kind ≡ self.now.drive.kind }
        requires write { (transfer_of self.now).job.write ≡ write }
        ensures some { IfSome result (λ step. drop taken (steps_of (transfer_of self.now)) ≡ step ∷ drop (taken + 1) (steps_of (transfer_of self.now))) }
        ensures none { IfNone result (drop taken (steps_of (transfer_of self.now)) ≡ []) }
    {
        step_in(&self.transfer, self.kind(), write, taken)
    }

    /// The entry of the pack's table whose replacement takes the place of the sector behind `moved` others. None if the
    /// sector is itself a replacement, or if its place is not listed.
    pub fn entry(&self, moved: u32) -> Option<u8>
        requires begun { self.now.transfer ≡ Some (transfer_of self.now) }
        requires kind { (transfer_of self.now).job.kind ≡ self.now.drive.kind }
        requires moved { moved < (segment_of (transfer_of self.now)).count }
        ensures { result ≡ entry_for moved self.now.table (transfer_of self.now) }
    {
        match &self.transfer {
            Some(transfer) => listed(transfer, &self.table, self.kind(), moved),
            None => unreachable!(),
        }
    }

    /// What a failed try at the sector behind `moved` others is told with: the block of that sector, and how many tries at it
    /// have failed then.
    pub fn failing(&self, moved: u32) -> (u32, u32)
        requires begun { self.now.transfer ≡ Some (transfer_of self.now) }
        requires moved { moved < (segment_of (transfer_of self.now)).count }
        ensures block { result.0 ≡ (segment_of (transfer_of self.now)).block + moved }
        ensures failures { result.1 ≡ failures_after moved (transfer_of self.now).failures }
    {
        match &self.transfer {
            Some(transfer) => failing(transfer, moved),
            None => unreachable!(),
        }
    }

    /// Turns the pack until a sector comes under the heads.
    pub fn turn(&mut self, sector: u32)
        requires { sector < sectors_of self.old.drive.kind }
        ensures { self.new ≡ with_drive (turned sector) self.old }
    {
        self.drive.turn(sector);
    }

    /// Arms a fault: it is to strike `times` more times, from 1 to 1,000.
    pub fn arm(&mut self, kind: FaultKind, times: u32)
        requires some { 1 ≤ times }
        requires few { times ≤ 1000 }
        requires room { times_armed kind self.old.drive.armed + times < 2 ^ 63 }
        ensures { self.new ≡ with_drive (fault_armed kind times) self.old }
    {
        self.drive.arm_fault(kind, times);
    }

    /// Brings the drive online, or takes it offline.
    pub fn set_online(&mut self, on: bool)
        ensures { self.new ≡ with_drive (online_set on) self.old }
    {
        self.drive.set_online(on);
    }

    /// Write locks the drive, or unlocks it.
    pub fn set_locked(&mut self, on: bool)
        ensures { self.new ≡ with_drive (locked_set on) self.old }
    {
        self.drive.set_locked(on);
    }
}
