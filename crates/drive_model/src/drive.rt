// A drive: its registers, its functions, and the events that change it.
ghost use Rattle.std.specs.Prelude.{◌≡◌, ◌≤◌, ◌<◌, ◌+◌, ◌^◌, true, false, IsTrue};
ghost use Rattle.pack_geometry.specs.Geometry.{sectors_of};
ghost use Rattle.hardware_table.specs.Drive.{new_drive, register_of, is_writable, with_register, is_ready, is_positioning, is_transferring, status, on, type_word};
ghost use Rattle.hardware_table.specs.Functions.{is_addressed, refusals, effect, performed, needs_online, attached};
ghost use Rattle.hardware_table.specs.declared.Work.TheVariants.{Positioning};
ghost use Rattle.hardware_table.specs.Events.{arrived, attention_cleared, transfer_ended, turned, online_set, locked_set, times_armed, fault_armed};

mod moves;

use bitflags::Flags;
use drive_registers::{
    Ds, Er1, Function, OFFSET_CODE, Of, RM03_TYPE, RM05_TYPE, RP06_TYPE, code_of,
};
use hardware_table::{Armed, FaultKind, Register, Work};
use pack_geometry::{DriveKind, geometry_of};
use std::marker::Model;

/// A drive. Each call does what the hardware table says. The drive status is computed from the state.
#[derive(Drop)]
pub struct Drive {
    kind: DriveKind,
    serial: u16,
    cs1: u16,
    er1: u16,
    er2: u16,
    offset: u16,
    da: u16,
    dc: u16,
    cc: u16,
    la: u16,
    ec1: u16,
    ec2: u16,
    work: Work,
    online: bool,
    locked: bool,
    valid: bool,
    attention: bool,
    armed: Armed,
}

impl Model for Drive {
    ghost use Rattle.hardware_table.specs.Drive.{DriveState};

    ghost Value = { DriveState };

    ghost view = { λ d. record {
      kind = d.kind;
      serial = d.serial;
      cs1 = d.cs1;
      er1 = d.er1;
      er2 = d.er2;
      offset = d.offset;
      da = d.da;
      dc = d.dc;
      cc = d.cc;
      la = d.la;
      ec1 = d.ec1;
      ec2 = d.ec2;
      work = d.work;
      online = d.online;
      locked = d.locked;
      valid = d.valid;
      attention = d.attention;
      armed = d.armed;
    } };
}

impl Drive {
    /// A new drive: it is online and unlocked, its volume is not valid, nothing is under way and no fault is armed.
    pub fn new(kind: DriveKind, serial: u16) -> Drive
        ensures { result ≡ new_drive kind serial }
    {
        Drive {
            kind,
            serial,
            cs1: 0,
            er1: 0,
            er2: 0,
            offset: 0,
            da: 0,
            dc: 0,
            cc: 0,
            la: 0,
            ec1: 0,
            ec2: 0,
            work: Work::Ready,
            online: true,
            locked: false,
            valid: false,
            attention: false,
            armed: Armed {
                seek: 0,
                opi: 0,
                dte: 0,
                hcrc: 0,
                late: 0,
            },
        }
    }

    /// Does a function. The drive refuses an address outside itself, a write while it is locked, and a write of headers:
    /// then an error bit and the attention go up, and nothing is under way.
    pub fn go(&mut self, function: Function)
        requires ready { is_ready self.old.work ≡ true }
        requires online { IsTrue (needs_online function) → self.old.online ≡ true }
        ensures { self.new ≡ performed function self.old }
    {
        self.cs1 = code_of(function);
        let refusals = self.refusals(function);
        if refusals == 0 {
            self.perform(function);
        } else {
            self.er1 |= refusals;
            self.attention = true;
        }
    }

    /// Attaches a drive that is ready and online: PRESET, and then PACK, which acknowledges its pack. Afterwards its
    /// offset register says the 16-bit format and no offset.
    pub fn attach(&mut self)
        requires ready { is_ready self.old.work ≡ true }
        requires online { self.old.online ≡ true }
        ensures { self.new ≡ attached self.old }
    {
        self.go(Function::Preset);
        self.go(Function::Pack);
        self.write_register(Register::Of, Of::FMT22.bits());
    }

    // Does a function that is not refused.
    fn perform(&mut self, function: Function)
        ensures { self.new ≡ effect function self.old }
    {
        match function {
            Function::Nop | Function::WriteHeader => {}
            Function::Seek => self.position(self.dc, None),
            Function::Search => self.position(self.dc, Some((self.da % 256) as u8)),
            Function::Recal => self.position(0, None),
            Function::Offset => self.position(self.cc, None),
            Function::Centre => self.offset &= !OFFSET_CODE,
            Function::Clear => {
                (self.er1, self.er2) = (0, 0);
                (self.ec1, self.ec2) = (0, 0);
                self.attention = false;
            }
            Function::Preset => (self.dc, self.da, self.offset) = (0, 0, 0),
            Function::Pack => self.valid = true,
            Function::Read => self.work = Work::Transfer { write: false },
            Function::Write => self.work = Work::Transfer { write: true },
        }
    }

    // Begins a positioning.
    fn position(&mut self, cylinder: u16, sector: Option<u8>)
        ensures { self.new ≡ record self.old { work = Positioning cylinder sector } }
    {
        self.work = Work::Positioning { cylinder, sector };
    }

    /// Ends the positioning that is under way and raises the attention, whether the drive is online or not. True exactly
    /// if a positioning was under way; otherwise nothing changes.
    pub fn arrive(&mut self) -> bool
        ensures drive { self.new ≡ arrived self.old }
        ensures ended { result ≡ is_positioning self.old.work }
    {
        let Work::Positioning { cylinder, sector } = self.work else {
            return false;
        };
        self.cc = cylinder;
        if let Some(sector) = sector {
            self.la = u16::from(sector) * 64;
        }
        self.work = Work::Ready;
        self.attention = true;
        true
    }

    /// Clears the attention.
    pub fn clear_attention(&mut self)
        ensures { self.new ≡ attention_cleared self.old }
    {
        self.attention = false;
    }

    /// Ends the transfer: it is no longer under way.
    pub fn end_transfer(&mut self)
        requires { is_transferring self.old.work ≡ true }
        ensures { self.new ≡ transfer_ended self.old }
    {
        self.work = Work::Ready;
    }

    /// Turns the pack until a sector comes under the heads.
    pub fn turn(&mut self, sector: u32)
        requires { sector < sectors_of self.old.kind }
        ensures { self.new ≡ turned sector self.old }
    {
        self.la = sector as u16 * 64;
    }

    /// Brings the drive online, or takes it offline. When it goes offline, its volume is no longer valid; a positioning
    /// or a transfer stays under way.
    pub fn set_online(&mut self, on: bool)
        ensures { self.new ≡ online_set on self.old }
    {
        self.online = on;
        if !on {
            self.valid = false;
        }
    }

    /// Write locks the drive, or unlocks it.
    pub fn set_locked(&mut self, on: bool)
        ensures { self.new ≡ locked_set on self.old }
    {
        self.locked = on;
    }

    /// Arms a fault: it is to strike `times` more times.
    pub fn arm_fault(&mut self, kind: FaultKind, times: u32)
        requires some { 1 ≤ times }
        requires few { times ≤ 1000 }
        requires room { times_armed kind self.old.armed + times < 2 ^ 63 }
        ensures { self.new ≡ fault_armed kind times self.old }
    {
        let times = u64::from(times);
        match kind {
            FaultKind::Seek => self.armed.seek += times,
            FaultKind::Opi => self.armed.opi += times,
            FaultKind::Dte => self.armed.dte += times,
            FaultKind::Hcrc => self.armed.hcrc += times,
            FaultKind::Late => self.armed.late += times,
        }
    }

    /// The content of a register.
    pub fn read_register(&self, register: Register) -> u16
        ensures { result ≡ register_of register self.now }
    {
        match register {
            Register::Cs1 => self.cs1,
            Register::Ds => self.status(),
            Register::Er1 => self.er1,
            Register::Er2 => self.er2,
            Register::Of => self.offset,
            Register::Da => self.da,
            Register::Dc => self.dc,
            Register::Cc => self.cc,
            Register::La => self.la,
            Register::Dt => type_word(self.kind),
            Register::Sn => self.serial,
            Register::Ec1 => self.ec1,
            Register::Ec2 => self.ec2,
        }
    }

    /// Writes the offset register, the desired address or the desired cylinder.
    pub fn write_register(&mut self, register: Register, word: u16)
        requires { is_writable register ≡ true }
        ensures { self.new ≡ with_register register word self.old }
    {
        match register {
            Register::Of => self.offset = word,
            Register::Da => self.da = word,
            Register::Dc => self.dc = word,
            _ => {}
        }
    }

    // The drive status, composed from its low bits upwards.
    fn status(&self) -> u16
        ensures { result ≡ status self.now }
    {
        let has_error = self.er1 != 0 || self.er2 != 0;
        let is_positioning = matches!(self.work, Work::Positioning { .. });
        let is_ready = matches!(self.work, Work::Ready);
        let status = on(is_ready, Ds::DRY.bits()) | on(self.valid, Ds::VV.bits());
        let status = Ds::DPR.bits() | status;
        let status = on(self.locked, Ds::WRL.bits()) | status;
        let status = on(self.online, Ds::MOL.bits()) | status;
        let status = on(is_positioning, Ds::PIP.bits()) | status;
        let status = on(has_error, Ds::ERR.bits()) | status;
        on(self.attention, Ds::ATA.bits()) | status
    }

    // Whether Dc and Da name a sector of the drive.
    fn is_addressed(&self) -> bool
        ensures { result ≡ is_addressed self.now }
    {
        let geometry = geometry_of(self.kind);
        u32::from(self.dc) < geometry.cylinders
            && u32::from(self.da / 256) < geometry.tracks
            && u32::from(self.da % 256) < geometry.sectors
    }

    // The bits of Er1 for which the drive refuses the function.
    fn refusals(&self, function: Function) -> u16
        ensures { result ≡ refusals function self.now }
    {
        let outside = on(!self.is_addressed(), Er1::IAE.bits());
        match function {
            Function::Seek | Function::Search | Function::Read => outside,
            Function::Write => outside | on(self.locked, Er1::WLE.bits()),
            Function::WriteHeader => Er1::ILF.bits(),
            _ => 0,
        }
    }
}

// Bits of a register if a condition holds, and 0 otherwise.
fn on(condition: bool, bits: u16) -> u16
    ensures { result ≡ on condition bits }
{
    if condition { bits } else { 0 }
}

// The word in the drive type register.
fn type_word(kind: DriveKind) -> u16
    ensures { result ≡ type_word kind }
{
    match kind {
        DriveKind::Rp06 => RP06_TYPE,
        DriveKind::Rm03 => RM03_TYPE,
        DriveKind::Rm05 => RM05_TYPE,
    }
}
