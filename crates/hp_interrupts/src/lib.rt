//! What the driver reads from the registers at an interrupt and before a command. The registers are those of the RP06, RM03 and RM05 drives.
//!
//! What is proved: `data_interrupt` gives the one cause that a verdict's registers show, for every verdict and each kind
//! of drive; `verdict_of` gives the one verdict of a cause, and `shows_late` says whether the adapter shows data late
//! after a verdict; `sense`, `needs_pack` and `lowest_attention` go by the bits.
//!
//! Nothing here is only tested.
#![tactic(auto)]

ghost use Rattle.std.specs.Prelude.{◌≡◌, ◌<◌, ◌↔◌, ℕ, false, IsTrue, IsNone, IfSome, Some};
ghost use Rattle.std.specs.Int.{bit_at};
ghost use Rattle.drive_registers.specs.Bits as bits;
ghost use Rattle.hardware_table.specs.declared.Moved.{Moved};
ghost use Rattle.hardware_table.specs.Drive.{DriveState, status};
ghost use Rattle.hp_interrupts.specs.Sense.{IsOn, IsOff, sensed_of};
ghost use Rattle.hp_interrupts.specs.Verdicts.{IsLeftBy, AreLeft, cause_of, shows_late};

use bitflags::Flags;
use drive_registers::{Ds, Er1, Er2};
use hardware_table::{FaultKind, Moved};

/// What the driver reads at a data interrupt: the drive's two error registers and its two ECC registers, and whether the adapter shows data late.
#[derive(Clone, Copy)]
pub struct TransferRegs {
    pub er1: u16,
    pub er2: u16,
    pub ec1: u16,
    pub ec2: u16,
    pub late: bool,
}

/// Why a transfer ended.
#[derive(Clone, Copy, PartialEq, Eq)]
pub enum DataCause {
    /// Every sector moved clean.
    Complete,
    /// The last sector was read with a burst that the driver repairs: `at` is the first place of the burst, counted from
    /// 1, and bit j of `pattern` stands for place `at - 1 + j`, counted from 0.
    Corrected { at: u16, pattern: u16 },
    /// The last sector is marked bad.
    BadSector,
    /// The drive is offline.
    Offline,
    /// A fault struck the drive or the transfer.
    Drive(FaultKind),
    /// The last sector was read and cannot be corrected.
    Hard,
}

/// What the drive status says before a command.
#[derive(Clone, Copy, PartialEq, Eq)]
pub enum Sensed {
    /// The command can be issued.
    Go,
    /// The drive is offline.
    Offline,
    /// A write would be refused: the drive is write locked.
    Locked,
}

/// The cause that the registers show: that of the verdict on the last sector that was tried. A marked sector shows as a
/// format error on an RP06, and as a bad sector on an RM03 or an RM05. A data check can be corrected, unless the hard error is on with it.
pub fn data_interrupt(regs: TransferRegs) -> DataCause
    requires left { AreLeft regs }
    ensures cause { (verdict : Moved) → (drive : DriveState) → (block : ℕ) → IsLeftBy verdict drive block regs
        → result ≡ cause_of verdict }
{
    let first = Er1::from_bits_retain(regs.er1);
    let second = Er2::from_bits_retain(regs.er2);
    if first.contains(Er1::UNS) {
        DataCause::Offline
    } else if first.contains(Er1::FER) || second.contains(Er2::BSE) {
        DataCause::BadSector
    } else if second.contains(Er2::SKI) {
        DataCause::Drive(FaultKind::Seek)
    } else if first.contains(Er1::OPI) {
        DataCause::Drive(FaultKind::Opi)
    } else if first.contains(Er1::DTE) {
        DataCause::Drive(FaultKind::Dte)
    } else if first.contains(Er1::HCRC) {
        DataCause::Drive(FaultKind::Hcrc)
    } else if regs.late {
        DataCause::Drive(FaultKind::Late)
    } else if first.contains(Er1::ECH) {
        DataCause::Hard
    } else if first.contains(Er1::DCK) {
        DataCause::Corrected {
            at: regs.ec1,
            pattern: regs.ec2,
        }
    } else {
        DataCause::Complete
    }
}

/// The verdict that a cause stands for: exactly this verdict has that cause.
pub fn verdict_of(cause: DataCause) -> Moved
    ensures cause { cause_of result ≡ cause }
    ensures only { (verdict : Moved) → cause_of verdict ≡ cause → verdict ≡ result }
{
    match cause {
        DataCause::Complete => Moved::Clean,
        DataCause::Corrected { at, pattern } => Moved::Burst { at, pattern },
        DataCause::BadSector => Moved::Marked,
        DataCause::Offline => Moved::Offline,
        DataCause::Drive(kind) => Moved::Faulted(kind),
        DataCause::Hard => Moved::Hard,
    }
}

/// Whether the adapter shows data late after this last verdict.
pub fn shows_late(last: Moved) -> bool
    ensures { result ≡ shows_late last }
{
    matches!(last, Moved::Faulted(FaultKind::Late))
}

/// What the drive status says before a command. The first of these that applies: `Offline` if the medium is not on line;
/// `Locked` if the drive is write locked and the command is the transfer of a write; otherwise `Go`.
pub fn sense(ds: u16, write_transfer: bool) -> Sensed
    ensures offline { (result ≡ Sensed.Offline) ↔ IsOff ds bits.medium_on_line }
    ensures locked { (result ≡ Sensed.Locked)
        ↔ (IsOn ds bits.medium_on_line × IsOn ds bits.write_locked × IsTrue write_transfer) }
    ensures drive { (drive : DriveState) → ds ≡ status drive → result ≡ sensed_of drive write_transfer }
{
    let status = Ds::from_bits_retain(ds);
    if !status.contains(Ds::MOL) {
        Sensed::Offline
    } else if status.contains(Ds::WRL) && write_transfer {
        Sensed::Locked
    } else {
        Sensed::Go
    }
}

/// Whether the pack has to be acknowledged before the next command. This is so exactly if volume valid is off.
pub fn needs_pack(ds: u16) -> bool
    ensures bit { IsTrue result ↔ IsOff ds bits.volume_valid }
    ensures drive { (drive : DriveState) → ds ≡ status drive → IsTrue result ↔ (drive.valid ≡ false) }
{
    !Ds::from_bits_retain(ds).contains(Ds::VV)
}

/// The lowest drive whose attention is up, by the bits of an adapter's attention summary. None exactly if they are all 0.
pub fn lowest_attention(summary: u8) -> Option<u8>
    ensures none { IsNone result ↔ (summary ≡ 0) }
    ensures lowest { IfSome result (λ drive. (drive < 8) × (bit_at summary drive ≡ 1)
        × ((other : ℕ) → other < drive → bit_at summary other ≡ 0)) }
{
    if summary == 0 {
        None
    } else {
        Some(summary.trailing_zeros() as u8)
    }
}
