//! What the drives and adapters are, as the contracts of all crates see them: their states as records, and each row of the
//! hardware table as a function on a state.
//!
//! Defined in `specs/`: the states of a drive and of an adapter as records, each row of the hardware table as a function on
//! them, the verdict of a move, and live noise.
//!
//! What is proved: `status_law`: each status bit is on exactly if its condition holds. `adapter_law`: each act keeps what
//! holds of every adapter.
#![tactic(auto)]

ghost use Rattle.std.specs.Prelude.{◌≡◌, ◌≤◌, ◌<◌, ◌+◌, ◌==◌, ℕ, Bool, true, false, List, bit_and, if◌then◌else◌};
ghost use Rattle.drive_registers.specs.Bits as bits;
ghost use Rattle.hardware_table.specs.Drive.{DriveState, status, has_error, is_positioning, is_ready, on};
ghost use Rattle.hardware_table.specs.Adapter.{AdapterState, IsAdapter, IsLoaded, next_window, step_bytes, new_adapter, loaded, started, stepped, completed};

use drive_registers::OffsetCode;
pub use fire_code::Noise;

/// The registers of a drive.
#[derive(Clone, Copy)]
pub enum Register {
    /// Control: the code of the last function, without the bit GO.
    Cs1,
    /// Drive status.
    Ds,
    /// First error register.
    Er1,
    /// Second error register.
    Er2,
    /// Offset: the format bit, and the offset code in the low eight bits.
    Of,
    /// Desired address: the track times 256, and the sector.
    Da,
    /// Desired cylinder.
    Dc,
    /// Current cylinder.
    Cc,
    /// Look-ahead: the sector times 64.
    La,
    /// Drive type.
    Dt,
    /// Serial number.
    Sn,
    /// First ECC register: the place of the last burst that was shown, counted from 1.
    Ec1,
    /// Second ECC register: the pattern of that burst.
    Ec2,
}

/// The faults that can be armed on a drive.
#[derive(Clone, Copy, PartialEq, Eq)]
pub enum FaultKind {
    /// Seek incomplete.
    Seek,
    /// Operation incomplete.
    Opi,
    /// Drive timing error.
    Dte,
    /// Header check error.
    Hcrc,
    /// Data late. The adapter shows this fault.
    Late,
}

/// The verdict of one sector's move.
#[derive(Clone, Copy, PartialEq, Eq)]
pub enum Moved {
    /// The sector was written, or was read and found right.
    Clean,
    /// The sector was read with one burst of at most 11 places: `at` is the first place of the burst, from 1 to 4128, and
    /// bit j of `pattern` stands for place `at - 1 + j`, counted from 0.
    Burst { at: u16, pattern: u16 },
    /// The sector was read and can't be corrected.
    Hard,
    /// The sector is marked bad.
    Marked,
    /// A fault struck.
    Faulted(FaultKind),
    /// The drive is offline.
    Offline,
}

/// What a drive is doing.
#[derive(Clone, Copy)]
pub enum Work {
    /// Nothing: the drive is ready.
    Ready,
    /// The drive positions to a cylinder and, in a search, to a sector.
    Positioning { cylinder: u16, sector: Option<u8> },
    /// A transfer is under way: a write or a read.
    Transfer { write: bool },
}

/// How many times each fault is still to strike.
#[derive(Clone, Copy)]
pub struct Armed {
    pub seek: u64,
    pub opi: u64,
    pub dte: u64,
    pub hcrc: u64,
    pub late: u64,
}

/// How long noise stays live.
#[derive(Clone, Copy)]
pub enum NoiseSpan {
    /// Until it has struck this many times.
    Times(u32),
    /// Until the sector is read with this offset.
    Until(OffsetCode),
}

/// The law of the drive status: each bit is on exactly if its condition holds.
pub fn status_law()
    ensures attention { (d : DriveState) → bit_and (status d) bits.attention ≡ on d.attention bits.attention }
    ensures error { (d : DriveState) → bit_and (status d) bits.error ≡ on (has_error d) bits.error }
    ensures positioning { (d : DriveState) → bit_and (status d) bits.positioning ≡ on (is_positioning d.work) bits.positioning }
    ensures online { (d : DriveState) → bit_and (status d) bits.medium_on_line ≡ on d.online bits.medium_on_line }
    ensures locked { (d : DriveState) → bit_and (status d) bits.write_locked ≡ on d.locked bits.write_locked }
    ensures present { (d : DriveState) → bit_and (status d) bits.drive_present ≡ bits.drive_present }
    ensures ready { (d : DriveState) → bit_and (status d) bits.drive_ready ≡ on (is_ready d.work) bits.drive_ready }
    ensures valid { (d : DriveState) → bit_and (status d) bits.volume_valid ≡ on d.valid bits.volume_valid }
{}

/// The law of adapters. A new adapter is sound, and each act that may be done keeps it sound. A transfer that was just
/// loaded can be started. While a transfer is under way, at least one sector of it is left; that sector moves the bytes
/// of its block of the buffer, and a clean step puts the completion up exactly if that sector is the last one.
pub fn adapter_law()
    ensures new { IsAdapter new_adapter }
    ensures loaded { (a : AdapterState) → (frames : List ℕ) → (offset blocks last skip count : ℕ) → a.busy ≡ false
        → offset < 512 → blocks ≤ 127 → 1 ≤ last → last ≤ 512 → skip + count ≤ blocks
        → IsAdapter (loaded frames offset blocks last skip count a) }
    ensures ready { (a : AdapterState) → (frames : List ℕ) → (offset blocks last skip count : ℕ) → 1 ≤ count
        → IsLoaded (loaded frames offset blocks last skip count a) count }
    ensures started { (a : AdapterState) → (drive block count : ℕ) → (write : Bool) → IsAdapter a → IsLoaded a count
        → IsAdapter (started drive block write a) }
    ensures stepped { (a : AdapterState) → (verdict : Moved) → IsAdapter a → a.busy ≡ true → a.completion ≡ false
        → IsAdapter (stepped verdict a) }
    ensures completed { (a : AdapterState) → IsAdapter a → IsAdapter (completed a) }
    ensures left { (a : AdapterState) → IsAdapter a → a.busy ≡ true → a.completion ≡ false → a.moved < a.count }
    ensures window { (a : AdapterState) → IsAdapter a → a.busy ≡ true → a.completion ≡ false
        → step_bytes a ≡ (if next_window a + 1 == a.blocks then a.last else 512) }
    ensures last { (a : AdapterState) → IsAdapter a → a.busy ≡ true → a.completion ≡ false
        → (stepped Moved.Clean a).completion ≡ (a.moved + 1 == a.count) }
{}
