//! What a driver does after each failure at one physical sector: it tries again at once, or off the centre of the track,
//! or after a recalibration, or it gives up.
//!
//! What is proved: `next_step` is the schedule, and gives GiveUp exactly at failure 28.
//!
//! Nothing here is only tested.

ghost use Rattle.std.specs.Prelude.{◌≡◌, ◌≤◌, ◌↔◌};
ghost use Rattle.trace_replay.specs.declared.retry_offsets.Step.TheVariants.{GiveUp};
ghost use Rattle.trace_replay.specs.Schedule.{offset_after, step_after};

use drive_registers::OffsetCode;

/// What follows a failure.
#[derive(Clone, Copy, PartialEq, Eq)]
pub enum Step {
    /// The transfer is tried again at once.
    Again,
    /// The transfer is tried again with the heads off the centre.
    Offset(OffsetCode),
    /// The heads go to cylinder 0 and back, and then off the centre if an offset is given.
    Recalibrate(Option<OffsetCode>),
    /// There is no further try.
    GiveUp,
}

/// What follows failure `failures` at one physical sector, counted from 1 to 28.
///
/// A recalibration comes after failures 4, 12 and 20. A read has an offset from failure 16 on, and the offsets come in
/// the order of growing distance. Failure 28 is the last one.
pub fn next_step(failures: u32, reads: bool) -> Step
    requires first { 1 ≤ failures }
    requires last { failures ≤ 28 }
    ensures step { result ≡ step_after failures reads }
    ensures give_up { (result ≡ GiveUp) ↔ (failures ≡ 28) }
{
    let offset = offset_for(failures, reads);
    match failures {
        28 => Step::GiveUp,
        4 | 12 | 20 => Step::Recalibrate(offset),
        _ => match offset {
            Some(code) => Step::Offset(code),
            None => Step::Again,
        },
    }
}

// The offset of the try after this failure.
fn offset_for(failures: u32, reads: bool) -> Option<OffsetCode>
    requires { failures ≤ 28 }
    ensures { result ≡ offset_after failures reads }
{
    if !reads {
        return None;
    }
    match failures {
        16 | 18 => Some(OffsetCode::Plus400),
        17 | 19 => Some(OffsetCode::Minus400),
        20 | 22 => Some(OffsetCode::Plus800),
        21 | 23 => Some(OffsetCode::Minus800),
        24 | 26 => Some(OffsetCode::Plus1200),
        25 | 27 => Some(OffsetCode::Minus1200),
        _ => None,
    }
}
