//! The words of a drive's registers, as the register lists of the RP06, RM03 and RM05 manuals give them: the codes of
//! functions and offsets, and the bits of the status, error and offset registers.
//!
//! What is proved: `function_of` and `code_of` are inverse on the twelve codes; `Ds`, `Er1`, `Er2` and `Of` have the bits
//! of the table, and `offset_word` its codes.
//!
//! Only tested, in `drive_rows`: worked values, beside their proofs.
#![tactic(auto)]

ghost use Rattle.std.specs.Prelude.{◌≡◌, ◌≢◌, ◌<◌, ◌↔◌, IfSome, IsNone, Some};
ghost use Rattle.drive_registers.specs.Codes.{function_code, function_field, offset_code, offset_field};

mod bits;

pub use bits::{Ds, Er1, Er2, Of};

/// What a drive can be told to do, with the code of each function, without the bit GO.
#[derive(Clone, Copy)]
pub enum Function {
    /// Nothing.
    Nop = 0o00,
    /// Move the heads to the desired cylinder.
    Seek = 0o04,
    /// Recalibrate: move the heads to cylinder 0.
    Recal = 0o06,
    /// Drive clear: clear the error registers and the attention.
    Clear = 0o10,
    /// Move the heads off the cylinder's centre by the offset code.
    Offset = 0o14,
    /// Return to centre.
    Centre = 0o16,
    /// Read-in preset: clear the address and offset registers.
    Preset = 0o20,
    /// Pack acknowledge: the volume becomes valid.
    Pack = 0o22,
    /// Move the heads and wait for a sector.
    Search = 0o30,
    /// Write data.
    Write = 0o60,
    /// Write header and data.
    WriteHeader = 0o62,
    /// Read data.
    Read = 0o70,
}

/// How far the heads are moved off the centre of a cylinder, in microinches, with the code of each offset.
#[derive(Clone, Copy, PartialEq, Eq)]
pub enum OffsetCode {
    Plus400 = 0o020,
    Minus400 = 0o220,
    Plus800 = 0o040,
    Minus800 = 0o240,
    Plus1200 = 0o060,
    Minus1200 = 0o260,
}

/// The word in the drive type register of an RP06.
pub const RP06_TYPE: u16 = 0o020022;

/// The word in the drive type register of an RM03.
pub const RM03_TYPE: u16 = 0o020024;

/// The word in the drive type register of an RM05.
pub const RM05_TYPE: u16 = 0o020027;

/// The bits of the offset register that hold the offset's code.
pub const OFFSET_CODE: u16 = 0o377;

/// The function whose code stands in bits 1 to 5 of a control word. `None` exactly if no function has that code.
pub fn function_of(word: u16) -> Option<Function>
    ensures found { IfSome result (λ f. function_code f ≡ function_field word) }
    ensures every { (f : Function) → function_code f ≡ function_field word → result ≡ Some f }
    ensures none { IsNone result ↔ ((f : Function) → function_code f ≢ function_field word) }
{
    match word & 0o76 {
        0o00 => Some(Function::Nop),
        0o04 => Some(Function::Seek),
        0o06 => Some(Function::Recal),
        0o10 => Some(Function::Clear),
        0o14 => Some(Function::Offset),
        0o16 => Some(Function::Centre),
        0o20 => Some(Function::Preset),
        0o22 => Some(Function::Pack),
        0o30 => Some(Function::Search),
        0o60 => Some(Function::Write),
        0o62 => Some(Function::WriteHeader),
        0o70 => Some(Function::Read),
        _ => None,
    }
}

/// A function's code, without the bit GO: an even number below 64.
pub fn code_of(function: Function) -> u16
    ensures code { result ≡ function_code function }
    ensures in_field { function_field result ≡ result }
{
    function as u16
}

/// The code of an offset, as it stands in the low eight bits of the offset register. No two offsets have the same code,
/// and no offset has the code 0, which means that no offset is set.
pub fn offset_word(code: OffsetCode) -> u16
    ensures code { result ≡ offset_code code }
    ensures in_field { offset_field result ≡ result }
    ensures not_zero { 0 < result }
    ensures own { (other : OffsetCode) → offset_code other ≡ result → other ≡ code }
{
    code as u16
}
