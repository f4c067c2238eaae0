use drive_registers::OffsetCode;
use trace_replay::Moved;

/// What a line of the trace tells: a command to a unit, or what happens to the unit, to its adapter or to its request.
#[derive(Clone, Copy)]
pub enum Told {
    /// A SEARCH for a sector of a cylinder.
    Search { cylinder: u32, sector: u32 },
    /// A SEEK to a cylinder.
    Seek { cylinder: u32 },
    /// A recalibration.
    Recal,
    /// An offset.
    Offset { code: OffsetCode },
    /// A return to the centre line.
    Centre,
    /// A drive clear.
    Clear,
    /// A pack acknowledgement.
    Pack,
    /// A transfer of `count` sectors, a write or a read, from block `block` of the pack on.
    Transfer { write: bool, block: u32, count: u32 },
    /// A positioning ended.
    Arrive,
    /// The sector of a block was tried, with this verdict.
    Sector { block: u32, verdict: Moved },
    /// The data interrupt is taken.
    Intr,
    /// The try at a block failed, for the `failures`th time.
    Try { block: u32, failures: u32 },
    /// The attention is taken.
    Attn,
    /// The request's answer is made.
    End,
}
