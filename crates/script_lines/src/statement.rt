use pack_geometry::DriveKind;
use partitions::Part;
use trace_replay::{FaultKind, NoiseSpan};

/// The place of a line in the text of a script, in bytes: from `start` up to but not including `end`. A text has at most 16 MiB.
#[derive(Clone, Copy)]
pub struct Span {
    pub start: u32,
    pub end: u32,
}

/// The blocks that a line asks for: `count` of them, 1 to 127, from `block` of a unit's partition on. The first byte lies `offset`
/// bytes into its frame, 0 to 511. `last` bytes of the last block are asked for, 1 to 512.
#[derive(Clone, Copy)]
pub struct Request {
    pub id: u32,
    pub unit: u8,
    pub part: Part,
    pub block: u32,
    pub count: u8,
    pub offset: u16,
    pub last: u16,
}

/// What a write writes.
#[derive(Drop)]
pub enum Content<D> {
    /// This byte, repeated.
    Fill(u8),
    /// Byte t of block j is the sum of this number, j and t, modulo 256.
    Seq(u8),
    /// These digits, two for each byte.
    Hex(D),
}

/// What a line says. `D` names the digits of a write, and `N` names the places of a noise.
#[derive(Drop)]
pub enum Statement<D, N> {
    /// A drive is declared.
    Unit {
        unit: u8,
        kind: DriveKind,
    },
    /// Blocks are read.
    Read {
        request: Request,
    },
    /// Blocks are written.
    Write {
        request: Request,
        content: Content<D>,
    },
    /// The positioning of a drive ends.
    Arrive {
        unit: u8,
    },
    /// A drive turns to a sector.
    Turn {
        unit: u8,
        sector: u32,
    },
    /// An adapter moves a sector.
    Move {
        adapter: u8,
    },
    /// An adapter's interrupt is delivered.
    Attend {
        adapter: u8,
    },
    /// Places of a block, counted on the pack, are flipped when it is read.
    Noise {
        unit: u8,
        block: u32,
        span: NoiseSpan,
        places: N,
    },
    /// A fault is armed for `times` times, 1 to 1000.
    Fault {
        unit: u8,
        what: FaultKind,
        times: u32,
    },
    /// A drive goes offline.
    Offline {
        unit: u8,
    },
    /// A drive comes online.
    Online {
        unit: u8,
    },
    /// A drive is write-locked.
    Lock {
        unit: u8,
    },
    /// A drive is unlocked.
    Unlock {
        unit: u8,
    },
    /// Events come until no request is outstanding.
    Drain,
}

/// A line that says something, with its number, counted from 1.
#[derive(Drop)]
pub struct Line<D, N> {
    pub number: u32,
    pub statement: Statement<D, N>,
}
