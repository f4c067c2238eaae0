use pack_geometry::DriveKind;

/// What a line asks of blocks: `count` of them, 1 to 127, from `block` of a unit's partition `c` on.
#[derive(Clone, Copy)]
pub struct Asked {
    pub id: u32,
    pub unit: u8,
    pub block: u32,
    pub count: u8,
}

/// What a line says.
#[derive(Clone, Copy)]
pub enum Statement {
    /// A drive is declared.
    Unit { unit: u8, kind: DriveKind },
    /// Blocks are read.
    Read { asked: Asked },
    /// Blocks are written: each of their bytes is `fill`.
    Write { asked: Asked, fill: u8 },
    /// What was written goes to the packs.
    Sync,
}

/// A line that says something, with its number from 1.
#[derive(Clone, Copy)]
pub struct Line {
    pub number: u32,
    pub statement: Statement,
}
