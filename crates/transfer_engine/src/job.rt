//! What is to be moved, and the part of it that one transfer command moves.

use pack_geometry::DriveKind;

/// The blocks of a request: the kind of the drive, the first block on the pack, how many blocks there are, and whether they are written.
#[derive(Clone, Copy)]
pub struct Job {
    pub kind: DriveKind,
    pub first: u32,
    pub count: u32,
    pub write: bool,
}

/// What one transfer command moves: its first sector on the pack, its first block in the request's buffer, and how many sectors and blocks.
#[derive(Clone, Copy)]
pub struct Segment {
    pub block: u32,
    pub skip: u32,
    pub count: u32,
}
