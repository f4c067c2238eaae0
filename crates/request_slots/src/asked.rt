// What a request asks of its slot.

/// What is asked: a read or a write of `count` blocks of a unit, from 1 to 127, from block `first` of its pack on. The
/// last block has `last` bytes, from 1 to 512. The buffer begins at place `offset` of its first frame, from 0 to 511.
#[derive(Clone, Copy)]
pub struct Asked {
    pub id: u32,
    pub unit: u8,
    pub first: u32,
    pub count: u32,
    pub last: u32,
    pub write: bool,
    pub offset: u32,
}
