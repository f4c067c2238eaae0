// What is asked of the driver.
use partitions::Part;

/// A request to read or write `count` blocks of a unit, 1 to 127, from block `block` of the partition on. The buffer of
/// the request begins `offset` bytes into its first frame, 0 to 511, and `last` bytes of the last block are asked for, 1 to 512.
#[derive(Clone, Copy)]
pub struct Request {
    pub id: u32,
    pub unit: u8,
    pub part: Part,
    pub block: u32,
    pub count: u32,
    pub write: bool,
    pub offset: u32,
    pub last: u32,
}
