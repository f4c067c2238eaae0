// What the cache keeps of a block.
/// The key of an entry: a data block of a unit.
#[derive(Clone, Copy, PartialEq, Eq, Hash)]
pub struct Key {
    pub(crate) unit: u8,
    pub(crate) block: u32,
}

/// The bytes that an entry holds for its block, and whether they were changed since the pack had them.
#[derive(Clone, Copy)]
pub struct Held {
    pub(crate) bytes: [u8; 512],
    pub(crate) changed: bool,
}
