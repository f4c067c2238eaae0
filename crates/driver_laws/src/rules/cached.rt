//! A cache of blocks with delayed writes, as a list, and the requests of its calls. The function here does nothing: it stands for a law.

ghost use Rattle.driver_laws.specs.rules.CachedLaws.{ReadKeeps, WriteKeeps, SyncWrites, ReadLeavesOne, WriteLeavesOne, SyncLeavesOne};

/// A block of a unit that is in the cache: its bytes, and whether they changed since the pack had them.
#[derive(Clone, Copy)]
pub struct Entry {
    pub unit: u8,
    pub block: u32,
    pub bytes: [u8; 512],
    pub changed: bool,
}

/// Reads leave the cached contents as they are, a write changes them at one block, and a sync puts them on the packs.
pub fn cache_law()
    ensures reads { ReadKeeps }
    ensures writes { WriteKeeps }
    ensures syncs { SyncWrites }
    ensures read_leaves { ReadLeavesOne }
    ensures write_leaves { WriteLeavesOne }
    ensures sync_leaves { SyncLeavesOne }
{}
