// The entries of a cache and their order. No call here makes a request.
ghost use Rattle.std.specs.Prelude.{◌≡◌, ◌≤◌, ◌<◌, not, None, IfOk, option_map, is_some, length};
ghost use Rattle.std.specs.Map.{lookup};
ghost use Rattle.lru.specs.LruCache.{lru_cache, last_entry, promoted};
ghost use Rattle.driver_laws.specs.rules.Entries.{empty_cache, IsCache, entry_of, fronted, changed_in_front, if_changed, to_write_back, last_unchanged, put};
ghost use Rattle.driver_laws.specs.rules.Calls.{entry};
ghost use Rattle.buffer_cache.specs.Views.{is_at, entry_at, IsKept, free_slot, bytes_over};

use crate::entry::{Held, Key};
use driver_laws::rules::cached::Entry;
use lru::LruCache;
use outside_traits::traits::NoMemory;
use std::alloc::Global;
use std::marker::Model;
use std::num::NonZeroUsize;

/// A cache of blocks with delayed writes. A contract sees its entries, the most recent one first, the largest number of entries that it
/// may have, and the number of insertions that memory refused.
#[derive(Drop)]
pub struct Cache {
    pub(crate) order: LruCache<Key, usize>,
    pub(crate) slots: Vec<Held>,
    refused: u64,
}

impl Model for Cache {
    ghost use Rattle.driver_laws.specs.rules.Entries.{State};
    ghost use Rattle.buffer_cache.specs.Views.{state_of, IsKept};

    ghost Value = { State };

    ghost view = { λ c. state_of c.order c.slots.items c.refused };

    ghost invariant = { λ c. IsKept c.order c.slots.items };
}

/// A slot for one more entry: that of the last entry if the cache is full.
fn next_slot(order: &LruCache<Key, usize>) -> usize
    ensures slot { result ≡ free_slot order.now }
    ensures few { length order.now.entries ≤ order.now.cap }
    ensures some { 0 < order.now.cap }
{
    if order.len() < order.cap().get() {
        return order.len();
    }
    match order.peek_lru() {
        Some((_, slot)) => *slot,
        None => 0,
    }
}

/// The slot of a block that is an entry, which comes to the front.
fn find(order: &mut LruCache<Key, usize>, key: Key) -> Option<usize>
    ensures slot { result ≡ lookup (is_at key) order.old.entries }
    ensures order { order.new ≡ lru_cache (promoted (is_at key) order.old.entries) order.old.cap }
    ensures few { length order.old.entries ≤ order.old.cap }
{
    let _count = order.len();
    let slot = order.peek(&key).copied();
    order.promote(&key);
    slot
}

/// The last entry.
fn last(order: &LruCache<Key, usize>, slots: &Vec<Held>) -> Option<Entry>
    requires kept { IsKept order.now slots.now.items }
    ensures { result ≡ option_map (entry_at slots.now.items) (last_entry order.now.entries) }
{
    let _count = order.len();
    let (key, slot) = order.peek_lru()?;
    let held = slots[*slot];
    let bytes = held.bytes;
    let changed = held.changed;
    Some(Entry {
        unit: key.unit,
        block: key.block,
        bytes,
        changed,
    })
}

/// An entry, if it was changed.
fn if_changed(entry: Option<Entry>) -> Option<Entry>
    ensures { result ≡ if_changed entry }
{
    match entry {
        Some(entry) if entry.changed => Some(entry),
        _ => None,
    }
}

impl Cache {
    /// Creates an empty cache of at most `capacity` entries, 1 to 4,096. The memory for their bytes is taken here. Answers `NoMemory`
    /// if memory runs out.
    pub fn new(alloc: Global, capacity: u32) -> Result<Cache, NoMemory>
        requires some { 1 ≤ capacity }
        requires most { capacity ≤ 4096 }
        ensures { IfOk result (λ s. s ≡ empty_cache capacity) }
    {
        let Some(most) = NonZeroUsize::new(capacity as usize) else {
            return Err(NoMemory);
        };
        let nothing = Held {
            bytes: [0; 512],
            changed: false,
        };
        Ok(Cache {
            order: LruCache::new(alloc, most)?,
            slots: vec![in alloc; nothing; capacity as usize]?,
            refused: 0,
        })
    }

    /// The law of the cache: it has no more entries than its capacity, and no block twice.
    pub fn law(&self)
        ensures { IsCache self.now }
    {
        let _count = self.order.len();
    }

    /// Gives the bytes of a block that is an entry, which comes to the front. Answers whether it is one.
    pub(crate) fn give(&mut self, unit: u8, block: u32, into: &mut [u8; 512]) -> bool
        ensures found { result ≡ is_some (entry_of unit block self.old.entries) }
        ensures fronts { self.new ≡ fronted unit block self.old }
        ensures gives { into.new ≡ bytes_over (entry_of unit block self.old.entries) into.old }
    {
        let Some(slot) = find(&mut self.order, Key { unit, block }) else {
            return false;
        };
        *into = self.slots[slot].bytes;
        true
    }

    /// Changes a block that is an entry, which comes to the front. Answers whether it is one.
    pub(crate) fn change(&mut self, unit: u8, block: u32, from: &[u8; 512]) -> bool
        ensures found { result ≡ is_some (entry_of unit block self.old.entries) }
        ensures changes { self.new ≡ changed_in_front unit block from.now self.old }
    {
        let Some(slot) = find(&mut self.order, Key { unit, block }) else {
            return false;
        };
        self.slots[slot] = Held {
            bytes: *from,
            changed: true,
        };
        true
    }

    /// The last entry of a full cache, if it was changed.
    pub(crate) fn last_changed(&self) -> Option<Entry>
        ensures { result ≡ to_write_back self.now }
    {
        if self.order.len() < self.order.cap().get() {
            return None;
        }
        if_changed(last(&self.order, &self.slots))
    }

    /// Takes in that the last entry was written back.
    pub(crate) fn last_is_written(&mut self)
        ensures { self.new ≡ record self.old { entries = last_unchanged self.old.entries } }
    {
        let _count = self.order.len();
        if let Some((_, slot)) = self.order.peek_lru() {
            self.slots[*slot].changed = false;
        }
    }

    /// Puts a block that is no entry in front, and drops the last entry of a full cache. Answers whether there was memory for that; if
    /// there was not, the refusal is counted.
    pub(crate) fn insert(&mut self, unit: u8, block: u32, bytes: &[u8; 512], changed: bool) -> bool
        requires new { entry_of unit block self.old.entries ≡ None }
        ensures { self.new ≡ put (not result) (entry unit block bytes.now changed) self.old }
    {
        let slot = next_slot(&self.order);
        if self.order.push(Key { unit, block }, slot).is_err() {
            self.refused = self.refused.saturating_add(1);
            return false;
        }
        self.slots[slot] = Held {
            bytes: *bytes,
            changed,
        };
        true
    }

    /// The number of insertions that memory refused. The count stops at 2^64 - 1.
    pub fn refused(&self) -> u64
        ensures { result ≡ self.now.refused }
    {
        self.refused
    }
}
