// Every changed entry is written back.
ghost use Rattle.std.specs.Prelude.{◌≡◌, ◌≤◌, false, Some, None, OnOk, map, length};
ghost use Rattle.buffer_cache.specs.Passes.{MayTransfer, TurnsOut, spot};
ghost use Rattle.driver_laws.specs.rules.Requests.{writes};
ghost use Rattle.driver_laws.specs.rules.Entries.{unchanged, if_changed, write_backs, written_back};
ghost use Rattle.buffer_cache.specs.Asks.{IsData, Asks, AsksTill, LeftBy};
ghost use Rattle.buffer_cache.specs.Views.{entry_with, entries_of, state_of, IsKept};
ghost use Rattle.buffer_cache.specs.Calls.{MayUse, LeavesOne, SyncsOrStops};

use crate::entry::{Held, Key};
use crate::slots::Cache;
use crate::{Stop, Subsystem, sessions_law, store_block};
use blocking_io::{Outlet, Site};
use driver_laws::rules::cached::cache_law;
use lru::LruCache;
use outside_traits::traits::{Packs, Sink};

/// Writes an entry back, if it was changed.
fn write_back<S: Site>(key: Key, held: &mut Held, site: &mut S, line: u64) -> Result<(), Stop>
    requires line { 1 ≤ line }
    requires may { MayTransfer (S.at site.old).driver key.unit }
    requires block { IsData (S.at site.old).driver.world key.unit key.block }
    ensures turns { TurnsOut (λ _. Asks line (write_backs (if_changed (Some (entry_with key held.old))))) (LeftBy (writes key.unit key.block held.old.bytes))
        (λ stop. AsksTill stop line (write_backs (if_changed (Some (entry_with key held.old))))) result (S.at site.old) (S.at site.new) }
    ensures held { OnOk result (held.new ≡ record { bytes = held.old.bytes; changed = false }) }
    ensures loans { S.loans site.new ≡ S.loans site.old }
{
    if held.changed {
        let bytes = held.bytes;
        store_block(site, line, key.unit, key.block, &bytes)?;
        held.changed = false;
    }
    Ok(())
}

/// Writes each changed entry back, the first one first.
fn write_all_back<S: Site>(
    order: &LruCache<Key, usize>,
    slots: &mut Vec<Held>,
    site: &mut S,
    line: u64,
) -> Result<(), Stop>
    requires line { 1 ≤ line }
    requires kept { IsKept order.now slots.old.items }
    requires may { MayUse (state_of order.now slots.old.items 0) (S.at site.old).driver }
    ensures turns { TurnsOut (λ _. Asks line (written_back (entries_of order.now.entries slots.old.items))) (LeavesOne 0 0 None (state_of order.now slots.old.items 0))
        (λ stop. AsksTill stop line (written_back (entries_of order.now.entries slots.old.items))) result (S.at site.old) (S.at site.new) }
    ensures slots { OnOk result (entries_of order.now.entries slots.new.items ≡ map unchanged (entries_of order.now.entries slots.old.items)) }
    ensures room { length slots.new.items ≡ length slots.old.items }
    ensures loans { S.loans site.new ≡ S.loans site.old }
{
    sessions_law();
    let _count = order.len();
    for (key, slot) in order.iter() {
        write_back(*key, &mut slots[*slot], site, line)?;
    }
    Ok(())
}

impl Cache {
    /// Writes each changed entry back to its pack, the first one first, at a line from 1 on. The entries and their order stay, and none
    /// of them counts as changed afterwards. So the packs hold what is cached.
    ///
    /// `Store` and `Sink` come only if the count of faults of the packs or of the trace rose; no call may follow then.
    pub fn sync<P: Packs, T: Sink>(
        &mut self,
        subsystem: &mut Subsystem,
        line: u64,
        packs: &mut P,
        trace: &mut T,
    ) -> Result<(), Stop>
        requires line { 1 ≤ line }
        requires may { MayUse self.old subsystem.old }
        ensures { SyncsOrStops line result self.old self.new
            (spot P.tells P.held P.faults T.tells T.taken T.faults subsystem.old packs.old trace.old)
            (spot P.tells P.held P.faults T.tells T.taken T.faults subsystem.new packs.new trace.new) }
    {
        cache_law();
        self.law();
        let mut site = Outlet {
            subsystem,
            packs,
            trace,
        };
        write_all_back(&self.order, &mut self.slots, &mut site, line)?;
        Ok(())
    }
}
