// A block that is no entry is read or written.
ghost use Rattle.std.specs.Prelude.{◌≡◌, ◌≤◌, ◌∷◌, [], true, None, Some, OnOk};
ghost use Rattle.driver_laws.specs.rules.Entries.{entry_of};
ghost use Rattle.driver_laws.specs.rules.Requests.{writes};
ghost use Rattle.driver_laws.specs.rules.Calls.{read_found, write_found};
ghost use Rattle.buffer_cache.specs.Passes.{TurnsOut, map_at};
ghost use Rattle.buffer_cache.specs.Asks.{IsData, AsksTill, LeftBy};
ghost use Rattle.buffer_cache.specs.Calls.{MayUse, Placed, Reads, Serves, Writes, given_by, is_done, RefusesOnce};

use crate::fault::CacheFault;
use crate::slots::Cache;
use crate::{Stop, sessions_law, store_block};
use blocking_io::Site;
use driver_laws::rules::cached::cache_law;

impl Cache {
    /// Reads a block that is no entry, and puts it in front if it can be used.
    pub(crate) fn read_new<S: Site>(
        &mut self,
        site: &mut S,
        line: u64,
        unit: u8,
        block: u32,
        into: &mut [u8; 512],
    ) -> Result<(), CacheFault>
        requires line { 1 ≤ line }
        requires may { MayUse self.old (S.at site.old).driver }
        requires block { IsData (S.at site.old).driver.world unit block }
        requires new { entry_of unit block self.old.entries ≡ None }
        ensures serves { Serves (Reads line unit block (given_by result into.new) self.old self.new) line unit block None (λ old. (read_found (map_at old unit block) true self.old unit block).asked) result self.old self.new (S.at site.old) (S.at site.new) }
        ensures loans { S.loans site.new ≡ S.loans site.old }
    {
        cache_law();
        self.law();
        if !self.fetch(site, line, unit, block, into)? {
            return Err(CacheFault::Unusable);
        }
        self.insert(unit, block, into, false);
        Ok(())
    }

    /// Puts a changed block that is no entry in front. If memory refuses that, the block goes to its pack at once.
    fn place<S: Site>(
        &mut self,
        site: &mut S,
        line: u64,
        unit: u8,
        block: u32,
        from: &[u8; 512],
    ) -> Result<(), Stop>
        requires line { 1 ≤ line }
        requires may { MayUse self.old (S.at site.old).driver }
        requires block { IsData (S.at site.old).driver.world unit block }
        requires new { entry_of unit block self.old.entries ≡ None }
        ensures turns { TurnsOut (λ _. Placed line unit block from.now self.old self.new) (LeftBy (writes unit block from.now)) (λ stop. AsksTill stop line (writes unit block from.now ∷ [])) result (S.at site.old) (S.at site.new) }
        ensures may { OnOk result (MayUse self.new (S.at site.new).driver) }
        ensures refused { RefusesOnce self.old self.new }
        ensures loans { S.loans site.new ≡ S.loans site.old }
    {
        if self.insert(unit, block, from, true) {
            return Ok(());
        }
        store_block(site, line, unit, block, from)?;
        Ok(())
    }

    /// Writes a block that is no entry: reads it first, and puts it in front if it can be used.
    pub(crate) fn write_new<S: Site>(
        &mut self,
        site: &mut S,
        line: u64,
        unit: u8,
        block: u32,
        from: &[u8; 512],
    ) -> Result<(), CacheFault>
        requires line { 1 ≤ line }
        requires may { MayUse self.old (S.at site.old).driver }
        requires block { IsData (S.at site.old).driver.world unit block }
        requires new { entry_of unit block self.old.entries ≡ None }
        ensures serves { Serves (Writes line unit block (is_done result) from.now self.old self.new) line unit block (Some from.now) (λ old. (write_found (map_at old unit block) true self.old unit block from.now).asked) result self.old self.new (S.at site.old) (S.at site.new) }
        ensures loans { S.loans site.new ≡ S.loans site.old }
    {
        cache_law();
        sessions_law();
        self.law();
        let mut held = [0; 512];
        if !self.fetch(site, line, unit, block, &mut held)? {
            return Err(CacheFault::Unusable);
        }
        self.place(site, line, unit, block, from)?;
        Ok(())
    }
}
