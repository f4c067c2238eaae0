// A block that is no entry is read, and room is made for it.
ghost use Rattle.std.specs.Prelude.{◌≡◌, ◌≤◌, None, OnOk};
ghost use Rattle.driver_laws.specs.rules.Entries.{with_room, to_write_back, write_backs};
ghost use Rattle.buffer_cache.specs.Passes.{TurnsOut, map_at};
ghost use Rattle.buffer_cache.specs.Asks.{IsData, Asks, AsksTill};
ghost use Rattle.buffer_cache.specs.Calls.{MayUse, LeavesOne, IfTold, Fetched, fetch_asked};

use crate::slots::Cache;
use crate::{Stop, fetch_block, sessions_law, store_block};
use blocking_io::Site;

impl Cache {
    /// Writes the last entry of a full cache back, if it was changed.
    fn make_room<S: Site>(&mut self, site: &mut S, line: u64) -> Result<(), Stop>
        requires line { 1 ≤ line }
        requires may { MayUse self.old (S.at site.old).driver }
        ensures turns { TurnsOut (λ _. Asks line (write_backs (to_write_back self.old))) (LeavesOne 0 0 None self.old) (λ stop. AsksTill stop line (write_backs (to_write_back self.old))) result (S.at site.old) (S.at site.new) }
        ensures state { OnOk result (self.new ≡ with_room self.old) }
        ensures may { OnOk result (MayUse self.new (S.at site.new).driver) }
        ensures refused { self.new.refused ≡ self.old.refused }
        ensures loans { S.loans site.new ≡ S.loans site.old }
    {
        self.law();
        let Some(last) = self.last_changed() else {
            return Ok(());
        };
        store_block(site, line, last.unit, last.block, &last.bytes)?;
        self.last_is_written();
        Ok(())
    }

    /// Reads a block that is no entry, and makes room for it if it can be used. Answers whether it can.
    pub(crate) fn fetch<S: Site>(
        &mut self,
        site: &mut S,
        line: u64,
        unit: u8,
        block: u32,
        into: &mut [u8; 512],
    ) -> Result<bool, Stop>
        requires line { 1 ≤ line }
        requires may { MayUse self.old (S.at site.old).driver }
        requires block { IsData (S.at site.old).driver.world unit block }
        ensures turns { TurnsOut (λ found. Fetched line unit block found into.new self.old self.new) (LeavesOne 0 0 None self.old)
            (λ stop. λ old. λ new. IfTold self.old old new (AsksTill stop line (fetch_asked (map_at old unit block) self.old unit block) old new)) result (S.at site.old) (S.at site.new) }
        ensures may { OnOk result (MayUse self.new (S.at site.new).driver) }
        ensures refused { self.new.refused ≡ self.old.refused }
        ensures loans { S.loans site.new ≡ S.loans site.old }
    {
        sessions_law();
        self.law();
        if !fetch_block(site, line, unit, block, into)? {
            return Ok(false);
        }
        self.make_room(site, line)?;
        Ok(true)
    }
}
