// A block is read or written through the cache.
ghost use Rattle.std.specs.Prelude.{◌≡◌, ◌≤◌, true, IsSome, None, Some};
ghost use Rattle.driver_laws.specs.rules.Entries.{entry_of};
ghost use Rattle.driver_laws.specs.rules.Calls.{read_done, write_done};
ghost use Rattle.driver_laws.specs.rules.Contents.{cached};
ghost use Rattle.buffer_cache.specs.Passes.{map_at, spot};
ghost use Rattle.buffer_cache.specs.Asks.{IsData};
ghost use Rattle.buffer_cache.specs.Calls.{MayUse, Reads, Serves, Writes, given_by, is_done};

use crate::Subsystem;
use crate::fault::CacheFault;
use crate::slots::Cache;
use blocking_io::Outlet;
use driver_laws::rules::cached::cache_law;
use outside_traits::traits::{Packs, Sink};

impl Cache {
    /// Reads a data block of a unit through the cache, at a line from 1 on. If the block is an entry, it comes to the front, and
    /// nothing else is done. Otherwise the block is read from its pack. If the cache is full, its last entry is written back if it was
    /// changed, and the new entry takes its place. The new entry comes to the front. The driver must be ready and made for at least one
    /// outstanding request, and its tables must be those of the packs. It is ready again after Ok and `Unusable`.
    ///
    /// `Unusable` comes exactly if the block can't be used. The cache and the packs are then as they were, and nothing is said about
    /// the buffer. `Stop` comes only if the count of faults of the packs or of the trace rose. No call may follow then, and the
    /// requests were those of Ok or `Unusable`, up to the one that stopped. A lack of memory is never an answer: if memory refuses an
    /// insertion, the block does not enter the cache, and the refusal is counted, at most once for each call.
    pub fn read<P: Packs, T: Sink>(
        &mut self,
        subsystem: &mut Subsystem,
        line: u64,
        unit: u8,
        block: u32,
        into: &mut [u8; 512],
        packs: &mut P,
        trace: &mut T,
    ) -> Result<(), CacheFault>
        requires line { 1 ≤ line }
        requires may { MayUse self.old subsystem.old }
        requires block { IsData subsystem.old.world unit block }
        ensures serves { Serves (Reads line unit block (given_by result into.new) self.old self.new) line unit block None (λ old. (read_done (cached self.old.entries (map_at old) unit block) true self.old unit block).asked) result self.old self.new
            (spot P.tells P.held P.faults T.tells T.taken T.faults subsystem.old packs.old trace.old)
            (spot P.tells P.held P.faults T.tells T.taken T.faults subsystem.new packs.new trace.new) }
        ensures no_call { IsSome (entry_of unit block self.old.entries) → (subsystem.new ≡ subsystem.old) × ((packs.new ≡ packs.old) × (trace.new ≡ trace.old)) }
    {
        cache_law();
        self.law();
        if self.give(unit, block, into) {
            return Ok(());
        }
        let mut site = Outlet {
            subsystem,
            packs,
            trace,
        };
        self.read_new(&mut site, line, unit, block, into)
    }

    /// Writes a data block of a unit through the cache, at a line from 1 on. The bytes are then in the cache, and go to the pack when
    /// the entry is dropped or at a sync. A block that is not an entry is read first, as `read` does. If memory refuses its insertion,
    /// the bytes go to the pack at once.
    ///
    /// `Unusable` and `Stop` come as they do for `read`.
    pub fn write<P: Packs, T: Sink>(
        &mut self,
        subsystem: &mut Subsystem,
        line: u64,
        unit: u8,
        block: u32,
        from: &[u8; 512],
        packs: &mut P,
        trace: &mut T,
    ) -> Result<(), CacheFault>
        requires line { 1 ≤ line }
        requires may { MayUse self.old subsystem.old }
        requires block { IsData subsystem.old.world unit block }
        ensures serves { Serves (Writes line unit block (is_done result) from.now self.old self.new) line unit block (Some from.now) (λ old. (write_done (cached self.old.entries (map_at old) unit block) true self.old unit block from.now).asked) result self.old self.new
            (spot P.tells P.held P.faults T.tells T.taken T.faults subsystem.old packs.old trace.old)
            (spot P.tells P.held P.faults T.tells T.taken T.faults subsystem.new packs.new trace.new) }
        ensures no_call { IsSome (entry_of unit block self.old.entries) → (subsystem.new ≡ subsystem.old) × ((packs.new ≡ packs.old) × (trace.new ≡ trace.old)) }
    {
        cache_law();
        self.law();
        if self.change(unit, block, from) {
            return Ok(());
        }
        let mut site = Outlet {
            subsystem,
            packs,
            trace,
        };
        self.write_new(&mut site, line, unit, block, from)
    }
}
