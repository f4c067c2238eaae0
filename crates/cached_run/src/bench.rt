// What a script is played with.
ghost use Rattle.std.specs.Prelude.{◌≡◌, ◌≤◌, [], false, IfOk};
ghost use Rattle.driver_machine.specs.World.{new_world};
ghost use Rattle.driver_laws.specs.invariant.Setups.{AreSetups};
ghost use Rattle.script_runs.specs.Setups.{setups_of};
ghost use Rattle.driver_laws.specs.rules.Entries.{empty_cache};
ghost use Rattle.cached_run.specs.Lines.{IsRoomy};

use buffer_cache::{Cache, Subsystem};
use outside_traits::traits::NoMemory;
use script_runs::UnitSetup;
use script_runs::desk::Desk;
use std::alloc::Global;

/// The driver of a script's units, which takes one request at a time, with a cache before it and the desk for its answers.
#[derive(Drop)]
pub(crate) struct Bench {
    pub(crate) subsystem: Subsystem,
    pub(crate) cache: Cache,
    pub(crate) desk: Desk,
}

impl Bench {
    /// A new driver for these units, an empty cache of `capacity` blocks, and an empty desk.
    pub(crate) fn new(alloc: Global, units: &[UnitSetup], capacity: u32) -> Result<Bench, NoMemory>
        requires setups { AreSetups (setups_of units.now) }
        requires some { 1 ≤ capacity }
        requires most { capacity ≤ 4096 }
        ensures subsystem { IfOk result (λ bench. bench.subsystem ≡ record { world = new_world (setups_of units.now) 1 0; outstanding = 1; failed = false; kept = [] }) }
        ensures cache { IfOk result (λ bench. bench.cache ≡ empty_cache capacity) }
        ensures desk { IfOk result (λ bench. IsRoomy bench.desk.gather bench.desk.blocks.items) }
    {
        let desk = Desk::new(alloc)?;
        let cache = Cache::new(alloc, capacity)?;
        let subsystem = Subsystem::new(alloc, units, 1, 0)?;
        Ok(Bench {
            subsystem,
            cache,
            desk,
        })
    }
}
