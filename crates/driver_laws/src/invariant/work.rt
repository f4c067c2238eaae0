//! Drains and parts of the driver's machine: what is left to do is done. The functions here do nothing: each stands for a law.

ghost use Rattle.std.specs.Prelude.{◌≡◌, ◌↔◌, ℕ, [], Some, None};
ghost use Rattle.trace_replay.specs.Script.{Input};
ghost use Rattle.driver_machine.specs.World.{World};
ghost use Rattle.driver_machine.specs.Acts.{after_all};
ghost use Rattle.driver_machine.specs.Events.{Part, until, next_event};
ghost use Rattle.driver_machine.specs.Sound.{Sound, AtWork};
ghost use Rattle.driver_machine.specs.Runs.{CanCome, NoneOutstanding};

/// A part is done again until it has nothing to do. Its acts are the same for every bound on its turns that is large enough.
pub fn until_law()
    ensures same { (part : Part) (n m : ℕ) (w : World) → part (after_all w (until n part w)) ≡ [] → part (after_all w (until m part w)) ≡ []
        → until n part w ≡ until m part w }
{}

/// A drain is at its end exactly if no request is outstanding. Until then its next event finds something to do.
pub fn drain_law()
    ensures none { (w : World) → Sound w → AtWork w → ((next_event w ≡ None) ↔ NoneOutstanding w) }
    ensures next { (w : World) (input : Input) → Sound w → next_event w ≡ Some input → CanCome w input }
{}
