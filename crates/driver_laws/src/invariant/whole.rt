//! The driver's whole invariant, from the start on. The functions here do nothing: each stands for a law.

ghost use Rattle.std.specs.Prelude.{◌≡◌, ℕ, List, Contains};
ghost use Rattle.driver_machine.specs.World.{Setup, unit_at, no_unit, new_unit, new_world};
ghost use Rattle.driver_machine.specs.Sound.{Among, Sound, AtWork};
ghost use Rattle.driver_laws.specs.invariant.Setups.{AreSetups, units_of};
ghost use Rattle.driver_laws.specs.invariant.InvariantKept.{EachActKeeps, RunsKeep, SubmissionsWork, EventsWork, TakingWorks, StartsRun, StartsEnd};

/// At the start the whole invariant holds, nothing is due, each unit is as its setup says, and every other unit is not set up.
pub fn start_law()
    ensures sound { (setups : List Setup) (outstanding noises : ℕ) → AreSetups setups → Sound (new_world setups outstanding noises) }
    ensures rests { (setups : List Setup) (outstanding noises : ℕ) → AreSetups setups → AtWork (new_world setups outstanding noises) }
    ensures stands { (setups : List Setup) (outstanding noises : ℕ) → AreSetups setups
        → (s : Setup) → Contains setups s → unit_at (new_world setups outstanding noises) s.unit ≡ new_unit s }
    ensures others { (setups : List Setup) (outstanding noises : ℕ) → AreSetups setups
        → (u : ℕ) → (Among u (units_of setups) → ⊥) → unit_at (new_world setups outstanding noises) u ≡ no_unit }
{}

/// Each act that may come leaves the driver sound, and so does each run of acts.
pub fn invariant_law()
    ensures act { EachActKeeps }
    ensures acts { RunsKeep }
{}

/// Each submission, each event and each taking of an answer runs act by act, and leaves the driver sound and at work. The
/// start of an adapter is never cut short.
pub fn calls_law()
    ensures submit { SubmissionsWork }
    ensures event { EventsWork }
    ensures taken { TakingWorks }
    ensures start { StartsRun }
    ensures over { StartsEnd }
{}
