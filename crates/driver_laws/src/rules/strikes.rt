//! How often tries of a unit can fail: at most as often as faults and noise of the script strike there.

ghost use Rattle.driver_laws.specs.rules.Strikes.{FailuresAreFew};

/// A try that fails uses up one of the times for which a `fault` line armed a fault of its unit, or for which a noise
/// line lets noise that shows strike there. Hence, if these times are fewer than 28 in all, fewer than 28 tries of the unit fail.
pub fn strikes_law()
    ensures few { FailuresAreFew }
{}
