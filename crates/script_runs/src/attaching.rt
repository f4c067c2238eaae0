// The units of a script are attached.
ghost use Rattle.std.specs.Prelude.{◌≡◌, ◌≤◌, ◌<◌, ℕ, IsTrue, IfOk, IfErr, OnOk, IsErrOf};
ghost use Rattle.outside_traits.specs.Causes.{Rose};
ghost use Rattle.pack_geometry.specs.PackTable.{AreTablesOf};
ghost use Rattle.trace_replay.specs.Script.{AreUnitsFirst, drives_of};
ghost use Rattle.hp_units.specs.Setups.{setup_of, setups_of};
ghost use Rattle.script_runs.specs.Steps.{tables_in, AreSetFor};
ghost use Rattle.script_runs.specs.Attaching.{IsSet, IsFoundLong, HasRoom, Adds, RefusesLine, FailsLine, AttachesOne};
ghost use Rattle.mba_autoconf.specs.Attach.{IsAttaching};
ghost use Rattle.script_runs.specs.Faults.{IsLongFor};
ghost use Rattle.script_runs.specs.Lengths.{IsTooLong};

use crate::PlayFault;
use crate::dialects::Declaring;
use drive_model::Drive;
use hp_units::UnitSetup;
use mba_autoconf::{AttachFault, attach};
use outside_traits::traits::Packs;
use pack_geometry::DriveKind;
use std::alloc::Global;

/// Attaches a unit, one of the 32, with the table of its pack. The packs stay as they were.
///
/// `TooLong` comes if its image has more bytes than the blocks of its drive, and `Store` only if the packs' count of faults rose.
fn attach_unit<P: Packs>(unit: u8, kind: DriveKind, packs: &mut P) -> Result<UnitSetup, PlayFault>
    requires unit { unit < 32 }
    ensures set { IfOk result (λ s. IsSet (P.tells packs.new) (P.held packs.old) unit kind (setup_of s)) }
    ensures long { IfErr result (IsFoundLong (P.tells packs.new) (P.held packs.old unit) unit kind) }
    ensures same { IsTrue (P.tells packs.new) → P.held packs.new ≡ P.held packs.old }
    ensures never_again { IsTrue (P.tells packs.new) → IsTrue (P.tells packs.old) }
    ensures later { P.faults packs.old ≤ P.faults packs.new }
    ensures store { IsErrOf result PlayFault.Store → Rose (P.faults packs.old) (P.faults packs.new) }
    ensures at { IsErrOf result PlayFault.Store → IsAttaching kind unit (P.failed_at packs.new) }
    ensures no_sink { ¬ (IsErrOf result PlayFault.Sink) }
{
    let mut drive = Drive::new(kind, u16::from(unit));
    match attach(&mut drive, packs, unit) {
        Ok(attached) => Ok(UnitSetup {
            unit,
            kind,
            table: attached.table,
        }),
        Err(AttachFault::TooLong { length }) => Err(PlayFault::TooLong { unit, length }),
        Err(AttachFault::Store) => Err(PlayFault::Store),
    }
}

/// Attaches the unit that a line declares, if it declares one.
fn attach_declared<P: Packs>(
    declared: Option<(u8, DriveKind)>,
    packs: &mut P,
    units: &mut Vec<UnitSetup>,
) -> Result<(), PlayFault>
    requires room { HasRoom declared }
    ensures adds { OnOk result (Adds (P.tells packs.new) (P.held packs.old) declared (setups_of units.old.items) (setups_of units.new.items)) }
    ensures refuses { IfErr result (RefusesLine (P.tells packs.new) (P.held packs.old) declared) }
    ensures same { IsTrue (P.tells packs.new) → P.held packs.new ≡ P.held packs.old }
    ensures never_again { IsTrue (P.tells packs.new) → IsTrue (P.tells packs.old) }
    ensures later { P.faults packs.old ≤ P.faults packs.new }
    ensures store { IsErrOf result PlayFault.Store → Rose (P.faults packs.old) (P.faults packs.new) }
    ensures at { IsErrOf result PlayFault.Store → FailsLine declared (P.failed_at packs.new) }
    ensures no_sink { ¬ (IsErrOf result PlayFault.Sink) }
{
    match declared {
        Some((unit, kind)) => {
            let setup = attach_unit(unit, kind, packs)?;
            units.push(setup).map_err(|_| PlayFault::Memory)
        }
        None => Ok(()),
    }
}

/// Attaches the units that a script declares, in the order of their lines, with the tables of their packs. The packs stay as they were.
///
/// `TooLong` names the first unit whose image has more bytes than the blocks of its drive. `Store` comes only if the packs' count of
/// faults rose, and `Memory` only if there was no memory.
pub fn attach_units<S: Declaring, P: Packs>(
    alloc: Global,
    script: &S,
    packs: &mut P,
) -> Result<Vec<UnitSetup>, PlayFault>
    requires first { AreUnitsFirst (S.means script.now).lines }
    ensures set { IfOk result (λ units. AreSetFor (S.means script.now) (tables_in (setups_of units.items)) (setups_of units.items)) }
    ensures tables { IfOk result (λ units. IsTrue (P.tells packs.new)
        → AreTablesOf (drives_of (S.means script.now)) (P.held packs.old) (tables_in (setups_of units.items))) }
    ensures fits { OnOk result (IsTrue (P.tells packs.new) → (unit n : ℕ) → ¬ (IsTooLong (S.means script.now) (P.held packs.old) unit n)) }
    ensures too_long { IfErr result (IsLongFor (S.means script.now) (P.tells packs.new) (P.held packs.old)) }
    ensures same { IsTrue (P.tells packs.new) → P.held packs.new ≡ P.held packs.old }
    ensures never_again { IsTrue (P.tells packs.new) → IsTrue (P.tells packs.old) }
    ensures later { P.faults packs.old ≤ P.faults packs.new }
    ensures store { IsErrOf result PlayFault.Store → Rose (P.faults packs.old) (P.faults packs.new) }
    ensures at { IsErrOf result PlayFault.Store → AttachesOne (S.means script.now) (P.failed_at packs.new) }
    ensures no_sink { ¬ (IsErrOf result PlayFault.Sink) }
{
    let mut units = Vec::new(alloc);
    for i in 0..script.line_count() {
        attach_declared(script.declared(i), packs, &mut units)?;
    }
    Ok(units)
}
