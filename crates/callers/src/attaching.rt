// These functions attach drives, and make a driver of them.
ghost use Rattle.std.specs.Prelude.{◌≡◌, ◌≤◌, IfSome};
ghost use Rattle.driver_machine.specs.Guards.{IsSetUp};
ghost use Rattle.blocking_io.specs.Asking.{IsReady};
ghost use Rattle.callers.specs.Asking.{MayGoOn};

use drive_model::Drive;
use driver_laws::shown::quiet::rests_law;
use hp_driver::{Subsystem, UnitSetup};
use mba_autoconf::attach;
use outside_traits::traits::Packs;
use pack_geometry::DriveKind;
use std::alloc::Global;

/// Attaches unit 0, an RM03, with the table of its pack, and makes a driver for one request at a time. None if the pack is too long or
/// fails, or if memory runs out.
pub fn attached<P: Packs>(alloc: Global, packs: &mut P) -> Option<Subsystem>
    ensures ready { IfSome result (λ s. IsReady s) }
    ensures room { IfSome result (λ s. s.outstanding ≡ 1) }
    ensures unit { IfSome result (λ s. IsSetUp s.world 0) }
{
    rests_law();
    let mut drive = Drive::new(DriveKind::Rm03, 0);
    let Ok(found) = attach(&mut drive, packs, 0) else {
        return None;
    };
    let units = [UnitSetup {
        unit: 0,
        kind: DriveKind::Rm03,
        table: found.table,
    }];
    match Subsystem::new(alloc, &units, 1, 0) {
        Ok(subsystem) => Some(subsystem),
        Err(_) => None,
    }
}

/// Attaches units 0 and 1, two RM03 on one adapter, and makes a driver on which `outstanding` requests, 65,536 at the most, may be
/// outstanding at once. None if a pack is too long or fails, or if memory runs out.
pub fn attached_both<P: Packs>(alloc: Global, packs: &mut P, outstanding: u32) -> Option<Subsystem>
    requires few { outstanding ≤ 65536 }
    ensures may { IfSome result (MayGoOn 0) }
    ensures room { IfSome result (λ s. s.outstanding ≡ outstanding) }
{
    let mut drive = Drive::new(DriveKind::Rm03, 0);
    let Ok(first) = attach(&mut drive, packs, 0) else {
        return None;
    };
    let mut other_drive = Drive::new(DriveKind::Rm03, 1);
    let Ok(second) = attach(&mut other_drive, packs, 1) else {
        return None;
    };
    let units = [
        UnitSetup {
            unit: 0,
            kind: DriveKind::Rm03,
            table: first.table,
        },
        UnitSetup {
            unit: 1,
            kind: DriveKind::Rm03,
            table: second.table,
        },
    ];
    match Subsystem::new(alloc, &units, outstanding, 0) {
        Ok(subsystem) => Some(subsystem),
        Err(_) => None,
    }
}
