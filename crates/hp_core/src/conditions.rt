// Conditions that change: what each change leaves, and that it performs its act.
ghost use Rattle.trace_replay.specs.Script as script;
ghost use Rattle.driver_machine.specs.Acts.{Change};
ghost use Rattle.driver_machine.specs.Guards.{Allowed};
ghost use Rattle.driver_machine.specs.Sound.{Sound};
ghost use Rattle.hp_core.specs.Done.{DoesSilently};

use crate::driver::Core;
use fire_code::Noise;
use hardware_table::{FaultKind, NoiseSpan};

impl Core {
    /// Turns a pack until a sector comes under the heads.
    pub fn turn(&mut self, u: u8, sector: u32)
        requires sound { Sound self.old.world }
        requires may { Allowed self.old.world (Change (script.Turn u sector)) }
        ensures { DoesSilently self.old self.new (Change (script.Turn u sector)) }
    {
        self.units[usize::from(u)].turn(sector);
    }

    /// Arms a fault at a drive, for `times` more times.
    pub fn arm(&mut self, u: u8, kind: FaultKind, times: u32)
        requires sound { Sound self.old.world }
        requires may { Allowed self.old.world (Change (script.Arm u kind times)) }
        ensures { DoesSilently self.old self.new (Change (script.Arm u kind times)) }
    {
        self.units[usize::from(u)].arm(kind, times);
    }

    /// Brings a drive online, or takes it offline.
    pub fn set_online(&mut self, u: u8, on: bool)
        requires sound { Sound self.old.world }
        requires may { Allowed self.old.world (Change (script.SetOnline u on)) }
        ensures { DoesSilently self.old self.new (Change (script.SetOnline u on)) }
    {
        self.units[usize::from(u)].set_online(on);
    }

    /// Write-locks a drive, or unlocks it.
    pub fn set_locked(&mut self, u: u8, on: bool)
        requires sound { Sound self.old.world }
        requires may { Allowed self.old.world (Change (script.SetLocked u on)) }
        ensures { DoesSilently self.old self.new (Change (script.SetLocked u on)) }
    {
        self.units[usize::from(u)].set_locked(on);
    }

    /// Arms noise at a block of a unit.
    pub fn arm_noise(&mut self, unit: u8, block: u32, noise: Noise, span: NoiseSpan)
        requires sound { Sound self.old.world }
        requires may { Allowed self.old.world (Change (script.Noise (record { unit = unit; block = block; span = span; places = noise }))) }
        ensures { DoesSilently self.old self.new (Change (script.Noise (record { unit = unit; block = block; span = span; places = noise }))) }
    {
        self.book.arm(unit, block, noise, span);
    }
}
