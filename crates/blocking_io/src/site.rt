// Where requests are waited for.
ghost use Rattle.std.specs.Prelude.{◌≡◌, ◌≤◌, ℕ, List, [], ◌∷◌, false};
ghost use Rattle.driver_machine.specs.Sound.{Sound, AtWork};
ghost use Rattle.hp_driver.specs.Subsystem.{asked};
ghost use Rattle.blocking_io.specs.Asking.{MayAsk};
ghost use Rattle.blocking_io.specs.Spots.{Spot, Waits, spot};

use crate::asking::{ask_read, ask_write};
use crate::reached::Reached;
use hp_driver::{Request, Stop, Subsystem};
use outside_traits::traits::{Packs, Sink};

/// A place where requests are waited for: a driver, and the packs and the trace that it works on.
pub trait Site {
    /// The driver, and what the packs and the trace tell.
    ghost at: { Self → Spot };

    /// The names of what was lent for it.
    ghost loans: { Self → List ℕ };

    /// The law of the driver, as `Subsystem::law`: its world is sound, and no unit that has a request stands still.
    fn law(&self)
        ensures sound { Sound (at self.now).driver.world }
        ensures work { (at self.now).driver.failed ≡ false → AtWork (at self.now).driver.world };

    /// Reads the blocks of a request into a buffer, as [`ask_read`] does.
    fn ask_read(&mut self, line: u64, request: Request, into: &mut [u8]) -> Result<Reached, Stop>
        requires line { 1 ≤ line }
        requires reads { request.write ≡ false }
        requires may { MayAsk (at self.old).driver request [] }
        ensures waits { Waits line (asked request []) into.old into.new result (at self.old) (at self.new) }
        ensures loans { loans self.new ≡ loans self.old };

    /// Writes the blocks of a request, as [`ask_write`] does.
    fn ask_write(&mut self, line: u64, request: Request, from: &[u8]) -> Result<Reached, Stop>
        requires line { 1 ≤ line }
        requires may { MayAsk (at self.old).driver request from.now }
        ensures waits { Waits line (asked request from.now) [] [] result (at self.old) (at self.new) }
        ensures loans { loans self.new ≡ loans self.old };
}

/// A driver, the packs and the trace, each of which was lent.
#[derive(Drop)]
pub struct Outlet<'a, P: Packs, T: Sink> {
    /// The driver.
    pub subsystem: &'a mut Subsystem,
    /// The packs that it works on.
    pub packs: &'a mut P,
    /// Where its lines go.
    pub trace: &'a mut T,
}

impl<'a, P: Packs, T: Sink> Site for Outlet<'a, P, T> {
    ghost at = { λ s. spot P.tells P.held P.faults T.tells T.taken T.faults s.subsystem.now s.packs.now s.trace.now };

    ghost loans = { λ s. s.subsystem.ghost_name ∷ s.packs.ghost_name ∷ s.trace.ghost_name ∷ [] };

    fn law(&self) {
        self.subsystem.law();
    }

    fn ask_read(&mut self, line: u64, request: Request, into: &mut [u8]) -> Result<Reached, Stop> {
        ask_read(self.subsystem, line, request, into, self.packs, self.trace)
    }

    fn ask_write(&mut self, line: u64, request: Request, from: &[u8]) -> Result<Reached, Stop> {
        ask_write(self.subsystem, line, request, from, self.packs, self.trace)
    }
}
