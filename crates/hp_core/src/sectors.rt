// One sector of a transfer.
ghost use Rattle.std.specs.Prelude.{◌≡◌, ◌<◌};
ghost use Rattle.driver_machine.specs.World.{unit_at, adapter_at, slot_in_hand, adapter_of};
ghost use Rattle.driver_machine.specs.Sound.{Sound};
ghost use Rattle.request_slots.specs.Steps.{MayStep};
ghost use Rattle.hp_core.specs.Done.{HasUnit, TriesNext, DoesMove};

use crate::driver::Core;
use driver_laws::answers::outcome::Stop;
use hardware_table::Moved;
use outside_traits::traits::{Packs, Sink, StoreFailed};

impl Core {
    /// Tries the next sector of the transfer under way, which is for the request of a slot.
    fn try_next<P: Packs>(&mut self, u: u8, slot: u32, packs: &mut P) -> Result<Moved, StoreFailed>
        requires there { HasUnit self.old.world u }
        requires slot { slot ≡ slot_in_hand (unit_at self.old.world u) }
        requires may { MayStep self.old.world.slots slot (adapter_at self.old.world (adapter_of u)).state (unit_at self.old.world u).drive }
        ensures { TriesNext P.tells P.held P.faults packs.old packs.new u self.old self.new result }
    {
        let channel = &mut self.channels[usize::from(u / 8)];
        let unit = &mut self.units[usize::from(u)];
        self.slots.step(
            slot,
            &mut channel.adapter,
            &mut unit.drive,
            packs,
            u,
            &mut self.book,
        )
    }

    /// Moves one sector of an adapter's transfer, if a transfer is under way. Stops if the packs or the trace fail.
    pub fn move_sector<P: Packs, T: Sink>(
        &mut self,
        line: u64,
        a: u8,
        packs: &mut P,
        trace: &mut T,
    ) -> Result<(), Stop>
        requires sound { Sound self.old.world }
        requires adapter { a < 4 }
        ensures { DoesMove P.tells P.held P.faults T.tells T.taken T.faults packs.old packs.new trace.old trace.new self.old self.new result line a }
    {
        if !self.moves(a) {
            return self.nothing(line, trace);
        }
        let u = self.transferring(a);
        let slot = self.hand(u);
        let id = self.asked(slot).id;
        let block = self.channels[usize::from(a)].adapter.next_block();
        let Ok(verdict) = self.try_next(u, slot, packs) else {
            return Err(Stop::Store);
        };
        self.tell_sector(line, u, id, block, verdict, trace)
    }
}
