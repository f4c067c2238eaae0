// One step of the transfer of a request.
ghost use Rattle.std.specs.Prelude.{◌<◌};
ghost use Rattle.request_slots.specs.Steps.{MayStep, StepsSlot};

use crate::slot::{Holder, slot_at};
use crate::slots::Slots;
use mba_adapter::{Adapter, Drive, Moved, NoiseBook};
use outside_traits::traits::{Packs, StoreFailed};

impl Slots {
    /// Moves one sector of a transfer between the pack and the buffer of a slot, which the adapter has, as
    /// [`Adapter::step_sector`] does. A sector that is read becomes the next block of that slot, or the front of the
    /// sector does if the block is shorter. Otherwise no slot changes.
    ///
    /// `StoreFailed` comes only if the packs' count of failures rose. Then the slots, the adapter, the drive and the book
    /// are as before; if a write found the block unmarked, that block is old or new.
    pub fn step<P: Packs>(
        &mut self,
        slot: u32,
        adapter: &mut Adapter,
        drive: &mut Drive,
        packs: &mut P,
        unit: u8,
        book: &mut NoiseBook,
    ) -> Result<Moved, StoreFailed>
        requires unit { unit < 32 }
        requires may { MayStep self.old slot adapter.old drive.old }

        ensures { StepsSlot P.tells P.held P.faults packs.old packs.new unit slot
            (record { adapter = adapter.old; drive = drive.old; book = book.old; store = self.old })
            (record { adapter = adapter.new; drive = drive.new; book = book.new; store = self.new }) result }
    {
        let Holder::Adapter(buffer) = &slot_at(&self.slots, slot).buffer else {
            unreachable!()
        };
        adapter.step_sector(drive, packs, unit, &mut self.memory, buffer, book)
    }
}
