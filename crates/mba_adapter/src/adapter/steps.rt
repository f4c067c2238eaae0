// One step of a transfer: the move of one sector between the drive and the loaded buffer.
ghost use Rattle.std.specs.Prelude.{◌≡◌, ◌<◌, true, false};
ghost use Rattle.hardware_table.specs.Adapter.{next_window, stepped};
ghost use Rattle.mba_adapter.specs.Steps.{MayMove, StepsSector, buffer_block};

use crate::adapter::Adapter;
use drive_model::{Drive, FaultKind, Moved, NoiseBook};
use main_memory::{Buffer, Bus, MainMemory};
use outside_traits::traits::{Packs, StoreFailed};

impl Adapter {
    // Takes the verdict on the next sector.
    fn take(&mut self, verdict: Moved)
        requires busy { self.old.busy ≡ true }
        requires under_way { self.old.completion ≡ false }
        ensures { self.new ≡ stepped verdict self.old }
    {
        self.verdict = verdict;
        match verdict {
            Moved::Clean => {
                let bytes = self.byte_count.min(512);
                self.address += bytes;
                self.byte_count -= bytes;
                self.moved += 1;
                self.completion = self.byte_count == 0;
            }
            Moved::Faulted(FaultKind::Late) => {
                self.data_late = true;
                self.completion = true;
            }
            _ => self.completion = true,
        }
    }

    /// Moves one sector: the next block of the pack into, or out of, the next block of the loaded buffer, by the rules of
    /// [`Drive::move_sector`]. A sector with the verdict `Clean` counts as moved; any other verdict ends the transfer.
    /// The completion goes up exactly if the verdict is not `Clean` or the byte count comes to 0; then the drive's transfer has ended too.
    ///
    /// `StoreFailed` comes only if the packs' count of failures rose. Then the adapter, the drive, the memory and the
    /// book are as before; if a write found the block unmarked, that block is old or new.
    pub fn step_sector<P: Packs>(
        &mut self,
        drive: &mut Drive,
        packs: &mut P,
        unit: u8,
        memory: &mut MainMemory,
        buffer: &Buffer<Bus>,
        book: &mut NoiseBook,
    ) -> Result<Moved, StoreFailed>
        requires unit { unit < 32 }
        requires may { MayMove self.old drive.old buffer.now memory.old }

        ensures steps { StepsSector P.tells P.held P.faults packs.old packs.new unit (buffer_block self.old buffer.now)
            (record { adapter = self.old; drive = drive.old; book = book.old; store = memory.old })
            (record { adapter = self.new; drive = drive.new; book = book.new; store = memory.new }) result }

        // The block is one of the buffer's.
        ensures inside { next_window self.old < self.old.blocks }
    {
        let mut window = memory.window(buffer, self.skip + self.moved);
        let verdict = drive.move_sector(packs, unit, self.block + self.moved, book, &mut window)?;
        self.take(verdict);
        if self.completion {
            drive.end_transfer();
        }
        Ok(verdict)
    }
}
