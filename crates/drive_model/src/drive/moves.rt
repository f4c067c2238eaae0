// The move of one sector between the pack and the memory.
ghost use Rattle.std.specs.Prelude.{◌≡◌, ◌<◌, ◌+◌, ◌%◌, ℕ, List, true, MatchBool, Some};
ghost use Rattle.pack_geometry.specs.Geometry.{block_count};
ghost use Rattle.hardware_table.specs.Drive.{is_transferring, is_writing};
ghost use Rattle.main_memory.specs.Windows.{memory_name, window_len, window_bytes, Writes};
ghost use Rattle.hardware_table.specs.Noise.{strikes, book_struck};
ghost use Rattle.hardware_table.specs.Moves.{stop_of, IsReadVerdict, IsReadAs, passed, fault_used, with_fault_bits, with_mark_bits, after_move};
ghost use Rattle.hardware_table.specs.declared.Moved.TheVariants.{Burst, Hard};
ghost use Rattle.drive_model.specs.Move.{TriesSector, scene_at, drive_after, has_read};
ghost use Rattle.fire_code.specs.Remainder.{remainder};
ghost use Rattle.fire_code.specs.Verdict.{Judges};

use crate::drive::Drive;
use crate::sector_format::{HeaderFault, header_fault, header_of};
use bitflags::Flags;
use drive_registers::{Er1, Er2};
use fire_code::{Check, Verdict, apply, data_law, judge_noise};
use hardware_table::{FaultKind, Moved, Work};
use live_noise::NoiseBook;
use main_memory::Window;
use outside_traits::traits::{Packs, StoreFailed};
use pack_geometry::{blocks, geometry_of, place_of, sector_word};

// The verdict on a read that noise has struck.
fn moved_by(verdict: Verdict) -> Moved
    ensures { (places : List ℕ) → Judges verdict (remainder places) → IsReadVerdict (Some places) result }
{
    match verdict {
        Verdict::Clean => Moved::Clean,
        Verdict::Burst { at, pattern } => Moved::Burst { at, pattern },
        Verdict::Uncorrectable => Moved::Hard,
    }
}

// Reads a sector's bytes through the noise that strikes it, and judges them by its places.
fn read_through(book: &mut NoiseBook, unit: u8, block: u32, of: u16, bytes: &mut [u8; 512]) -> Moved
    ensures verdict { IsReadVerdict (strikes unit block of book.old.live) result }
    ensures bytes { IsReadAs (strikes unit block of book.old.live) bytes.old bytes.new }
    ensures book { book.new ≡ book_struck unit block of book.old }
{
    match book.strike(unit, block, of) {
        None => Moved::Clean,
        Some(noise) => {
            data_law(bytes);
            let _check = apply(&noise, bytes, Check(0));
            data_law(bytes);
            moved_by(judge_noise(&noise))
        }
    }
}

impl Drive {
    // The verdict of a drive that is offline, or on which a fault is armed: the armed fault that comes first in the order in which faults strike.
    fn stop(&self) -> Option<Moved>
        ensures { result ≡ stop_of self.now }
    {
        if !self.online {
            return Some(Moved::Offline);
        }
        let armed = self.armed;
        let kind = if armed.seek > 0 {
            FaultKind::Seek
        } else if armed.opi > 0 {
            FaultKind::Opi
        } else if armed.dte > 0 {
            FaultKind::Dte
        } else if armed.hcrc > 0 {
            FaultKind::Hcrc
        } else if armed.late > 0 {
            FaultKind::Late
        } else {
            return None;
        };
        Some(Moved::Faulted(kind))
    }

    // The heads have passed a block.
    fn pass(&mut self, block: u32)
        requires { block < block_count self.old.kind }
        ensures { self.new ≡ passed block self.old }
    {
        let kind = self.kind;
        let place = place_of(kind, block);
        self.cc = place.cylinder as u16;
        self.la = ((place.sector + 1) % geometry_of(kind).sectors) as u16 * 64;
        if block + 1 < blocks(kind) {
            let next = place_of(kind, block + 1);
            self.dc = next.cylinder as u16;
            self.da = sector_word(next);
        }
    }

    // A fault strikes: it is used once, and its error bit goes on, except that data late has none.
    fn take_fault(&mut self, kind: FaultKind)
        ensures { self.new ≡ with_fault_bits kind (fault_used kind self.old) }
    {
        match kind {
            FaultKind::Seek => {
                self.armed.seek = self.armed.seek.saturating_sub(1);
                self.er2 |= Er2::SKI.bits();
            }
            FaultKind::Opi => {
                self.armed.opi = self.armed.opi.saturating_sub(1);
                self.er1 |= Er1::OPI.bits();
            }
            FaultKind::Dte => {
                self.armed.dte = self.armed.dte.saturating_sub(1);
                self.er1 |= Er1::DTE.bits();
            }
            FaultKind::Hcrc => {
                self.armed.hcrc = self.armed.hcrc.saturating_sub(1);
                self.er1 |= Er1::HCRC.bits();
            }
            FaultKind::Late => self.armed.late = self.armed.late.saturating_sub(1),
        }
    }

    // A sector is marked: the error bit of the fault that its header shows goes on, which is format error on an RP06, and
    // bad sector error on an RM03 and an RM05.
    fn take_mark(&mut self, block: u32)
        requires { block < block_count self.old.kind }
        ensures { self.new ≡ with_mark_bits self.old.kind self.old }
    {
        let header = header_of(self.kind, block, true);
        match header_fault(self.kind, header, block) {
            Some(HeaderFault::Format) => self.er1 |= Er1::FER.bits(),
            Some(HeaderFault::BadSector) => self.er2 |= Er2::BSE.bits(),
            Some(HeaderFault::Compare) | None => {}
        }
    }

    // What the verdict on a block does to the drive.
    fn take(&mut self, verdict: Moved, block: u32)
        requires { block < block_count self.old.kind }
        ensures { self.new ≡ after_move verdict block self.old }
    {
        match verdict {
            Moved::Clean => self.pass(block),
            Moved::Burst { at, pattern } => {
                self.pass(block);
                self.er1 |= Er1::DCK.bits();
                (self.ec1, self.ec2) = (at, pattern);
            }
            Moved::Hard => {
                self.pass(block);
                self.er1 |= Er1::DCK.bits() | Er1::ECH.bits();
            }
            Moved::Marked => self.take_mark(block),
            Moved::Faulted(kind) => self.take_fault(kind),
            Moved::Offline => self.er1 |= Er1::UNS.bits(),
        }
    }

    /// Moves one sector of the transfer that is under way, between block `block` of a unit's pack and the window. The
    /// first of these rules that applies decides. The registers change as the verdict says; the transfer stays under way:
    ///
    /// 1. The drive is offline: the verdict is `Offline`.
    /// 2. A fault is armed: the first armed kind, in the order seek, opi, dte, hcrc, late, is used once: `Faulted`.
    /// 3. The mark byte of the pack marks the sector: `Marked`.
    /// 4. A write: the window's bytes, filled up with zeros, go to the pack: `Clean`.
    /// 5. A read: the sector's bytes, with the noise that strikes, go to the window, from the first one on and as far
    ///    as the window reaches. The verdict, `Clean`, `Burst` or `Hard`, is that of the whole sector's word with the
    ///    noise's places flipped.
    ///
    /// `StoreFailed` comes only if the packs' count of failures rose. Then the drive, the book and the window are as
    /// before; if a write found the block unmarked, that block is old or new.
    pub fn move_sector<P: Packs>(
        &mut self,
        packs: &mut P,
        unit: u8,
        block: u32,
        book: &mut NoiseBook,
        window: &mut Window<'_>,
    ) -> Result<Moved, StoreFailed>
        requires unit { unit < 32 }
        requires transfer { is_transferring self.old.work ≡ true }
        requires block { block < block_count self.old.kind }

        ensures tries { TriesSector P.tells P.held P.faults packs.old packs.new unit block self.old (window_len window.old)
            (scene_at book.old window.old) (scene_at book.new window.new) result }
        ensures drive { self.new ≡ drive_after result block self.old }

        // Nothing is written to memory except the window of a read.
        ensures window { MatchBool (has_read self.old result) (Writes window.old window.new (window_bytes window.new)) (window.new ≡ window.old) }
        ensures same_memory { memory_name window.new ≡ memory_name window.old }
    {
        if let Some(verdict) = self.stop() {
            self.take(verdict, block);
            return Ok(verdict);
        }
        if packs.marked(unit, block)? {
            self.take(Moved::Marked, block);
            return Ok(Moved::Marked);
        }
        let mut sector = [0; 512];
        if self.is_writing() {
            window.copy_out(&mut sector);
            packs.write(unit, block, &sector)?;
            self.take(Moved::Clean, block);
            return Ok(Moved::Clean);
        }
        packs.read(unit, block, &mut sector)?;
        let moved = read_through(book, unit, block, self.offset, &mut sector);
        window.copy_in(&sector);
        self.take(moved, block);
        Ok(moved)
    }

    // Whether a write is under way.
    fn is_writing(&self) -> bool
        ensures { result ≡ is_writing self.now.work }
    {
        matches!(self.work, Work::Transfer { write: true })
    }
}
