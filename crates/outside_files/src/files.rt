ghost use Rattle.std.specs.Prelude.{◌≡◌, ◌<◌, ◌*◌, ◌⊎◌, IsTrue, true, false, length, IfOk, OnOk, OnErr};
ghost use Rattle.pack_geometry.specs.Pack.{window, block_at, is_marked, with_written, with_mark};
ghost use Rattle.outside_traits.specs.Causes.{HasCause, Counts};
ghost use Rattle.outside_traits.specs.declared.traits.PackCall.TheVariants.{Length, Block};
ghost use Rattle.outside_files.specs.Folder.{with_put, IsTorn, tells_whole};
ghost use Rattle.outside_traits.specs.Files.{file_of};
ghost use Rattle.outside_traits.specs.declared.wide_packs.Part.TheVariants.{Image};

use crate::failure::{Deed, FileCall, PackNotes};
use crate::folder::{PackFolder, Part};
use crate::os_folder::OsFolder;
use crate::transfers::{length_of, read_window, write_front};
use outside_traits::traits::{PackCall, Packs, StoreFailed};
use outside_traits::wide_packs::{WidePacks, is_mark, place_in_image};
use std::io;
use std::os::unix::fs::FileExt;
use std::rt::Files;

/// What a call on a unit's file tried. If the file is not open, the call failed to open or make it.
fn tried<F: PackFolder>(folder: &F, deed: Deed, unit: u8, part: Part) -> FileCall {
    let deed = match deed {
        _ if folder.is_open(unit, part) => deed,
        Deed::Write => Deed::Make,
        _ => Deed::Open,
    };
    FileCall { deed, unit, part }
}

/// The packs in the files of a folder. Block b is bytes 512*b to 512*b+511 of its unit's image, and byte b of the marks belongs
/// to block b. A missing file is empty, and the first write to it makes it.
///
/// If the folder tells what it holds, the packs do so too, until a write fails after it has written some of its bytes: the block of
/// that write is then neither old nor new. Each error counts as a fault, and the first error is kept. A call that was interrupted is
/// made again.
#[derive(Drop)]
pub struct FilePacks<F> {
    folder: F,
    torn: bool,
    called: PackCall,
    notes: PackNotes,
}

impl<R: Files + AllocGlobal> FilePacks<OsFolder<R>>
where
    R::File: FileExt,
{
    /// The packs in the files `hpU.dsk` and `hpU.bad` of the working folder. This call opens nothing, and the count of faults begins
    /// at 0.
    pub fn new(rt: R) -> FilePacks<OsFolder<R>>
        ensures faults { result.notes.failures.count ≡ 0 }
        ensures whole { result.torn ≡ false }
    {
        FilePacks::over(OsFolder::new(rt))
    }
}

impl<F: PackFolder> FilePacks<F> {
    /// The packs in the files of this folder. The count of faults begins at 0.
    pub fn over(folder: F) -> FilePacks<F>
        ensures folder { result.folder ≡ folder }
        ensures faults { result.notes.failures.count ≡ 0 }
        ensures whole { result.torn ≡ false }
    {
        FilePacks {
            folder,
            torn: false,
            called: PackCall::Length { unit: 0 },
            notes: PackNotes::new(),
        }
    }

    /// What the packs keep so that a message can say why a run failed.
    pub fn notes(&self) -> PackNotes
        ensures { result ≡ self.now.notes }
    {
        self.notes
    }

    /// Whether a block is marked.
    fn read_mark(&mut self, unit: u8, block: u32) -> io::Result<bool>
        requires { unit < 32 }
        ensures never_again { IsTrue (F.tells self.new.folder) → IsTrue (F.tells self.old.folder) }
        ensures mark { IfOk result (λ on. IsTrue (F.tells self.new.folder) → on ≡ is_marked (F.held self.old.folder unit) block) }
        ensures same { IsTrue (F.tells self.new.folder) → F.held self.new.folder ≡ F.held self.old.folder }
        ensures torn { self.new.torn ≡ self.old.torn }
        ensures notes { self.new.notes ≡ self.old.notes }
    {
        let mut byte = [0u8; 1];
        read_window(
            &mut self.folder,
            unit,
            Part::Marks,
            u64::from(block),
            &mut byte,
        )?;
        Ok(is_mark(byte[0]))
    }

    /// Writes bytes at a place of a file. If the write fails after some of them were written, the packs are torn.
    fn put(&mut self, unit: u8, part: Part, at: u64, from: &[u8]) -> io::Result<()>
        requires { unit < 32 }
        ensures never_again { IsTrue (F.tells self.new.folder) → IsTrue (F.tells self.old.folder) }
        ensures torn { self.new.torn ≡ false → self.old.torn ≡ false }
        ensures front { self.old.torn ≡ false → self.new.torn ≡ true → IsTorn (F.tells self.new.folder) (F.held self.old.folder) (F.held self.new.folder) unit part at from.now }
        ensures notes { self.new.notes ≡ self.old.notes }
        ensures ok { OnOk result (IsTrue (F.tells self.new.folder) → F.held self.new.folder ≡ with_put (F.held self.old.folder) unit part at from.now) }
        ensures err { OnErr result (IsTrue (F.tells self.new.folder) → self.new.torn ≡ false → F.held self.new.folder ≡ F.held self.old.folder) }
    {
        let (count, answer) = write_front(&mut self.folder, unit, part, at, from);
        if answer.is_err() && count > 0 {
            self.torn = true;
        }
        answer
    }
}

impl<F: PackFolder> Packs for FilePacks<F> {
    ghost tells = { λ p. tells_whole (F.tells p.folder) p.torn };

    ghost held = { λ p. F.held p.folder };

    ghost faults = { λ p. p.notes.failures.count };

    ghost failed_at = { λ p. p.called };

    // A call keeps what it is about. It counts a failure exactly if it answers one. Only a write can tear a block: one that fails after it
    // has written some of its bytes.
    fn length(&mut self, unit: u8) -> Result<u64, StoreFailed>
        requires { unit < 32 }
        ensures never_again { IsTrue (tells_whole (F.tells self.new.folder) self.new.torn) → IsTrue (tells_whole (F.tells self.old.folder) self.old.torn) }
        ensures length { IfOk result (λ n. IsTrue (tells_whole (F.tells self.new.folder) self.new.torn) → n ≡ length (F.held self.old.folder unit).image) }
        ensures same { IsTrue (tells_whole (F.tells self.new.folder) self.new.torn) → F.held self.new.folder ≡ F.held self.old.folder }
        ensures cause { HasCause self.old.notes.failures.count self.new.notes.failures.count result }
        ensures at { OnErr result (self.new.called ≡ Length unit) }
        ensures counted { Counts result self.old.notes.failures.count self.new.notes.failures.count }
        ensures torn { self.new.torn ≡ self.old.torn }
    {
        let length = length_of(&mut self.folder, unit, Part::Image);
        let call = tried(&self.folder, Deed::Measure, unit, Part::Image);
        self.called = PackCall::Length { unit };
        self.notes.failures.counted(length, call, StoreFailed)
    }

    #[tactic(auto, unfolding(pack_geometry::specs::Pack::block_at))]
    fn read(&mut self, unit: u8, block: u32, into: &mut [u8; 512]) -> Result<(), StoreFailed>
        requires { unit < 32 }
        ensures never_again { IsTrue (tells_whole (F.tells self.new.folder) self.new.torn) → IsTrue (tells_whole (F.tells self.old.folder) self.old.torn) }
        ensures block { OnOk result (IsTrue (tells_whole (F.tells self.new.folder) self.new.torn) → into.new ≡ block_at (F.held self.old.folder unit).image block) }
        ensures same { IsTrue (tells_whole (F.tells self.new.folder) self.new.torn) → F.held self.new.folder ≡ F.held self.old.folder }
        ensures cause { HasCause self.old.notes.failures.count self.new.notes.failures.count result }
        ensures at { OnErr result (self.new.called ≡ Block unit block) }
        ensures counted { Counts result self.old.notes.failures.count self.new.notes.failures.count }
        ensures torn { self.new.torn ≡ self.old.torn }
    {
        let place = place_in_image(block);
        let read = read_window(&mut self.folder, unit, Part::Image, place, into);
        let call = tried(&self.folder, Deed::Read, unit, Part::Image);
        self.called = PackCall::Block { unit, block };
        self.notes.failures.counted(read, call, StoreFailed)
    }

    fn write(&mut self, unit: u8, block: u32, from: &[u8; 512]) -> Result<(), StoreFailed>
        requires { unit < 32 }
        ensures never_again { IsTrue (tells_whole (F.tells self.new.folder) self.new.torn) → IsTrue (tells_whole (F.tells self.old.folder) self.old.torn) }
        ensures ok { OnOk result (IsTrue (tells_whole (F.tells self.new.folder) self.new.torn) → F.held self.new.folder ≡ with_written (F.held self.old.folder) unit block from.now) }
        ensures err { OnErr result (IsTrue (tells_whole (F.tells self.new.folder) self.new.torn) → (F.held self.new.folder ≡ F.held self.old.folder)
            ⊎ (F.held self.new.folder ≡ with_written (F.held self.old.folder) unit block from.now)) }
        ensures cause { HasCause self.old.notes.failures.count self.new.notes.failures.count result }
        ensures at { OnErr result (self.new.called ≡ Block unit block) }
        ensures counted { Counts result self.old.notes.failures.count self.new.notes.failures.count }
        ensures torn { self.old.torn ≡ false → self.new.torn ≡ true
            → IsTorn (F.tells self.new.folder) (F.held self.old.folder) (F.held self.new.folder) unit Image (512 * block) from.now }
    {
        let written = self.put(unit, Part::Image, place_in_image(block), from);
        let call = tried(&self.folder, Deed::Write, unit, Part::Image);
        self.notes.count(&written, block);
        self.called = PackCall::Block { unit, block };
        self.notes.failures.counted(written, call, StoreFailed)
    }

    fn marked(&mut self, unit: u8, block: u32) -> Result<bool, StoreFailed>
        requires { unit < 32 }
        ensures never_again { IsTrue (tells_whole (F.tells self.new.folder) self.new.torn) → IsTrue (tells_whole (F.tells self.old.folder) self.old.torn) }
        ensures mark { IfOk result (λ on. IsTrue (tells_whole (F.tells self.new.folder) self.new.torn) → on ≡ is_marked (F.held self.old.folder unit) block) }
        ensures same { IsTrue (tells_whole (F.tells self.new.folder) self.new.torn) → F.held self.new.folder ≡ F.held self.old.folder }
        ensures cause { HasCause self.old.notes.failures.count self.new.notes.failures.count result }
        ensures at { OnErr result (self.new.called ≡ Block unit block) }
        ensures counted { Counts result self.old.notes.failures.count self.new.notes.failures.count }
        ensures torn { self.new.torn ≡ self.old.torn }
    {
        let mark = self.read_mark(unit, block);
        let call = tried(&self.folder, Deed::Read, unit, Part::Marks);
        self.called = PackCall::Block { unit, block };
        self.notes.failures.counted(mark, call, StoreFailed)
    }

    fn set_mark(&mut self, unit: u8, block: u32, on: bool) -> Result<(), StoreFailed>
        requires { unit < 32 }
        ensures never_again { IsTrue (tells_whole (F.tells self.new.folder) self.new.torn) → IsTrue (tells_whole (F.tells self.old.folder) self.old.torn) }
        ensures ok { OnOk result (IsTrue (tells_whole (F.tells self.new.folder) self.new.torn) → F.held self.new.folder ≡ with_mark (F.held self.old.folder) unit block on) }
        ensures err { OnErr result (IsTrue (tells_whole (F.tells self.new.folder) self.new.torn) → (F.held self.new.folder ≡ F.held self.old.folder)
            ⊎ (F.held self.new.folder ≡ with_mark (F.held self.old.folder) unit block on)) }
        ensures cause { HasCause self.old.notes.failures.count self.new.notes.failures.count result }
        ensures at { OnErr result (self.new.called ≡ Block unit block) }
        ensures counted { Counts result self.old.notes.failures.count self.new.notes.failures.count }
        ensures torn { self.new.torn ≡ self.old.torn }
    {
        let written = self.put(unit, Part::Marks, u64::from(block), &[u8::from(on)]);
        let call = tried(&self.folder, Deed::Write, unit, Part::Marks);
        self.called = PackCall::Block { unit, block };
        self.notes.failures.counted(written, call, StoreFailed)
    }
}

impl<F: PackFolder> WidePacks for FilePacks<F> {
    fn read_part(
        &mut self,
        unit: u8,
        part: Part,
        at: u64,
        into: &mut [u8],
    ) -> Result<(), StoreFailed>
        requires { unit < 32 }
        ensures never_again { IsTrue (tells_whole (F.tells self.new.folder) self.new.torn) → IsTrue (tells_whole (F.tells self.old.folder) self.old.torn) }
        ensures bytes { OnOk result (IsTrue (tells_whole (F.tells self.new.folder) self.new.torn) → into.new ≡ window (length into.old) at (file_of (F.held self.old.folder unit) part)) }
        ensures same { IsTrue (tells_whole (F.tells self.new.folder) self.new.torn) → F.held self.new.folder ≡ F.held self.old.folder }
        ensures cause { HasCause self.old.notes.failures.count self.new.notes.failures.count result }
        ensures counted { Counts result self.old.notes.failures.count self.new.notes.failures.count }
        ensures torn { self.new.torn ≡ self.old.torn }
    {
        let read = read_window(&mut self.folder, unit, part, at, into);
        let call = tried(&self.folder, Deed::Read, unit, part);
        self.notes.failures.counted(read, call, StoreFailed)
    }
}
