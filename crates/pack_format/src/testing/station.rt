//! A drive and an adapter that are polled: one sector moves at a time, through one frame of memory.
ghost use Rattle.std.specs.Prelude.{◌≡◌, ◌<◌, true, false, [], IsTrue, IfOk, MatchResult, OnOk, OnErr, if◌then◌else◌, length};
ghost use Rattle.drive_registers.specs.declared.Function.TheVariants.{Read, Write};
ghost use Rattle.hardware_table.specs.Adapter.{started};
ghost use Rattle.hardware_table.specs.Functions.{is_addressed};
ghost use Rattle.hardware_table.specs.declared.Work.TheVariants.{Ready, Transfer};
ghost use Rattle.main_memory.specs.Blocks.{bytes_in, span_of};
ghost use Rattle.main_memory.specs.Bytes.{filled};
ghost use Rattle.main_memory.specs.Memory.{IsLent};
ghost use Rattle.mba_adapter.specs.Loaded.{loaded_buffer};
ghost use Rattle.pack_format.specs.Steps.{Tries, seen};
ghost use Rattle.pack_format.specs.testing.Polls.{IsOldOrNew, Polls, sides_of};
ghost use Rattle.pack_format.specs.declared.testing.station.Polled.TheVariants.{Clean, Marked};
ghost use Rattle.pack_format.specs.testing.Stations.{Does, HasBegun, HasFrame, HasMoved, IsAimed, IsAtRest, IsBegun, IsFrame, IsSector, IsStarted};
ghost use Rattle.pack_geometry.specs.Geometry.{IsInside, block_count, track_and_sector};

use drive_model::{Drive, Moved, NoiseBook};
use drive_registers::Function;
use hardware_table::Register;
use main_memory::{Buffer, Bus, Cpu, MainMemory};
use mba_adapter::Adapter;
use outside_traits::traits::{NoMemory, Packs, StoreFailed};
use pack_geometry::{DriveKind, Place, place_law, place_of, sector_word};
use std::alloc::Global;

/// What one poll of a sector came to.
#[derive(Clone, Copy)]
pub enum Polled {
    /// The sector moved.
    Clean,
    /// The sector is marked, and nothing moved.
    Marked,
}

/// A good drive, online and unlocked, with no fault armed and no noise live; a free adapter; and memory of which a frame
/// is free.
#[derive(Drop)]
pub struct Station {
    drive: Drive,
    adapter: Adapter,
    memory: MainMemory,
    book: NoiseBook,
}

/// The function that moves a sector.
fn direction(write: bool) -> Function
    ensures { result ≡ (if write then Write else Read) }
{
    if write {
        Function::Write
    } else {
        Function::Read
    }
}

/// The drive's address names a place.
fn name(drive: &mut Drive, place: Place)
    requires { IsInside drive.old.kind place }
    ensures { drive.new ≡ record drive.old { dc = place.cylinder; da = track_and_sector place } }
{
    drive.write_register(Register::Dc, place.cylinder as u16);
    drive.write_register(Register::Da, sector_word(place));
}

/// The heads go to the cylinder that the address names, where they are not there: a seek, and what ends it.
fn seek(drive: &mut Drive, kind: DriveKind)
    requires good { Does kind Ready drive.old }
    requires addressed { is_addressed drive.old ≡ true }
    ensures good { Does kind Ready drive.new }
    ensures address { (drive.new.dc ≡ drive.old.dc) × (drive.new.da ≡ drive.old.da) }
    ensures heads { drive.new.cc ≡ drive.old.dc }
{
    if drive.read_register(Register::Cc) == drive.read_register(Register::Dc) {
        return;
    }
    drive.go(Function::Seek);
    drive.arrive();
    drive.clear_attention();
}

/// The heads stand on a block's cylinder, and the drive's address names the block.
fn aim(drive: &mut Drive, kind: DriveKind, block: u32)
    requires good { Does kind Ready drive.old }
    requires block { block < block_count kind }
    ensures good { Does kind Ready drive.new }
    ensures addressed { is_addressed drive.new ≡ true }
    ensures aimed { IsAimed kind block drive.new }
{
    place_law(kind);
    name(drive, place_of(kind, block));
    seek(drive, kind);
}

/// The drive begins to move the sector at which it is aimed.
fn begin(drive: &mut Drive, kind: DriveKind, block: u32, write: bool)
    requires good { Does kind Ready drive.old }
    requires addressed { is_addressed drive.old ≡ true }
    requires aimed { IsAimed kind block drive.old }
    ensures { HasBegun kind block write drive.new }
{
    drive.go(direction(write));
}

/// The adapter begins a transfer between a block and a frame.
fn hand(adapter: &mut Adapter, frame: Buffer<Cpu>, block: u32, write: bool) -> Buffer<Bus>
    requires free { adapter.old.busy ≡ false }
    requires frame { IsFrame frame }
    ensures same { result ≡ frame }
    ensures started { IsStarted frame block write adapter.new }
{
    let frame = adapter.load(frame, 0, 1);
    adapter.start(0, block, 1, write);
    frame
}

/// A frame of memory.
fn frame(memory: &mut MainMemory) -> Buffer<Cpu>
    requires { 0 < length memory.old.free }
    ensures frame { IsFrame result }
    ensures lent { IsLent memory.new result }
    ensures bytes { memory.new.bytes ≡ memory.old.bytes }
{
    memory.lend(1, 0, 512).unwrap()
}

/// The frame gets the bytes of a block.
fn put(memory: &mut MainMemory, frame: &Buffer<Cpu>, from: &[u8; 512])
    requires frame { IsFrame frame.now }
    requires lent { IsLent memory.old frame.now }
    ensures bytes { filled 512 (bytes_in (span_of frame.now 0) memory.new.bytes) ≡ from.now }
    ensures lent { IsLent memory.new frame.now }
{
    memory.store(frame, 0, from);
}

/// The bytes of the frame are taken, where a sector was read.
fn take(memory: &MainMemory, polled: Polled, frame: &Buffer<Cpu>, into: &mut [u8; 512])
    requires frame { IsFrame frame.now }
    requires lent { IsLent memory.now frame.now }
    ensures clean { polled ≡ Clean → into.new ≡ filled 512 (bytes_in (span_of frame.now 0) memory.now.bytes) }
    ensures marked { polled ≡ Marked → into.new ≡ into.old }
{
    match polled {
        Polled::Clean => memory.fetch(frame, 0, into),
        Polled::Marked => {}
    }
}

impl Station {
    /// A station with a drive of a kind. There may be no memory for it.
    pub fn new(alloc: Global, kind: DriveKind) -> Result<Station, NoMemory>
        ensures { IfOk result (IsAtRest kind) }
    {
        let memory = MainMemory::new(alloc)?;
        let book = NoiseBook::new(alloc, 0)?;
        let mut drive = Drive::new(kind, 0);
        drive.go(Function::Preset);
        drive.go(Function::Pack);
        Ok(Station {
            drive,
            adapter: Adapter::new(),
            memory,
            book,
        })
    }

    /// The sector that was begun is tried.
    fn try_block<P: Packs>(
        &mut self,
        packs: &mut P,
        unit: u8,
        kind: DriveKind,
        block: u32,
        write: bool,
        frame: &Buffer<Bus>,
    ) -> Result<Polled, StoreFailed>
        requires sector { IsSector kind unit block }
        requires begun { IsBegun kind frame.now block write self.old }
        ensures polls { IfOk result (Polls unit block write (P.tells packs.new)
            (sides_of (P.held packs.old) frame.now self.old.memory) (sides_of (P.held packs.new) frame.now self.new.memory)) }
        ensures moved { OnOk result (HasMoved kind frame.now self.new) }
        ensures failed { OnErr result (IsOldOrNew unit block write (P.tells packs.new) (sides_of (P.held packs.old) frame.now self.old.memory) (P.held packs.new)) }
        ensures stuck { OnErr result (self.new.adapter.busy ≡ true) }
        ensures tries { Tries (seen P.tells P.held P.faults packs.old) (seen P.tells P.held P.faults packs.new) result }
    {
        let verdict = self.adapter.step_sector(
            &mut self.drive,
            packs,
            unit,
            &mut self.memory,
            frame,
            &mut self.book,
        )?;
        match verdict {
            Moved::Clean => Ok(Polled::Clean),
            _ => {
                self.drive.go(Function::Clear);
                Ok(Polled::Marked)
            }
        }
    }

    /// One sector is moved between a frame and a block.
    fn poll<P: Packs>(
        &mut self,
        packs: &mut P,
        unit: u8,
        kind: DriveKind,
        block: u32,
        write: bool,
        frame: Buffer<Cpu>,
    ) -> Result<(Polled, Buffer<Cpu>), StoreFailed>
        requires sector { IsSector kind unit block }
        requires rest { HasFrame kind frame self.old }
        ensures polls { IfOk result (λ told. Polls unit block write (P.tells packs.new)
            (sides_of (P.held packs.old) frame self.old.memory) (sides_of (P.held packs.new) frame self.new.memory) told.0) }
        ensures frame { IfOk result (λ told. told.1 ≡ frame) }
        ensures held { OnOk result (HasFrame kind frame self.new) }
        ensures failed { OnErr result (IsOldOrNew unit block write (P.tells packs.new) (sides_of (P.held packs.old) frame self.old.memory) (P.held packs.new)) }
        ensures stuck { OnErr result (self.new.adapter.busy ≡ true) }
        ensures tries { Tries (seen P.tells P.held P.faults packs.old) (seen P.tells P.held P.faults packs.new) result }
    {
        aim(&mut self.drive, kind, block);
        begin(&mut self.drive, kind, block, write);
        let frame = hand(&mut self.adapter, frame, block, write);
        let polled = self.try_block(packs, unit, kind, block, write, &frame)?;
        let (frame, _) = self.adapter.complete(frame);
        Ok((polled, frame))
    }

    /// Reads a block of a unit's pack: Clean with its bytes, or Marked, exactly where it is marked; then the bytes are as
    /// they were. The packs stay. `StoreFailed` comes only where the packs' count of faults rose; then the transfer is never
    /// completed, so that the station is not at rest, as each poll asks, and polls no more.
    pub fn poll_read<P: Packs>(
        &mut self,
        packs: &mut P,
        unit: u8,
        kind: DriveKind,
        block: u32,
        into: &mut [u8; 512],
    ) -> Result<Polled, StoreFailed>
        requires sector { IsSector kind unit block }
        requires rest { IsAtRest kind self.old }
        ensures polls { IfOk result (Polls unit block false (P.tells packs.new)
            (record { held = P.held packs.old; bytes = into.old }) (record { held = P.held packs.new; bytes = into.new })) }
        ensures rest { MatchResult result (λ _. IsAtRest kind self.new) (λ _. ¬ (IsAtRest kind self.new)) }
        ensures failed { OnErr result (IsTrue (P.tells packs.new) → P.held packs.new ≡ P.held packs.old) }
        ensures tries { Tries (seen P.tells P.held P.faults packs.old) (seen P.tells P.held P.faults packs.new) result }
    {
        let frame = frame(&mut self.memory);
        let (polled, frame) = self.poll(packs, unit, kind, block, false, frame)?;
        take(&self.memory, polled, &frame, into);
        self.memory.give_back(frame);
        Ok(polled)
    }

    /// Writes a block of a unit's pack: Clean where it has the bytes, or Marked, exactly where it is marked; then the
    /// packs stay. `StoreFailed` comes only where the packs' count of faults rose, and leaves the block old or new, and the
    /// station as where a reading fails.
    pub fn poll_write<P: Packs>(
        &mut self,
        packs: &mut P,
        unit: u8,
        kind: DriveKind,
        block: u32,
        from: &[u8; 512],
    ) -> Result<Polled, StoreFailed>
        requires sector { IsSector kind unit block }
        requires rest { IsAtRest kind self.old }
        ensures polls { IfOk result (Polls unit block true (P.tells packs.new)
            (record { held = P.held packs.old; bytes = from.now }) (record { held = P.held packs.new; bytes = from.now })) }
        ensures rest { MatchResult result (λ _. IsAtRest kind self.new) (λ _. ¬ (IsAtRest kind self.new)) }
        ensures failed { OnErr result (IsOldOrNew unit block true (P.tells packs.new) (record { held = P.held packs.old; bytes = from.now }) (P.held packs.new)) }
        ensures tries { Tries (seen P.tells P.held P.faults packs.old) (seen P.tells P.held P.faults packs.new) result }
    {
        let frame = frame(&mut self.memory);
        put(&mut self.memory, &frame, from);
        let (polled, frame) = self.poll(packs, unit, kind, block, true, frame)?;
        self.memory.give_back(frame);
        Ok(polled)
    }
}
