// An adapter: what it holds, and its acts.
ghost use Rattle.std.specs.Prelude.{◌≡◌, ◌≤◌, ◌<◌, ◌+◌, ◌^◌, ◌==◌, ℕ, true, false, if◌then◌else◌, slice_index};
ghost use Rattle.std.specs.Int.{bit_at};
ghost use Rattle.hardware_table.specs.Adapter.{new_adapter, next_block, bytes_between, registers_used, loaded, IsLoaded, IsAdapter, started, completed, attention_raised, attention_lowered};
ghost use Rattle.mba_adapter.specs.Loaded.{loaded_buffer};

mod steps;

use crate::map::{bytes_between, copy_of, map_of, registers_used};
use arrayvec::ArrayVec;
use drive_model::Moved;
use main_memory::{Buffer, Bus, Cpu, frames_of, to_bus, to_cpu};
use std::marker::Model;

/// How a transfer ended.
#[derive(Clone, Copy)]
pub struct Ended {
    /// How many sectors moved clean.
    pub moved: u32,
    /// The verdict on the last sector.
    pub last: Moved,
}

/// An adapter. Each call does what the hardware table says. It has at most one transfer at a time.
#[derive(Drop)]
pub struct Adapter {
    map_registers: [u16; 256],
    address: u32,
    byte_count: u32,
    busy: bool,
    completion: bool,
    data_late: bool,
    attentions: u8,
    skip: u32,
    count: u32,
    frames: ArrayVec<u16, 128>,
    offset: u32,
    blocks: u32,
    last: u32,
    drive: u8,
    block: u32,
    write: bool,
    moved: u32,
    verdict: Moved,
}

impl Model for Adapter {
    ghost use Rattle.hardware_table.specs.Adapter.{AdapterState, IsAdapter};

    ghost Value = { AdapterState };

    ghost use Rattle.mba_adapter.specs.State.{state_of};

    ghost view = { state_of };

    ghost invariant = { λ a. IsAdapter (state_of a) };
}

impl Adapter {
    /// A new adapter: it is free, all its flags and attention bits are off, and its registers are 0.
    pub fn new() -> Adapter
        ensures { result ≡ new_adapter }
    {
        Adapter {
            map_registers: map_of(&[]),
            address: 0,
            byte_count: 0,
            busy: false,
            completion: false,
            data_late: false,
            attentions: 0,
            skip: 0,
            count: 0,
            frames: ArrayVec::new(),
            offset: 0,
            blocks: 0,
            last: 0,
            drive: 0,
            block: 0,
            write: false,
            moved: 0,
            verdict: Moved::Clean,
        }
    }

    /// Whether the adapter is free: every transfer that was started has been completed.
    pub fn is_free(&self) -> bool
        ensures { result ≡ (if self.now.busy then false else true) }
    {
        !self.busy
    }

    /// Whether the completion is up: the transfer has ended, and the driver is to take its data interrupt.
    pub fn completion(&self) -> bool
        ensures { result ≡ self.now.completion }
    {
        self.completion
    }

    /// The drive of the transfer that was started last, from 0 to 7. 0 before the first transfer.
    pub fn drive(&self) -> u8
        ensures { result ≡ self.now.drive }
    {
        self.drive
    }

    /// Whether the transfer that was started last is a write. False before the first transfer.
    pub fn writes(&self) -> bool
        ensures { result ≡ self.now.write }
    {
        self.write
    }

    /// The block of the pack that the next sector of the transfer is.
    pub fn next_block(&self) -> u32
        requires { next_block self.now < 2 ^ 32 }
        ensures { result ≡ next_block self.now }
    {
        self.block + self.moved
    }

    /// The drives whose attention was raised and has not been cleared: bit k stands for drive k.
    pub fn attentions(&self) -> u8
        ensures { result ≡ self.now.attentions }
    {
        self.attentions
    }

    /// The content of a map register: the number of a frame of main memory, or 0.
    pub fn map_register(&self, j: u8) -> u32
        ensures { result ≡ slice_index self.now.map_registers j }
    {
        u32::from(self.map_registers[usize::from(j)])
    }

    /// Takes a buffer for a transfer of `count` of its blocks, from block `skip` on. The byte count becomes 512 times
    /// `count`; if the last block of the buffer is among these blocks and has fewer than 512 bytes, the missing bytes are
    /// subtracted. Map register j gets frame `skip + j` of the buffer for each j below `(offset + byte count + 511) /
    /// 512`; the other map registers become 0. The virtual address becomes the offset.
    pub fn load(&mut self, buffer: Buffer<Cpu>, skip: u32, count: u32) -> Buffer<Bus>
        requires free { self.old.busy ≡ false }
        requires some { 1 ≤ count }
        requires inside { skip + count ≤ buffer.count }
        ensures adapter { self.new ≡ loaded buffer.frames buffer.offset buffer.count buffer.last skip count self.old }
        ensures same_buffer { result ≡ buffer }
        ensures mapped { (j : ℕ) → j < registers_used (bytes_between buffer.count buffer.last skip count) buffer.offset
            → slice_index self.new.map_registers j ≡ slice_index buffer.frames (skip + j) }
        ensures cleared { (j : ℕ) → registers_used (bytes_between buffer.count buffer.last skip count) buffer.offset ≤ j
            → slice_index self.new.map_registers j ≡ 0 }
    {
        let bytes = bytes_between(buffer.count(), buffer.last(), skip, count);
        let used = registers_used(bytes, buffer.offset()) as usize;
        let frames = frames_of(&buffer);
        let first = skip as usize;
        self.map_registers = map_of(&frames[first..first + used]);
        self.address = buffer.offset();
        self.byte_count = bytes;
        self.skip = skip;
        self.count = count;
        self.frames = copy_of(frames);
        self.offset = buffer.offset();
        self.blocks = buffer.count();
        self.last = buffer.last();
        to_bus(buffer)
    }

    /// Starts the transfer that was loaded, between the buffer and drive `drive`, from block `block` of its pack on.
    pub fn start(&mut self, drive: u8, block: u32, count: u32, write: bool)
        requires free { self.old.busy ≡ false }
        requires loaded { IsLoaded self.old count }
        requires drive { drive < 8 }
        ensures { self.new ≡ started drive block write self.old }
    {
        prove_eq!(self.count, count);
        self.drive = drive;
        self.block = block;
        self.write = write;
        self.busy = true;
        self.completion = false;
        self.data_late = false;
        self.moved = 0;
    }

    /// Takes the data interrupt: gives the buffer back, with the number of sectors that moved clean and the last verdict.
    /// The adapter is free afterwards.
    pub fn complete(&mut self, buffer: Buffer<Bus>) -> (Buffer<Cpu>, Ended)
        requires completion { self.old.completion ≡ true }
        requires loaded { buffer ≡ loaded_buffer self.old }
        ensures adapter { self.new ≡ completed self.old }
        ensures same_buffer { result.0 ≡ buffer }
        ensures ended { result.1 ≡ record { moved = self.old.moved; last = self.old.verdict } }
    {
        self.busy = false;
        self.completion = false;
        self.data_late = false;
        let ended = Ended {
            moved: self.moved,
            last: self.verdict,
        };
        (to_cpu(buffer), ended)
    }

    /// Raises the attention of a drive.
    pub fn raise_attention(&mut self, drive: u8)
        requires { drive < 8 }
        ensures adapter { self.new ≡ attention_raised drive self.old }
        ensures bits { (k : ℕ) → k < 8 → bit_at self.new.attentions k ≡ (if k == drive then 1 else bit_at self.old.attentions k) }
    {
        self.attentions |= 1 << drive;
    }

    /// Clears the attention of a drive.
    pub fn clear_attention(&mut self, drive: u8)
        requires { drive < 8 }
        ensures adapter { self.new ≡ attention_lowered drive self.old }
        ensures bits { (k : ℕ) → k < 8 → bit_at self.new.attentions k ≡ (if k == drive then 0 else bit_at self.old.attentions k) }
    {
        self.attentions &= !(1 << drive);
    }
}
