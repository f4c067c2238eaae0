// What a caller may supply itself: a source, a sink, and packs.
ghost use Rattle.std.specs.Prelude.{true, false, [], replicate};

use outside_traits::traits::{
    PackCall, Packs, Sink, SinkFailed, Source, SourceFailed, StoreFailed,
};

/// A source of zeros. It tells how many are left, and it never fails.
#[derive(Drop)]
pub struct Zeros {
    pub left: usize,
}

impl Source for Zeros {
    ghost tells = { λ _. true };

    ghost left = { λ s. replicate s.left 0 };

    ghost faults = { λ _. 0 };

    fn read(&mut self, into: &mut [u8]) -> Result<usize, SourceFailed> {
        let count = into.len().min(self.left);
        into[..count].fill(0);
        self.left -= count;
        Ok(count)
    }
}

/// A sink that counts bytes and keeps none of them, so it does not tell what it took. It never fails.
#[derive(Drop)]
pub struct Counter {
    pub bytes: u64,
}

impl Sink for Counter {
    ghost tells = { λ _. false };

    ghost taken = { λ _. [] };

    ghost faults = { λ _. 0 };

    fn write(&mut self, from: &[u8]) -> Result<usize, SinkFailed> {
        self.bytes = self.bytes.saturating_add(from.len() as u64);
        Ok(from.len())
    }
}

/// The pack of unit 0, in memory that the caller hands in, without a mark; all other packs are empty. A write beyond that memory fails.
/// The disk does not tell what it holds, as a store across a network would not, so no contract promises anything about its contents.
#[derive(Drop)]
pub struct Disk {
    bytes: Vec<u8>,
    faults: u64,
    failed_at: PackCall,
}

impl Disk {
    ghost use Rattle.std.specs.Prelude.{◌≡◌, ◌≤◌};
    ghost use Rattle.outside_traits.specs.Causes.{Rose};
    ghost use Rattle.outside_traits.specs.declared.traits.PackCall.TheVariants.{Block};

    /// Creates the disk whose image has these bytes.
    pub fn new(bytes: Vec<u8>) -> Disk
        ensures image { result.bytes.items ≡ bytes.items }
        ensures faults { result.faults ≡ 0 }
    {
        Disk {
            bytes,
            faults: 0,
            failed_at: PackCall::Length { unit: 0 },
        }
    }

    /// The bytes of the image as they are now.
    pub fn bytes(&self) -> &[u8]
        ensures { result.now ≡ self.now.bytes.items }
    {
        &self.bytes
    }

    /// Counts a failure, and keeps which block it was about.
    fn failed(&mut self, unit: u8, block: u32) -> StoreFailed
        ensures later { self.old.faults ≤ self.new.faults }
        ensures rose { Rose self.old.faults self.new.faults }
        ensures at { self.new.failed_at ≡ Block unit block }
    {
        self.faults = self.faults.saturating_add(1);
        self.failed_at = PackCall::Block { unit, block };
        StoreFailed
    }
}

impl Packs for Disk {
    ghost use Rattle.pack_geometry.specs.Pack.{empty_pack};

    ghost tells = { λ _. false };

    ghost held = { λ _ _. empty_pack };

    ghost faults = { λ p. p.faults };

    ghost failed_at = { λ p. p.failed_at };

    fn length(&mut self, unit: u8) -> Result<u64, StoreFailed> {
        if unit == 0 {
            Ok(self.bytes.len() as u64)
        } else {
            Ok(0)
        }
    }

    fn read(&mut self, unit: u8, block: u32, into: &mut [u8; 512]) -> Result<(), StoreFailed> {
        *into = [0; 512];
        let at = 512 * block as usize;
        if unit == 0 && at < self.bytes.len() {
            let count = (self.bytes.len() - at).min(512);
            into[..count].copy_from_slice(&self.bytes[at..at + count]);
        }
        Ok(())
    }

    fn write(&mut self, unit: u8, block: u32, from: &[u8; 512]) -> Result<(), StoreFailed> {
        let at = 512 * block as usize;
        if unit != 0 || at + 512 > self.bytes.len() {
            return Err(self.failed(unit, block));
        }
        self.bytes[at..at + 512].copy_from_slice(from);
        Ok(())
    }

    fn marked(&mut self, _unit: u8, _block: u32) -> Result<bool, StoreFailed> {
        Ok(false)
    }

    fn set_mark(&mut self, unit: u8, block: u32, _on: bool) -> Result<(), StoreFailed> {
        Err(self.failed(unit, block))
    }
}
