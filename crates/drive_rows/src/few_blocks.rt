// A pack in memory of which few blocks are written, and on which one call goes wrong.
ghost use Rattle.std.specs.Prelude.{◌≡◌, ◌<◌, OnErr};
ghost use Rattle.outside_traits.specs.Causes.{HasCause};

use bad144_table::{BadTable, write_table};
use mass_outside::mem_packs::MemPacks;
use mass_outside::slots::Image;
use outside_traits::traits::{PackCall, Packs, StoreFailed};
use pack_geometry::{DriveKind, copy_block};
use std::alloc::Global;

/// How a call goes wrong.
#[derive(Clone, Copy)]
pub(crate) enum Wrong {
    /// It fails, and did nothing.
    Fails,
    /// It fails, and did what it was to do.
    FailsBehind,
    /// It does not fail, but answers a mark or another byte, or writes nothing.
    Lies,
}

/// So many calls the first reading of an RM03 makes that is formatted: the length, a mark and a read of each of 131,653 blocks, but no
/// read of the two that are marked.
pub(crate) const SURVEYED: u64 = 263_305;

/// The blocks that are full of 77: those that are written.
static FILLED: [u32; 13] = [
    0, 418, 419, 420, 65_760, 131_521, 131_646, 131_647, 131_648, 131_650, 131_652, 131_654,
    131_656,
];

/// A pack in memory on which one call goes wrong, whichever unit is named. Some of its blocks are marked. After the first reading of a
/// whole RM03 all data blocks are marked, except the first one, the last one, and one in the middle. It keeps what is written, and tells
/// nothing.
#[derive(Drop)]
pub(crate) struct FewBlocks {
    packs: MemPacks,
    /// The length that it answers, in bytes.
    pub(crate) length: u64,
    pub(crate) calls: u64,
    /// What was written: by which call, to which block, and its bytes.
    pub(crate) written: Vec<(u64, u32, [u8; 512])>,
    failed: u64,
    failed_at: PackCall,
    pub(crate) number: u64,
    wrong: Wrong,
}

/// A pack that says that it is as long as an RM03's, with room for the blocks of an RP06 and these blocks marked, of which the call of
/// this number goes wrong in this way. `None` if there is no memory for it.
pub(crate) fn few_blocks(
    alloc: Global,
    marks: &[u32],
    number: u64,
    wrong: Wrong,
) -> Option<FewBlocks> {
    let image = Image {
        unit: 0,
        bytes: Vec::new(alloc),
        marks: Vec::new(alloc),
        blocks: 340_670,
    };
    let images = Vec::from_array(alloc, [image]).ok()?;
    let mut packs = MemPacks::new(alloc, images, Vec::new(alloc)).ok()?;
    for block in &FILLED {
        let _ = packs.write(0, *block, &[0x77; 512]);
    }
    for block in marks {
        let _ = packs.set_mark(0, *block, true);
    }
    Some(FewBlocks {
        packs,
        length: 67_420_160,
        calls: 0,
        written: Vec::new(alloc),
        failed: 0,
        failed_at: PackCall::Length { unit: 0 },
        number,
        wrong,
    })
}

impl FewBlocks {
    /// Counts a call, which fails if it is to fail.
    fn call(&mut self, call: PackCall) -> Result<(), StoreFailed>
        ensures cause { HasCause self.old.failed self.new.failed result }
        ensures at { OnErr result (self.new.failed_at ≡ call) }
    {
        self.calls = self.calls.saturating_add(1);
        if matches!(self.wrong_now(), Some(Wrong::Fails | Wrong::FailsBehind)) {
            self.failed = self.failed.saturating_add(1);
            self.failed_at = call;
            return Err(StoreFailed);
        }
        Ok(())
    }

    /// How the call that was counted last goes wrong, if it does.
    fn wrong_now(&self) -> Option<Wrong> {
        (self.calls == self.number).then_some(self.wrong)
    }

    /// The first byte of a block.
    pub(crate) fn first_of(&self, block: u32) -> u8 {
        let mut bytes = [0; 512];
        self.packs.slot(0).read(block, &mut bytes);
        bytes[0]
    }

    /// Writes a block, and notes it by the number of the call.
    fn keep(&mut self, block: u32, bytes: &[u8; 512])
        ensures failed { self.new.failed ≡ self.old.failed }
        ensures failed_at { self.new.failed_at ≡ self.old.failed_at }
    {
        let _ = self.packs.write(0, block, bytes);
        let _ = self.written.push((self.calls, block, *bytes));
    }

    /// Writes a copy of a table.
    pub(crate) fn put_copy(&mut self, kind: DriveKind, k: u32, table: &BadTable)
        requires { k < 5 }
    {
        let mut text = [0; 512];
        write_table(table, &mut text);
        let _ = self.packs.write(0, copy_block(kind, k), &text);
    }
}

impl Packs for FewBlocks {
    ghost use Rattle.std.specs.Prelude.{false};
    ghost use Rattle.pack_geometry.specs.Pack.{empty_pack};

    ghost tells = { λ _. false };

    ghost held = { λ _ _. empty_pack };

    ghost faults = { λ p. p.failed };

    ghost failed_at = { λ p. p.failed_at };

    fn length(&mut self, unit: u8) -> Result<u64, StoreFailed> {
        self.call(PackCall::Length { unit })?;
        Ok(self.length)
    }

    fn read(&mut self, unit: u8, block: u32, into: &mut [u8; 512]) -> Result<(), StoreFailed> {
        self.call(PackCall::Block { unit, block })?;
        self.packs.slot(0).read(block, into);
        if matches!(self.wrong_now(), Some(Wrong::Lies)) {
            into[511] = !into[511];
        }
        Ok(())
    }

    fn write(&mut self, unit: u8, block: u32, from: &[u8; 512]) -> Result<(), StoreFailed> {
        let called = self.call(PackCall::Block { unit, block });
        if matches!(self.wrong_now(), None | Some(Wrong::FailsBehind)) {
            self.keep(block, from);
        }
        called
    }

    fn marked(&mut self, unit: u8, block: u32) -> Result<bool, StoreFailed> {
        self.call(PackCall::Block { unit, block })?;
        let lies = matches!(self.wrong_now(), Some(Wrong::Lies));
        let good = block == 0 || block == 65_760 || block > 131_520;
        Ok(lies || self.packs.slot(0).marked(block) || (!good && self.calls > SURVEYED))
    }

    fn set_mark(&mut self, _: u8, _: u32, _: bool) -> Result<(), StoreFailed> {
        Ok(())
    }
}
