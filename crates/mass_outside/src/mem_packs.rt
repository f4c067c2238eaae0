ghost use Rattle.std.specs.Prelude.{◌≡◌, ◌<◌, ◌==◌, ◌&&◌, ◌||◌, IfOk, OnOk, OnErr, is_err, length};
ghost use Rattle.mass_outside.specs.Images.{op_number, is_listed, HoldsImages};
ghost use Rattle.mass_outside.specs.Slots.{AllEmpty};
ghost use Rattle.mass_outside.specs.Memory.{IsFresh};

use crate::slots::{Image, Slot};
use outside_traits::traits::{NoMemory, PackCall, Packs, StoreFailed};
use std::alloc::{AllocError, Global};
use std::marker::Model;

/// The operations on packs.
#[derive(Clone, Copy, PartialEq, Eq)]
pub enum PackOp {
    Length,
    Read,
    Write,
    Marked,
    SetMark,
}

/// A call that is to fail.
#[derive(Clone, Copy)]
pub struct FailCall {
    pub op: PackOp,
    /// The number of the call among the calls of its operation, counted from 1.
    pub number: u64,
}

/// Whether a call is the one that is to fail.
fn is_call(call: &FailCall, op: PackOp, number: u64) -> bool
    ensures { result ≡ ((op_number call.now.op == op_number op) && (call.now.number == number)) }
{
    call.op as u8 == op as u8 && call.number == number
}

/// Whether a call is one that is to fail.
fn is_listed(fail: &[FailCall], op: PackOp, number: u64) -> bool
    ensures { result ≡ is_listed fail.now op number }
{
    fail.iter().any(|call| is_call(call, op, number))
}

/// Packs in memory, which tell what they hold. The listed calls fail, and so do those that write or mark a block for
/// which there is no room: one at or above the image's `blocks`, or one of a unit without an image. The pack of a unit without an image is empty.
#[derive(Drop)]
pub struct MemPacks {
    slots: Vec<Slot>,
    fail: Vec<FailCall>,
    lengths: u64,
    reads: u64,
    writes: u64,
    markeds: u64,
    set_marks: u64,
    faults: u64,
    failed_at: PackCall,
}

impl Model for MemPacks {
    ghost use Rattle.std.specs.Prelude.{◌≡◌, length};
    ghost use Rattle.mass_outside.specs.Memory.{MemView};

    ghost Value = { MemView };

    ghost view = { λ p. record {
      slots = p.slots.items;
      fail = p.fail.items;
      lengths = p.lengths;
      reads = p.reads;
      writes = p.writes;
      markeds = p.markeds;
      set_marks = p.set_marks;
      faults = p.faults;
      failed_at = p.failed_at;
    } };

    ghost invariant = { λ p. length p.slots.items ≡ 32 };
}

/// Slots that hold nothing, for the 32 units.
fn empty_slots(alloc: Global) -> Result<Vec<Slot>, AllocError>
    ensures len { IfOk result (λ slots. length slots.items ≡ 32) }
    ensures empty { IfOk result (λ slots. AllEmpty slots.items) }
{
    let mut slots = Vec::new(alloc);
    for _ in 0..32u8 {
        slots.push(Slot::empty(alloc))?;
    }
    Ok(slots)
}

/// Slots with the content of images.
pub(crate) fn slots_of(alloc: Global, mut images: Vec<Image>) -> Result<Vec<Slot>, AllocError>
    ensures len { IfOk result (λ slots. length slots.items ≡ 32) }
    ensures held { IfOk result (λ slots. HoldsImages slots.items images.items) }
{
    let mut slots = empty_slots(alloc)?;
    while let Some(image) = images.pop() {
        let unit = image.unit as usize;
        let slot = Slot::of(alloc, image)?;
        if unit < 32 {
            slots[unit] = slot;
        }
    }
    Ok(slots)
}

/// The same slots once more.
fn copies_of(alloc: Global, slots: &[Slot]) -> Result<Vec<Slot>, AllocError>
    ensures { IfOk result (λ made. made.items ≡ slots.now) }
{
    let mut made = Vec::new(alloc);
    for slot in slots {
        made.push(slot.copy(alloc)?)?;
    }
    Ok(made)
}

impl MemPacks {
    ghost use Rattle.std.specs.Prelude.{Some, slice_get, slice_set};
    ghost use Rattle.outside_traits.specs.Causes.{next};
    ghost use Rattle.mass_outside.specs.Images.{image_slot};

    /// Packs with these images, and the list of the calls that are to fail. If a unit has several images, the first one
    /// counts. The call reserves the room for the blocks and marks of the images, so that no later call takes memory.
    /// `NoMemory` if the room is not available.
    pub fn new(alloc: Global, images: Vec<Image>, fail: Vec<FailCall>) -> Result<MemPacks, NoMemory>
        ensures images { IfOk result (λ packs. HoldsImages packs.slots images.items) }
        ensures fail { IfOk result (λ packs. packs.fail ≡ fail.items) }
        ensures counts { IfOk result IsFresh }
    {
        let slots = slots_of(alloc, images)?;
        Ok(MemPacks {
            slots,
            fail,
            lengths: 0,
            reads: 0,
            writes: 0,
            markeds: 0,
            set_marks: 0,
            faults: 0,
            failed_at: PackCall::Length { unit: 0 },
        })
    }

    /// From now on these calls fail, and the calls of each operation are counted anew.
    pub fn fail(&mut self, fail: Vec<FailCall>)
        ensures { self.new ≡ record self.old { fail = fail.items; lengths = 0; reads = 0; writes = 0; markeds = 0; set_marks = 0 } }
    {
        self.fail = fail;
        self.lengths = 0;
        self.reads = 0;
        self.writes = 0;
        self.markeds = 0;
        self.set_marks = 0;
    }

    /// Puts an image in the place of the pack of its unit; nothing changes if the unit is above 31. The call reserves the room for
    /// the blocks and marks. `NoMemory` if the room is not available; then nothing changes.
    pub fn put(&mut self, alloc: Global, image: Image) -> Result<(), NoMemory>
        ensures ok { OnOk result (self.new ≡ record self.old { slots = slice_set self.old.slots image.unit (image_slot image) }) }
        ensures err { OnErr result (self.new ≡ self.old) }
    {
        let unit = image.unit as usize;
        let slot = Slot::of(alloc, image)?;
        if unit < 32 {
            self.slots[unit] = slot;
        }
        Ok(())
    }

    /// The same packs once more, with room reserved for their blocks and marks. `NoMemory` if there is no memory for them.
    pub fn copy(&self, alloc: Global) -> Result<MemPacks, NoMemory>
        ensures { IfOk result (λ packs. packs ≡ self.now) }
    {
        let slots = copies_of(alloc, self.slots.as_slice())?;
        let fail = Vec::from_slice(alloc, self.fail.as_slice())?;
        Ok(MemPacks {
            slots,
            fail,
            lengths: self.lengths,
            reads: self.reads,
            writes: self.writes,
            markeds: self.markeds,
            set_marks: self.set_marks,
            faults: self.faults,
            failed_at: self.failed_at,
        })
    }

    /// How many calls of `set_mark` were made.
    pub fn set_marks(&self) -> u64
        ensures { result ≡ self.now.set_marks }
    {
        self.set_marks
    }

    /// The pack of a unit. To look at it is no call of the packs: it is not counted and does not fail.
    pub fn slot(&self, unit: u8) -> &Slot
        requires { unit < 32 }
        ensures { slice_get self.now.slots unit ≡ Some result.now }
    {
        &self.slots[unit as usize]
    }

    /// Counts a failure of this call.
    fn failed(&mut self, call: PackCall) -> StoreFailed
        ensures { self.new ≡ record self.old { faults = next self.old.faults; failed_at = call } }
    {
        self.faults = self.faults.saturating_add(1);
        self.failed_at = call;
        StoreFailed
    }
}

impl Packs for MemPacks {
    ghost use Rattle.std.specs.Prelude.{true};
    ghost use Rattle.pack_geometry.specs.Pack.{block_at, is_marked, with_written, with_mark};
    ghost use Rattle.outside_traits.specs.Causes.{HasCause, next};
    ghost use Rattle.outside_traits.specs.declared.traits.PackCall.TheVariants.{Length, Block};
    ghost use Rattle.mass_outside.specs.Memory.{held_by, has_no_room, AfterWrite, AfterMark};

    ghost tells = { λ _. true };

    ghost held = { held_by };

    ghost faults = { λ p. p.faults };

    ghost failed_at = { λ p. p.failed_at };

    fn length(&mut self, unit: u8) -> Result<u64, StoreFailed>
        requires { unit < 32 }
        ensures length { IfOk result (λ n. n ≡ length (held_by self.old unit).image) }
        ensures same { held_by self.new ≡ held_by self.old }
        ensures cause { HasCause self.old.faults self.new.faults result }
        // The call fails exactly if it is listed, and then counts the failure.
        ensures exact { is_err result ≡ is_listed self.old.fail PackOp.Length (next self.old.lengths) }
        ensures ok { OnOk result (self.new ≡ record self.old { lengths = next self.old.lengths }) }
        ensures err { OnErr result (self.new ≡ record self.old { lengths = next self.old.lengths; faults = next self.old.faults; failed_at = Length unit }) }
    {
        self.lengths = self.lengths.saturating_add(1);
        if is_listed(self.fail.as_slice(), PackOp::Length, self.lengths) {
            return Err(self.failed(PackCall::Length { unit }));
        }
        Ok(self.slots[unit as usize].length())
    }

    fn read(&mut self, unit: u8, block: u32, into: &mut [u8; 512]) -> Result<(), StoreFailed>
        requires { unit < 32 }
        ensures block { OnOk result (into.new ≡ block_at (held_by self.old unit).image block) }
        ensures same { held_by self.new ≡ held_by self.old }
        ensures cause { HasCause self.old.faults self.new.faults result }
        // The call fails exactly if it is listed, and then counts the failure.
        ensures exact { is_err result ≡ is_listed self.old.fail PackOp.Read (next self.old.reads) }
        ensures ok { OnOk result (self.new ≡ record self.old { reads = next self.old.reads }) }
        ensures err { OnErr result (self.new ≡ record self.old { reads = next self.old.reads; faults = next self.old.faults; failed_at = Block unit block }) }
    {
        self.reads = self.reads.saturating_add(1);
        if is_listed(self.fail.as_slice(), PackOp::Read, self.reads) {
            return Err(self.failed(PackCall::Block { unit, block }));
        }
        self.slots[unit as usize].read(block, into);
        Ok(())
    }

    fn write(&mut self, unit: u8, block: u32, from: &[u8; 512]) -> Result<(), StoreFailed>
        requires { unit < 32 }
        ensures ok { OnOk result (held_by self.new ≡ with_written (held_by self.old) unit block from.now) }
        ensures err { OnErr result (held_by self.new ≡ held_by self.old) }
        ensures cause { HasCause self.old.faults self.new.faults result }
        // The call fails exactly if it is listed or there is no room, and then counts the failure.
        ensures exact { is_err result ≡ (is_listed self.old.fail PackOp.Write (next self.old.writes) || has_no_room self.old unit block) }
        ensures done { OnOk result (AfterWrite self.old unit block from.now self.new) }
        ensures failed { OnErr result (self.new ≡ record self.old { writes = next self.old.writes; faults = next self.old.faults; failed_at = Block unit block }) }
    {
        self.writes = self.writes.saturating_add(1);
        if is_listed(self.fail.as_slice(), PackOp::Write, self.writes) {
            return Err(self.failed(PackCall::Block { unit, block }));
        }
        if !self.slots[unit as usize].has(block) {
            return Err(self.failed(PackCall::Block { unit, block }));
        }
        self.slots[unit as usize].write(block, from);
        Ok(())
    }

    fn marked(&mut self, unit: u8, block: u32) -> Result<bool, StoreFailed>
        requires { unit < 32 }
        ensures mark { IfOk result (λ on. on ≡ is_marked (held_by self.old unit) block) }
        ensures same { held_by self.new ≡ held_by self.old }
        ensures cause { HasCause self.old.faults self.new.faults result }
        // The call fails exactly if it is listed, and then counts the failure.
        ensures exact { is_err result ≡ is_listed self.old.fail PackOp.Marked (next self.old.markeds) }
        ensures ok { OnOk result (self.new ≡ record self.old { markeds = next self.old.markeds }) }
        ensures err { OnErr result (self.new ≡ record self.old { markeds = next self.old.markeds; faults = next self.old.faults; failed_at = Block unit block }) }
    {
        self.markeds = self.markeds.saturating_add(1);
        if is_listed(self.fail.as_slice(), PackOp::Marked, self.markeds) {
            return Err(self.failed(PackCall::Block { unit, block }));
        }
        Ok(self.slots[unit as usize].marked(block))
    }

    fn set_mark(&mut self, unit: u8, block: u32, on: bool) -> Result<(), StoreFailed>
        requires { unit < 32 }
        ensures ok { OnOk result (held_by self.new ≡ with_mark (held_by self.old) unit block on) }
        ensures err { OnErr result (held_by self.new ≡ held_by self.old) }
        ensures cause { HasCause self.old.faults self.new.faults result }
        // The call fails exactly if it is listed or there is no room, and then counts the failure.
        ensures exact { is_err result ≡ (is_listed self.old.fail PackOp.SetMark (next self.old.set_marks) || has_no_room self.old unit block) }
        ensures done { OnOk result (AfterMark self.old unit block on self.new) }
        ensures failed { OnErr result (self.new ≡ record self.old { set_marks = next self.old.set_marks; faults = next self.old.faults; failed_at = Block unit block }) }
    {
        self.set_marks = self.set_marks.saturating_add(1);
        if is_listed(self.fail.as_slice(), PackOp::SetMark, self.set_marks) {
            return Err(self.failed(PackCall::Block { unit, block }));
        }
        if !self.slots[unit as usize].has(block) {
            return Err(self.failed(PackCall::Block { unit, block }));
        }
        self.slots[unit as usize].set_mark(block, u8::from(on));
        Ok(())
    }
}
