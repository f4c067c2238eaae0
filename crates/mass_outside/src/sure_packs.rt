ghost use Rattle.std.specs.Prelude.{◌≡◌, ◌<◌, IfOk, OnOk, IsOk, IsTrue, length, true, false};
ghost use Rattle.mass_outside.specs.Images.{HoldsImages};
ghost use Rattle.mass_outside.specs.Memory.{is_outside};

use crate::mem_packs::slots_of;
use crate::slots::{Image, Slot};
use outside_traits::traits::{NoMemory, Packs, StoreFailed};
use std::alloc::Global;
use std::marker::Model;

/// Packs in memory that never fail. They tell what they hold until a write or a mark is outside the images: at or above
/// an image's `blocks`, or on a unit without an image. Such a call does nothing, and from then on the packs tell nothing.
/// The pack of a unit without an image is empty.
#[derive(Drop)]
pub struct SurePacks {
    slots: Vec<Slot>,
    tells: bool,
}

impl Model for SurePacks {
    ghost use Rattle.std.specs.Prelude.{◌≡◌, length};
    ghost use Rattle.mass_outside.specs.Sure.{SureView};

    ghost Value = { SureView };

    ghost view = { λ p. record { slots = p.slots.items; tells = p.tells } };

    ghost invariant = { λ p. length p.slots.items ≡ 32 };
}

impl SurePacks {
    /// Packs with these images, which tell what they hold. If a unit has several images, the first one counts. The call
    /// reserves the room for the blocks and marks of the images, so that no later call takes memory. `NoMemory` if the room is not available.
    pub fn new(alloc: Global, images: Vec<Image>) -> Result<SurePacks, NoMemory>
        ensures images { IfOk result (λ packs. HoldsImages packs.slots images.items) }
        ensures tells { IfOk result (λ packs. packs.tells ≡ true) }
    {
        let slots = slots_of(alloc, images)?;
        Ok(SurePacks { slots, tells: true })
    }
}

impl Packs for SurePacks {
    ghost use Rattle.pack_geometry.specs.Pack.{block_at, is_marked, with_written, with_mark};
    ghost use Rattle.outside_traits.specs.Causes.{HasCause};
    ghost use Rattle.outside_traits.specs.declared.traits.PackCall.TheVariants.{Length};
    ghost use Rattle.mass_outside.specs.Sure.{sure_held, SureWrote, SureMarked};

    ghost tells = { λ p. p.tells };

    ghost held = { sure_held };

    ghost faults = { λ _. 0 };

    ghost failed_at = { λ _. Length 0 };

    // The result of a call that changes nothing is what the packs hold, even after they no longer tell it.
    fn length(&mut self, unit: u8) -> Result<u64, StoreFailed>
        requires { unit < 32 }
        ensures length { IfOk result (λ n. n ≡ length (sure_held self.old unit).image) }
        ensures cause { HasCause 0 0 result }
        ensures same { self.new ≡ self.old }
        ensures sure { IsOk result }
    {
        Ok(self.slots[unit as usize].length())
    }

    fn read(&mut self, unit: u8, block: u32, into: &mut [u8; 512]) -> Result<(), StoreFailed>
        requires { unit < 32 }
        ensures block { OnOk result (into.new ≡ block_at (sure_held self.old unit).image block) }
        ensures cause { HasCause 0 0 result }
        ensures same { self.new ≡ self.old }
        ensures sure { IsOk result }
    {
        self.slots[unit as usize].read(block, into);
        Ok(())
    }

    fn write(&mut self, unit: u8, block: u32, from: &[u8; 512]) -> Result<(), StoreFailed>
        requires { unit < 32 }
        ensures never_again { IsTrue self.new.tells → IsTrue self.old.tells }
        ensures ok { OnOk result (IsTrue self.new.tells → sure_held self.new ≡ with_written (sure_held self.old) unit block from.now) }
        ensures cause { HasCause 0 0 result }
        ensures inside { is_outside self.old.slots unit block ≡ false → SureWrote self.old unit block from.now self.new }
        ensures outside { is_outside self.old.slots unit block ≡ true → self.new ≡ record self.old { tells = false } }
        ensures sure { IsOk result }
    {
        if !self.slots[unit as usize].has(block) {
            self.tells = false;
            return Ok(());
        }
        self.slots[unit as usize].write(block, from);
        Ok(())
    }

    fn marked(&mut self, unit: u8, block: u32) -> Result<bool, StoreFailed>
        requires { unit < 32 }
        ensures mark { IfOk result (λ on. on ≡ is_marked (sure_held self.old unit) block) }
        ensures cause { HasCause 0 0 result }
        ensures same { self.new ≡ self.old }
        ensures sure { IsOk result }
    {
        Ok(self.slots[unit as usize].marked(block))
    }

    fn set_mark(&mut self, unit: u8, block: u32, on: bool) -> Result<(), StoreFailed>
        requires { unit < 32 }
        ensures never_again { IsTrue self.new.tells → IsTrue self.old.tells }
        ensures ok { OnOk result (IsTrue self.new.tells → sure_held self.new ≡ with_mark (sure_held self.old) unit block on) }
        ensures cause { HasCause 0 0 result }
        ensures inside { is_outside self.old.slots unit block ≡ false → SureMarked self.old unit block on self.new }
        ensures outside { is_outside self.old.slots unit block ≡ true → self.new ≡ record self.old { tells = false } }
        ensures sure { IsOk result }
    {
        if self.slots[unit as usize].has(block) {
            self.slots[unit as usize].set_mark(block, u8::from(on));
            return Ok(());
        }
        self.tells = false;
        Ok(())
    }
}
