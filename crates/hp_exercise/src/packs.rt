// The packs of an exercise.
ghost use Rattle.std.specs.Prelude.{◌≡◌, true, None, IfOk};
ghost use Rattle.hp_exercise.specs.Room.{AreEmpty, IsBlank, AreBlank, held_on, room_on};

use mass_outside::slots::Image;
use mass_outside::sure_packs::SurePacks;
use outside_traits::traits::{NoMemory, PackCall, Packs, StoreFailed};
use std::alloc::Global;
use std::marker::Model;

/// What was to be written beyond the room: a block, or the mark of a block.
#[derive(Clone, Copy)]
pub enum Outside {
    Block {
        unit: u8,
        block: u32,
        bytes: [u8; 512],
    },
    Mark {
        unit: u8,
        block: u32,
        on: bool,
    },
}

/// The room of a unit, in blocks: as far as a request of a script may reach.
fn room(unit: u8) -> u32
    ensures { result ≡ room_on unit }
{
    if unit == 0 || unit == 1 || unit == 8 {
        15_015
    } else {
        0
    }
}

/// An image that holds nothing, with the room of its unit.
fn blank(alloc: Global, unit: u8) -> Image
    ensures { IsBlank unit result }
{
    Image {
        unit,
        bytes: Vec::new(alloc),
        marks: Vec::new(alloc),
        blocks: room(unit),
    }
}

/// Such images for the units of a script.
fn images(alloc: Global) -> Result<Vec<Image>, NoMemory>
    ensures { IfOk result (λ images. AreBlank images.items) }
{
    let mut images = Vec::new(alloc);
    images.push(blank(alloc, 0))?;
    images.push(blank(alloc, 1))?;
    images.push(blank(alloc, 8))?;
    Ok(images)
}

/// Packs in memory with room for what a script may write. They tell what they hold. A write or a mark beyond that room fails, and is
/// kept beside the packs as what they hold there. From then on each call fails.
#[derive(Drop)]
pub struct ExercisePacks {
    packs: SurePacks,
    outside: Option<Outside>,
    failed_at: PackCall,
}

impl Model for ExercisePacks {
    ghost use Rattle.hp_exercise.specs.Room.{RoomView, HasRoom, IsOutside};

    ghost Value = { RoomView };

    ghost view = { λ p. record { packs = p.packs; outside = p.outside; failed_at = p.failed_at } };

    ghost invariant = { λ p. HasRoom p.packs × IsOutside p.outside };
}

impl ExercisePacks {
    ghost use Rattle.hp_exercise.specs.Room.{IsOutside};

    /// Creates empty packs without marks. The room is reserved here, so that no later call allocates. Only the part of it below the end
    /// of the last block that is written is ever touched.
    pub fn new(alloc: Global) -> Result<ExercisePacks, NoMemory>
        ensures empty { IfOk result (λ packs. AreEmpty (held_on packs)) }
        ensures inside { IfOk result (λ packs. packs.outside ≡ None) }
    {
        let images = images(alloc)?;
        let packs = SurePacks::new(alloc, images)?;
        Ok(ExercisePacks {
            packs,
            outside: None,
            failed_at: PackCall::Length { unit: 0 },
        })
    }

    /// Keeps at which call the packs failed.
    fn failed(&mut self, call: PackCall) -> StoreFailed
        ensures { self.new ≡ record self.old { failed_at = call } }
    {
        self.failed_at = call;
        StoreFailed
    }

    /// The law of what is kept beside the packs: it lies beyond their room.
    pub fn outside_law(&self)
        ensures { IsOutside self.now.outside }
    {
        let _outside = self.outside.is_some();
    }
}

impl Packs for ExercisePacks {
    ghost use Rattle.hp_exercise.specs.Room.{faults_of, held_on};

    ghost tells = { λ _. true };

    ghost held = { held_on };

    ghost faults = { λ p. faults_of p.outside };

    ghost failed_at = { λ p. p.failed_at };

    fn length(&mut self, unit: u8) -> Result<u64, StoreFailed> {
        if self.outside.is_some() {
            return Err(self.failed(PackCall::Length { unit }));
        }
        self.packs.length(unit)
    }

    fn read(&mut self, unit: u8, block: u32, into: &mut [u8; 512]) -> Result<(), StoreFailed> {
        if self.outside.is_some() {
            return Err(self.failed(PackCall::Block { unit, block }));
        }
        self.packs.read(unit, block, into)
    }

    fn write(&mut self, unit: u8, block: u32, from: &[u8; 512]) -> Result<(), StoreFailed> {
        if self.outside.is_some() {
            return Err(self.failed(PackCall::Block { unit, block }));
        }
        if block >= room(unit) {
            self.outside = Some(Outside::Block {
                unit,
                block,
                bytes: *from,
            });
            return Err(self.failed(PackCall::Block { unit, block }));
        }
        self.packs.write(unit, block, from)
    }

    fn marked(&mut self, unit: u8, block: u32) -> Result<bool, StoreFailed> {
        if self.outside.is_some() {
            return Err(self.failed(PackCall::Block { unit, block }));
        }
        self.packs.marked(unit, block)
    }

    fn set_mark(&mut self, unit: u8, block: u32, on: bool) -> Result<(), StoreFailed> {
        if self.outside.is_some() {
            return Err(self.failed(PackCall::Block { unit, block }));
        }
        if block >= room(unit) {
            self.outside = Some(Outside::Mark { unit, block, on });
            return Err(self.failed(PackCall::Block { unit, block }));
        }
        self.packs.set_mark(unit, block, on)
    }
}
