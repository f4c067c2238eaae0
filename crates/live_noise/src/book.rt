// The book of noise: the entries in the order of their sectors, and the places of the noise.
ghost use Rattle.std.specs.Prelude.{◌≡◌, ◌≤◌, ◌<◌, IfOk, [], vec_capacity};
ghost use Rattle.hardware_table.specs.Noise.{empty_book, book_armed, book_struck, strikes};

use crate::entries::{Entry, is_spent, noise_in, put, strike};
use hardware_table::{Noise, NoiseSpan};
use no_memory::NoMemory;
use std::alloc::Global;
use std::marker::Model;

/// The noise that is live, with the number of noises that were armed and the number that may be armed in all. Noise flips
/// places of sectors when they are read. A strike finds its noise by a binary search for the unit and the block.
#[derive(Drop)]
pub struct NoiseBook {
    entries: Vec<Entry>,
    noises: Vec<Noise>,
    armed: u32,
    capacity: u32,
}

impl Model for NoiseBook {
    ghost use Rattle.std.specs.Prelude.{vec_capacity};
    ghost use Rattle.hardware_table.specs.Noise.{Book};

    ghost Value = { Book };

    ghost use Rattle.live_noise.specs.Book.{live_of, IsKept};

    ghost view = { λ b. record { live = live_of b.noises.items b.entries.items; armed = b.armed; capacity = b.capacity } };

    ghost invariant = { λ b. IsKept b.noises.items b.entries.items b.armed b.capacity (vec_capacity b.noises) (vec_capacity b.entries) };
}

// Reserves room for this many items.
fn reserve<T: Drop>(alloc: Global, capacity: u32) -> Result<Vec<T>, NoMemory>
    ensures empty { IfOk result (λ v. v.items ≡ []) }
    ensures room { IfOk result (λ v. capacity ≤ vec_capacity v) }
{
    let room = Vec::with_capacity(alloc, capacity as usize)?;
    Ok(room)
}

impl NoiseBook {
    /// An empty book, in which `capacity` noises may be armed in all. The call reserves the memory for them, so that no
    /// later call takes any. `NoMemory` if that memory is not available.
    pub fn new(alloc: Global, capacity: u32) -> Result<NoiseBook, NoMemory>
        requires { capacity ≤ 4096 }
        ensures { IfOk result (λ book. book ≡ empty_book capacity) }
    {
        let entries = reserve(alloc, capacity)?;
        let noises = reserve(alloc, capacity)?;
        Ok(NoiseBook {
            entries,
            noises,
            armed: 0,
            capacity,
        })
    }

    /// Arms noise at a sector. The noise is live until it has struck a number of times, or until the sector is read with
    /// the offset that ends it, as `span` says.
    pub fn arm(&mut self, unit: u8, block: u32, noise: Noise, span: NoiseSpan)
        requires { self.old.armed < self.old.capacity }
        ensures { self.new ≡ book_armed (record { unit = unit; block = block; span = span; places = noise }) self.old }
    {
        self.armed += 1;
        if is_spent(span) {
            return;
        }
        let slot = self.noises.len() as u32;
        self.noises.push_reserved(noise);
        put(
            &mut self.entries,
            Entry {
                span,
                block,
                slot,
                unit,
            },
        );
    }

    /// The noise that strikes a read of a sector with this word in the offset register; the read uses that noise. None
    /// exactly if no noise is live there, or if the word's offset ends the oldest one.
    pub fn strike(&mut self, unit: u8, block: u32, of: u16) -> Option<Noise>
        ensures noise { result ≡ strikes unit block of self.old.live }
        ensures book { self.new ≡ book_struck unit block of self.old }
    {
        let entry = strike(&mut self.entries, unit, block, of)?;
        noise_in(self.noises.as_slice(), entry, of)
    }
}
