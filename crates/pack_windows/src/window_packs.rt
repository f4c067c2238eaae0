ghost use Rattle.std.specs.Prelude.{◌≡◌, ◌==◌, not, ℕ, List, IfOk, length};
ghost use Rattle.pack_windows.specs.Parts.{AreParts};

use crate::window::Window;
use outside_traits::traits::{NoMemory, Packs, StoreFailed};
use outside_traits::wide_packs::{Part, WidePacks, is_mark, place_in_image};
use std::alloc::{AllocError, Global};
use std::marker::Model;

/// How many marks are read ahead.
const MARKS: u32 = 4096;

/// Packs with two windows in memory for each unit, one of its image and one of its marks. If a block or a mark is asked
/// for that is not in its window, the window is read ahead. A write goes to the packs at once, and its window follows it.
/// Nobody else may write to the packs meanwhile.
///
/// Contracts see this object as the packs behind the windows.
#[derive(Drop)]
pub struct WindowPacks<W: WidePacks> {
    packs: W,
    images: Vec<Window>,
    marks: Vec<Window>,
}

impl<W: WidePacks> Model for WindowPacks<W> {
    ghost use Rattle.pack_windows.specs.Parts.{AreCurrent};

    ghost Value = { W };

    ghost coded = { W.code };

    ghost view = { λ p. p.packs };

    ghost invariant = { λ p. AreCurrent (W.tells p.packs) (W.held p.packs) p.images.items p.marks.items };
}

/// An empty window for each of the 32 units.
fn empty_windows(alloc: Global) -> Result<Vec<Window>, AllocError>
    ensures count { IfOk result (λ windows. length windows.items ≡ 32) }
    ensures parts { IfOk result (λ windows. (whole : ℕ → List ℕ) → AreParts windows.items whole) }
{
    let mut windows = Vec::with_capacity(alloc, 32)?;
    for _ in 0..32u8 {
        windows.push(Window::new(alloc))?;
    }
    Ok(windows)
}

impl<W: WidePacks + Drop> WindowPacks<W> {
    /// These packs, with nothing read ahead yet. `NoMemory` if there is no memory for the windows.
    pub fn new(alloc: Global, packs: W) -> Result<WindowPacks<W>, NoMemory>
        ensures { IfOk result (λ made. made ≡ packs) }
    {
        let images = empty_windows(alloc)?;
        let marks = empty_windows(alloc)?;
        Ok(WindowPacks {
            packs,
            images,
            marks,
        })
    }

    /// The packs behind the windows.
    pub fn behind(&self) -> &W
        ensures { result.now ≡ self.now }
    {
        &self.packs
    }
}

impl<W: WidePacks> Packs for WindowPacks<W> {
    ghost tells = { W.tells };

    ghost held = { W.held };

    ghost faults = { W.faults };

    ghost failed_at = { W.failed_at };

    fn length(&mut self, unit: u8) -> Result<u64, StoreFailed> {
        self.packs.length(unit)
    }

    fn read(&mut self, unit: u8, block: u32, into: &mut [u8; 512]) -> Result<(), StoreFailed> {
        if self.images[unit as usize].read_block(block, into) {
            return Ok(());
        }
        let at = place_in_image(block);
        let size = self.images[unit as usize].next_size(at);
        self.images[unit as usize].fill(&mut self.packs, unit, Part::Image, at, size);
        if self.images[unit as usize].read_block(block, into) {
            return Ok(());
        }
        self.packs.read(unit, block, into)
    }

    fn write(&mut self, unit: u8, block: u32, from: &[u8; 512]) -> Result<(), StoreFailed> {
        match self.packs.write(unit, block, from) {
            Ok(()) => {
                self.images[unit as usize].write_block(block, from);
                Ok(())
            }
            Err(failed) => {
                self.images[unit as usize].clear();
                Err(failed)
            }
        }
    }

    fn marked(&mut self, unit: u8, block: u32) -> Result<bool, StoreFailed> {
        if let Some(byte) = self.marks[unit as usize].byte(u64::from(block)) {
            return Ok(is_mark(byte));
        }
        let first = u64::from(block - block % MARKS);
        self.marks[unit as usize].fill(&mut self.packs, unit, Part::Marks, first, MARKS as usize);
        if let Some(byte) = self.marks[unit as usize].byte(u64::from(block)) {
            return Ok(is_mark(byte));
        }
        self.packs.marked(unit, block)
    }

    fn set_mark(&mut self, unit: u8, block: u32, on: bool) -> Result<(), StoreFailed> {
        match self.packs.set_mark(unit, block, on) {
            Ok(()) => {
                self.marks[unit as usize].write_mark(block, on);
                Ok(())
            }
            Err(failed) => {
                self.marks[unit as usize].clear();
                Err(failed)
            }
        }
    }
}
