ghost use Rattle.std.specs.Prelude.{◌≡◌, ◌≢◌, ℕ, ◌+◌, ◌*◌, ◌^◌, ◌<◌, ◌≤◌, length, vec_capacity, Some, IfOk};
ghost use Rattle.mass_outside.specs.Sparse.{place_in};
ghost use Rattle.pack_geometry.specs.Pack.{block_at, window, with_block};

use std::alloc::{AllocError, Global};
use std::marker::Model;

/// Reads a window of bytes. Bytes past the end are zeros.
fn read_window(bytes: &[u8], at: usize, into: &mut [u8])
    requires { at + length into.old < 2 ^ 64 }
    ensures { into.new ≡ window (length into.old) at bytes.now }
{
    for (i, byte) in into.iter_mut().enumerate() {
        *byte = bytes.get(at + i).copied().unwrap_or(0);
    }
}

/// Reads a block of an image.
#[tactic(auto, using(crate::proofs::SparseLaws::block_past), unfolding(pack_geometry::specs::Pack::block_at))]
fn read_block(bytes: &[u8], block: u32, into: &mut [u8; 512])
    ensures { into.new ≡ block_at bytes.now block }
{
    let at = 512 * block as usize;
    if at < bytes.len() {
        read_window(bytes, at, into);
    } else {
        *into = [0; 512];
    }
}

/// Where a block is kept, from what stands for each block.
fn place_of(places: &[u32], block: u32) -> Option<usize>
    ensures { result ≡ place_in places.now block }
{
    match places.get(block as usize) {
        None | Some(0) => None,
        Some(place) => Some(*place as usize - 1),
    }
}

/// Notes where a block is kept, in room that is reserved.
fn put_place(places: &mut Vec<u32>, block: u32, place: u32)
    requires room { block < vec_capacity places.old }
    requires fits { place + 1 < 2 ^ 32 }
    ensures kept { place_in places.new.items block ≡ Some place }
    ensures others { (other : ℕ) → other ≢ block → place_in places.new.items other ≡ place_in places.old.items other }
    ensures capacity { vec_capacity places.old ≤ vec_capacity places.new }
{
    let at = block as usize;
    if at >= places.len() {
        // The room is reserved, so this cannot fail.
        let _ = places.resize(at + 1, 0);
    }
    places[at] = place + 1;
}

/// These items, with room reserved for so many.
pub(crate) fn with_room<T: Drop>(mut items: Vec<T>, size: usize) -> Result<Vec<T>, AllocError>
    ensures same { IfOk result (λ made. made.items ≡ items.items) }
    ensures room { IfOk result (λ made. size ≤ vec_capacity made) }
{
    let len = items.len();
    if size > len {
        items.reserve(size - len)?;
    }
    Ok(items)
}

/// The bytes of an image with room for some blocks. It takes memory for the bytes that were given, and touches more only for the
/// blocks that were written.
#[derive(Drop)]
pub(crate) struct Sparse {
    /// The bytes as they were given.
    given: Vec<u8>,
    /// The numbers of the blocks that were written, each once.
    written: Vec<u32>,
    /// What each of them holds.
    kept: Vec<[u8; 512]>,
    /// For each block, as far as blocks were written: 0, or one more than its place among those that are kept.
    places: Vec<u32>,
    /// How long the image is, in bytes.
    size: u64,
    blocks: u32,
}

impl Model for Sparse {
    ghost use Rattle.std.specs.Prelude.{◌≤◌, vec_capacity};
    ghost use Rattle.mass_outside.specs.Sparse.{SparseView, AreKept, overlaid};

    ghost Value = { SparseView };

    ghost view = { λ s. record { image = overlaid s.given.items s.written.items s.kept.items; blocks = s.blocks } };

    ghost invariant = { λ s. AreKept s.given.items s.written.items s.kept.items s.places.items s.size s.blocks
        × (s.blocks ≤ vec_capacity s.written) × (s.blocks ≤ vec_capacity s.kept) × (s.blocks ≤ vec_capacity s.places) };
}

impl Sparse {
    ghost use Rattle.std.specs.Prelude.{[]};

    /// An image without a byte and without room.
    pub(crate) fn empty(alloc: Global) -> Sparse
        ensures { result ≡ record { image = []; blocks = 0 } }
    {
        Sparse {
            given: Vec::new(alloc),
            written: Vec::new(alloc),
            kept: Vec::new(alloc),
            places: Vec::new(alloc),
            size: 0,
            blocks: 0,
        }
    }

    /// An image that holds these bytes, with room for so many blocks.
    pub(crate) fn of(alloc: Global, given: Vec<u8>, blocks: u32) -> Result<Sparse, AllocError>
        ensures { IfOk result (λ sparse. sparse ≡ record { image = given.items; blocks = blocks }) }
    {
        let written = Vec::with_capacity(alloc, blocks as usize)?;
        let kept = Vec::with_capacity(alloc, blocks as usize)?;
        let places = Vec::with_capacity(alloc, blocks as usize)?;
        let size = given.len() as u64;
        Ok(Sparse {
            given,
            written,
            kept,
            places,
            size,
            blocks,
        })
    }

    /// The same image once more.
    pub(crate) fn copy(&self, alloc: Global) -> Result<Sparse, AllocError>
        ensures { IfOk result (λ sparse. sparse ≡ self.now) }
    {
        let blocks = self.blocks as usize;
        Ok(Sparse {
            given: Vec::from_slice(alloc, self.given.as_slice())?,
            written: with_room(Vec::from_slice(alloc, self.written.as_slice())?, blocks)?,
            kept: with_room(Vec::from_slice(alloc, self.kept.as_slice())?, blocks)?,
            places: with_room(Vec::from_slice(alloc, self.places.as_slice())?, blocks)?,
            size: self.size,
            blocks: self.blocks,
        })
    }

    /// For how many blocks there is room.
    pub(crate) fn blocks(&self) -> u32
        ensures { result ≡ self.now.blocks }
    {
        self.blocks
    }

    /// How long the image is, in bytes.
    pub(crate) fn length(&self) -> u64
        ensures { result ≡ length self.now.image }
    {
        self.size
    }

    /// Reads a block.
    pub(crate) fn read(&self, block: u32, into: &mut [u8; 512])
        ensures { into.new ≡ block_at self.now.image block }
    {
        match place_of(self.places.as_slice(), block) {
            Some(place) => *into = self.kept[place],
            None => read_block(self.given.as_slice(), block, into),
        }
    }

    /// Replaces a block for which there is room.
    pub(crate) fn write(&mut self, block: u32, from: &[u8; 512])
        requires { block < self.old.blocks }
        ensures { self.new ≡ record { image = with_block self.old.image block from.now; blocks = self.old.blocks } }
    {
        self.size = self.size.max(512 * u64::from(block) + 512);
        match place_of(self.places.as_slice(), block) {
            Some(place) => self.kept[place] = *from,
            None => {
                put_place(&mut self.places, block, self.written.len() as u32);
                self.written.push_reserved(block);
                self.kept.push_reserved(*from);
            }
        }
    }
}
