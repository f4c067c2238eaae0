ghost use Rattle.std.specs.Prelude.{◌≡◌, ◌<◌, ◌≤◌, ◌+◌, ◌++◌, ℕ, [], ◌∷◌, ◌↔◌, Contains, IfErr, IfNone, IfOk, IfSome, IsTrue, OnErr, length, slice_get, slice_index_or};
ghost use Rattle.std.specs.Bool.{OnFalse};
ghost use Rattle.pack_geometry.specs.declared.Place.{Place};
ghost use Rattle.pack_geometry.specs.Geometry.{IsInside, block_number};
ghost use Rattle.pack_geometry.specs.TableSpelling.{IsTable};
ghost use Rattle.pack_geometry.specs.Homes.{index_in};
ghost use Rattle.bad144_table.specs.Inserts.{Inserts, IsAtOrBelowLast, IsRefused};

use arrayvec::ArrayVec;
use pack_geometry::{DriveKind, Place, block_of, data_limit};
use std::marker::Model;
use thiserror::Error;

/// A bad-sector table: the kind of its drive, the pack's serial number, and at most 126 places in strictly ascending
/// order. The places are stored in the value itself.
#[derive(Drop)]
pub struct BadTable {
    kind: DriveKind,
    serial: u32,
    places: ArrayVec<Place, 126>,
}

impl Model for BadTable {
    ghost use Rattle.pack_geometry.specs.TableSpelling.{Table, IsTable};

    ghost Value = { Table };

    ghost view = { λ table. record { kind = table.kind; serial = table.serial; places = table.places.items } };

    ghost invariant = { λ table.
        IsTable (record { kind = table.kind; serial = table.serial; places = table.places.items }) };
}

/// Why a place is not added: its block is at or above the data limit, the table lists it already (at this index), or the table has 126 entries.
#[derive(Debug, Drop, Error)]
pub enum InsertFault {
    #[error("reserved")]
    Reserved,
    #[error("listed at {0}")]
    Listed(u8),
    #[error("full")]
    Full,
}

impl BadTable {
    /// A copy of the table.
    pub fn copy(&self) -> BadTable
        ensures { result ≡ self.now }
    {
        let mut places = ArrayVec::new();
        places
            .try_extend_from_slice(self.places.as_slice())
            .unwrap();
        BadTable {
            kind: self.kind,
            serial: self.serial,
            places,
        }
    }
}

/// A table without entries.
pub fn empty_table(kind: DriveKind, serial: u32) -> BadTable
    ensures { result ≡ record { kind = kind; serial = serial; places = [] } }
{
    BadTable {
        kind,
        serial,
        places: ArrayVec::new(),
    }
}

/// The pack's serial number.
pub fn serial(table: &BadTable) -> u32
    ensures { result ≡ table.now.serial }
{
    table.serial
}

/// The number of entries, at most 126.
pub fn entries(table: &BadTable) -> u8
    ensures count { result ≡ length table.now.places }
    ensures valid { IsTable table.now }
{
    table.places.len() as u8
}

/// Entry `i`, counted from 0.
pub fn entry(table: &BadTable, i: u8) -> Place
    requires { i < length table.now.places }
    ensures { slice_get table.now.places i ≡ Some result }
{
    table.places[i as usize]
}

/// The one index at which a place is listed. None exactly if it is not listed.
pub fn position(table: &BadTable, place: Place) -> Option<u8>
    ensures index { result ≡ index_in (Some table.now) place }
    ensures listed { (i : ℕ) → (result ≡ Some i) ↔ (slice_get table.now.places i ≡ Some place) }
    ensures none { IfNone result (¬ (Contains table.now.places place)) }
{
    first_index(table, place)
}

fn first_index(table: &BadTable, place: Place) -> Option<u8>
    ensures valid { IsTable table.now }
    ensures listed { IfSome result (λ i. slice_get table.now.places i ≡ Some place) }
    ensures none { IfNone result (¬ (Contains table.now.places place)) }
{
    for (i, listed) in table.places.as_slice().iter().enumerate() {
        if *listed == place {
            return Some(i as u8);
        }
    }
    None
}

/// The number of the block at a place of a drive.
pub fn number(kind: DriveKind, place: Place) -> u32
    requires { IsInside kind place }
    ensures { result ≡ block_number kind place }
{
    block_of(kind, place).unwrap()
}

/// How many listed places lie below a block.
fn rank(table: &BadTable, block: u32) -> usize
    ensures bound { result ≤ length table.now.places }
    ensures below { (k : ℕ) → (d : Place) → k < result → block_number table.now.kind (slice_index_or table.now.places k d) < block }
    ensures above { (k : ℕ) → (d : Place) → result ≤ k → k < length table.now.places
        → block ≤ block_number table.now.kind (slice_index_or table.now.places k d) }
{
    for (i, place) in table.places.as_slice().iter().enumerate() {
        if number(table.kind, *place) >= block {
            return i;
        }
    }
    table.places.len()
}

fn stands_at(table: &BadTable, at: usize, place: Place) -> bool
    ensures { IsTrue result ↔ (slice_get table.now.places at ≡ Some place) }
{
    at < table.places.len() && table.places[at] == place
}

/// Adds a place of the drive at its position in ascending order, and gives its index. The refusals are, in this order:
/// Reserved if its block is at or above the data limit, Listed (with its index) if the table lists it already, and Full
/// if the table has 126 entries. A refusal changes nothing.
pub fn insert(table: &mut BadTable, place: Place) -> Result<u8, InsertFault>
    requires { IsInside table.old.kind place }
    ensures ok { IfOk result (Inserts table.old table.new place) }
    ensures refused { IfErr result (IsRefused table.old place) }
    ensures unchanged { OnErr result (table.new ≡ table.old) }
{
    let block = number(table.kind, place);
    if block >= data_limit(table.kind) {
        return Err(InsertFault::Reserved);
    }
    let at = rank(table, block);
    if stands_at(table, at, place) {
        return Err(InsertFault::Listed(at as u8));
    }
    if table.places.is_full() {
        return Err(InsertFault::Full);
    }
    table.places.insert(at, place);
    Ok(at as u8)
}

pub(crate) fn lies_on(table: &BadTable, place: Place) -> bool
    ensures { IsTrue result ↔ IsInside table.now.kind place }
{
    block_of(table.kind, place).is_some()
}

/// Whether a place lies above all listed places.
pub(crate) fn follows(table: &BadTable, place: Place) -> bool
    requires { IsInside table.now.kind place }
    ensures above { IsTrue result → (k : ℕ) → (d : Place) → k < length table.now.places
        → block_number table.now.kind (slice_index_or table.now.places k d) < block_number table.now.kind place }
    ensures below { OnFalse result (IsAtOrBelowLast table.now place) }
{
    let count = table.places.len();
    count == 0 || number(table.kind, table.places[count - 1]) < number(table.kind, place)
}

/// Appends a place that lies above all listed places.
pub(crate) fn push(table: &mut BadTable, place: Place)
    requires inside { IsInside table.old.kind place }
    requires room { length table.old.places < 126 }
    requires above { (k : ℕ) → (d : Place) → k < length table.old.places
        → block_number table.old.kind (slice_index_or table.old.places k d) < block_number table.old.kind place }
    ensures { table.new ≡ record table.old { places = table.old.places ++ place ∷ [] } }
{
    table.places.push(place);
}
