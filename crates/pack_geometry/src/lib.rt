//! The sizes of the drives and the places of their blocks, as the manuals of the RP06, RM03 and RM05 give them; and what a
//! pack holds, as the contracts of all crates see it.
//!
//! Defined in `specs/`: packs, as the bytes of their images and their marks; the spelling of a bad-sector table; the table
//! of a pack, as its five copies give it; the home and the content of each data block; and the edit of a table.
//!
//! What is proved: `geometry_of`, `blocks` and `data_limit` give the numbers of the RP06, RM03 and RM05; `sector_word` is
//! `track * 256 + sector`. `place_of` and `block_of` are exact and inverse inside the geometry (`place_law`); data
//! blocks, replacements and table copies lie apart, in this order (`apart_law`); `kind_of` is exact. `table_edit_law`: the
//! writes that list a block leave the content of every other data block as it was.
//!
//! Only tested, in `drive_rows` and `hpsim_rows`: worked values, beside their proofs.
#![tactic(auto)]

ghost use Rattle.std.specs.Prelude.{◌≡◌, ◌≢◌, ◌<◌, ◌≤◌, ◌-◌, ◌↔◌, ℕ, true, false, IfNone, Some, SomeIff};
ghost use Rattle.pack_geometry.specs.declared.DriveKind.{DriveKind};
ghost use Rattle.pack_geometry.specs.declared.Place.{Place};
ghost use Rattle.pack_geometry.specs.Geometry.{cylinders_of, tracks_of, sectors_of, block_count, limit_of, IsInside, block_number, place_at, copy_at, replacement_at, kind_word, track_and_sector};
ghost use Rattle.pack_geometry.specs.Homes.{content_of};
ghost use Rattle.pack_geometry.specs.Pack.{Pack, is_marked};
ghost use Rattle.pack_geometry.specs.TableEdit.{Edit, IsAddedAt, IsEdited, edited, edited_table};
ghost use Rattle.pack_geometry.specs.TableSpelling.{Table};

/// The kinds of drive.
#[derive(Clone, Copy, PartialEq, Eq)]
pub enum DriveKind {
    Rp06,
    Rm03,
    Rm05,
}

/// How many cylinders a drive has, how many tracks a cylinder has, and how many sectors of 512 bytes a track has.
#[derive(Clone, Copy)]
pub struct Geometry {
    pub cylinders: u32,
    pub tracks: u32,
    pub sectors: u32,
}

/// The place of a sector. Each number counts from 0.
#[derive(Clone, Copy, Default, PartialEq, Eq)]
pub struct Place {
    pub cylinder: u32,
    pub track: u32,
    pub sector: u32,
}

/// The geometry of a kind: the RP06 in its 16-bit format, the RM03 and the RM05.
pub fn geometry_of(kind: DriveKind) -> Geometry
    ensures cylinders { result.cylinders ≡ cylinders_of kind }
    ensures tracks { result.tracks ≡ tracks_of kind }
    ensures sectors { result.sectors ≡ sectors_of kind }
{
    let (cylinders, tracks, sectors) = match kind {
        DriveKind::Rp06 => (815, 19, 22),
        DriveKind::Rm03 => (823, 5, 32),
        DriveKind::Rm05 => (823, 19, 32),
    };
    Geometry {
        cylinders,
        tracks,
        sectors,
    }
}

/// How many blocks a pack has.
pub fn blocks(kind: DriveKind) -> u32
    ensures { result ≡ block_count kind }
{
    match kind {
        DriveKind::Rp06 => 340670,
        DriveKind::Rm03 => 131680,
        DriveKind::Rm05 => 500384,
    }
}

/// The data limit: every block below this number holds data, and no other block does.
pub fn data_limit(kind: DriveKind) -> u32
    ensures { result ≡ limit_of kind }
{
    blocks(kind) - geometry_of(kind).sectors - 126
}

/// The kind that a word names: `rp06`, `rm03` or `rm05`. None exactly if the word is none of these three.
pub fn kind_of(word: &[u8]) -> Option<DriveKind>
    ensures named { (kind : DriveKind) → (result ≡ Some kind) ↔ (word.now ≡ kind_word kind) }
    ensures none { IfNone result ((kind : DriveKind) → word.now ≢ kind_word kind) }
{
    match word {
        b"rp06" => Some(DriveKind::Rp06),
        b"rm03" => Some(DriveKind::Rm03),
        b"rm05" => Some(DriveKind::Rm05),
        _ => None,
    }
}

/// The place of a block.
pub fn place_of(kind: DriveKind, block: u32) -> Place
    requires { block < block_count kind }
    ensures place { result ≡ place_at kind block }
    ensures inside { IsInside kind result }
{
    let Geometry {
        tracks,
        sectors,
        ..
    } = geometry_of(kind);
    let on_cylinder = block % (tracks * sectors);
    Place {
        cylinder: block / (tracks * sectors),
        track: on_cylinder / sectors,
        sector: block % sectors,
    }
}

/// The block that lies at a place. None exactly if the place is outside the geometry.
pub fn block_of(kind: DriveKind, place: Place) -> Option<u32>
    ensures block { SomeIff result (IsInside kind place) (block_number kind place) }
{
    let geometry = geometry_of(kind);
    if place.cylinder < geometry.cylinders
        && place.track < geometry.tracks
        && place.sector < geometry.sectors
    {
        let track = place.cylinder * geometry.tracks + place.track;
        Some(track * geometry.sectors + place.sector)
    } else {
        None
    }
}

/// The word that names a place's track and sector on its cylinder, `track * 256 + sector`. A drive's address register, a
/// sector's header and the pairs of a bad-sector table hold this word.
pub fn sector_word(place: Place) -> u16
    requires track { place.track < 256 }
    requires sector { place.sector < 256 }
    ensures { result ≡ track_and_sector place }
{
    (place.track * 256 + place.sector) as u16
}

/// The block of copy `k` of the bad-sector table. The five copies lie on the even sectors of the last track.
pub fn copy_block(kind: DriveKind, k: u32) -> u32
    requires { k < 5 }
    ensures { result ≡ copy_at kind k }
{
    blocks(kind) - geometry_of(kind).sectors + 2 * k
}

/// The block that replaces entry `i` of the bad-sector table. Replacement 0 lies directly below the last track, and each
/// further replacement lies directly below the one before it.
pub fn replacement(kind: DriveKind, i: u32) -> u32
    requires { i < 126 }
    ensures { result ≡ replacement_at kind i }
{
    blocks(kind) - geometry_of(kind).sectors - 1 - i
}

/// The law of places: `place_of` maps the numbers below the count of blocks to the places of the drive, one to one, and
/// `block_of` maps them back.
pub fn place_law(kind: DriveKind)
    ensures inside { (block : ℕ) → block < block_count kind → IsInside kind (place_at kind block) }
    ensures back { (block : ℕ) → block < block_count kind → block_number kind (place_at kind block) ≡ block }
    ensures below { (place : Place) → IsInside kind place → block_number kind place < block_count kind }
    ensures forth { (place : Place) → IsInside kind place → place_at kind (block_number kind place) ≡ place }
{}

/// The law of a pack's parts: data blocks, replacements and table copies lie apart and in this order, and all of them lie
/// below the count of blocks. Different replacements are different blocks, and so are different copies.
pub fn apart_law(kind: DriveKind)
    ensures replacements { (i : ℕ) → i < 126 → limit_of kind ≤ replacement_at kind i }
    ensures below_copies { (i k : ℕ) → i < 126 → replacement_at kind i < copy_at kind k }
    ensures copies { (k : ℕ) → k < 5 → copy_at kind k < block_count kind }
    ensures different_replacements { (i j : ℕ) → i < 126 → j < 126 → i ≢ j → replacement_at kind i ≢ replacement_at kind j }
    ensures different_copies { (k l : ℕ) → k < 5 → l < 5 → k ≢ l → copy_at kind k ≢ copy_at kind l }
{}

/// The law of the table edit: if a block may be added, the writes that list it make the edit. If these writes copy the
/// bytes of the block, and the block was unmarked, every data block holds what it held before.
pub fn table_edit_law()
    ensures made { (kind : DriveKind) → (pack : Pack) → (table : Table) → (edit : Edit) → (i : ℕ)
        → IsAddedAt kind pack table edit i → IsEdited kind pack (edited kind pack table edit i) table edit i }
    ensures kept { (kind : DriveKind) → (pack new : Pack) → (table : Table) → (edit : Edit) → (i : ℕ)
        → IsAddedAt kind pack table edit i → IsEdited kind pack new table edit i → edit.copy ≡ true
        → is_marked pack edit.block ≡ false
        → content_of kind (Some (edited_table kind table edit i)) new ≡ content_of kind (Some table) pack }
{}
