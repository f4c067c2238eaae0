ghost use Rattle.std.specs.Prelude.{◌≡◌, ◌≢◌, ◌<◌, ℕ};
ghost use Rattle.pack_geometry.specs.declared.DriveKind.{DriveKind};
ghost use Rattle.pack_geometry.specs.Geometry.{block_count};
ghost use Rattle.pack_geometry.specs.Pack.{Pack};
ghost use Rattle.pack_geometry.specs.TableEdit.{IsAddedAt, IsEdited};
ghost use Rattle.pack_geometry.specs.TableSpelling.{Table};
ghost use Rattle.bad144_tool.specs.Adding.{Adds, MayList, edit_of};
ghost use Rattle.bad144_tool.specs.Faults.{IsRefusal, IsWhy};
ghost use Rattle.bad144_tool.specs.Marking.{IsMarkedUp, Marks};
ghost use Rattle.bad144_tool.specs.declared.fault.ToolFault.{ToolFault};
ghost use Rattle.bad144_tool.specs.declared.edit.AddWay.{AddWay};

use pack_geometry::table_edit_law;

/// The law of an addition. If a block was added to the table of a unit's pack, that is an edit of the table: each data block except the
/// new one keeps its content or stays unusable. Every other unit's pack is as before.
pub fn add_law()
    ensures may { (kind : DriveKind) → (unit block i : ℕ) → (way : AddWay) → (old new : ℕ → Pack) → block < block_count kind
        → (a : Adds kind unit block way old new i) → IsAddedAt kind (old unit) a.table (edit_of block way) i }
    ensures edits { (kind : DriveKind) → (unit block i : ℕ) → (way : AddWay) → (old new : ℕ → Pack) → block < block_count kind
        → (a : Adds kind unit block way old new i) → IsEdited kind (old unit) (new unit) a.table (edit_of block way) i }
    ensures elsewhere { (kind : DriveKind) → (unit block i other : ℕ) → (way : AddWay) → (old new : ℕ → Pack)
        → Adds kind unit block way old new i → other ≢ unit → new other ≡ old other }
{
    table_edit_law();
}

/// The law of refusals. Unless the packs fail, what a pack holds determines what `add` answers. At most one refusal has its reason in
/// the pack, and if one has, the block may not be listed at any index. So each refusal comes exactly if its reason holds.
pub fn refusal_law()
    ensures once { (kind : DriveKind) → (pack : Pack) → (block : ℕ) → (f g : ToolFault) → block < block_count kind
        → IsRefusal f → IsRefusal g → IsWhy kind pack block f → IsWhy kind pack block g → f ≡ g }
    ensures never_both { (kind : DriveKind) → (pack : Pack) → (block i : ℕ) → (f : ToolFault) → (old new : Table)
        → block < block_count kind → IsRefusal f → IsWhy kind pack block f → ¬ (MayList kind pack block i old new) }
    ensures one_index { (kind : DriveKind) → (pack : Pack) → (block i j : ℕ) → (old new other other_new : Table)
        → block < block_count kind → MayList kind pack block i old new → MayList kind pack block j other other_new → i ≡ j }
{}

/// The law of marking. If the blocks that a pack's table lists were marked, no byte changed. The marks are those that were there before
/// and those of the listed data blocks, and the table is still that of the pack. A read of a listed data block gives what its
/// replacement holds, and every other block keeps its content. Every other unit's pack is as before. Marking a second time finds
/// nothing to mark, and changes nothing.
pub fn mark_law()
    ensures up { (kind : DriveKind) → (unit count : ℕ) → (old new : ℕ → Pack) → (m : Marks kind unit old new count)
        → IsMarkedUp kind (old unit) (new unit) m.table }
    ensures elsewhere { (kind : DriveKind) → (unit count other : ℕ) → (old new : ℕ → Pack) → Marks kind unit old new count → other ≢ unit → new other ≡ old other }
    ensures again { (kind : DriveKind) → (unit count more : ℕ) → (old new newer : ℕ → Pack) → Marks kind unit old new count → Marks kind unit new newer more
        → (more ≡ 0) × (newer ≡ new) }
{}
