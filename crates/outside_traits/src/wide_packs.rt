ghost use Rattle.std.specs.Prelude.{◌≡◌, ◌<◌, ◌*◌, ◌==◌, not, IsTrue, OnOk, length};
ghost use Rattle.pack_geometry.specs.Pack.{window};
ghost use Rattle.outside_traits.specs.Causes.{HasCause};
ghost use Rattle.outside_traits.specs.Files.{file_of};

use crate::traits::{Packs, StoreFailed};

/// The two files of a pack.
#[derive(Clone, Copy)]
pub enum Part {
    /// The image: the bytes of the blocks.
    Image,
    /// The marks: a byte for each block, which is not 0 if the block is marked.
    Marks,
}

/// The place of a block in an image, in bytes.
pub fn place_in_image(block: u32) -> u64
    ensures { result ≡ 512 * block }
{
    512 * u64::from(block)
}

/// Whether a mark byte marks its block: any byte but 0 does.
pub fn is_mark(byte: u8) -> bool
    ensures { result ≡ not (byte == 0) }
{
    byte != 0
}

/// Packs that also give many bytes of an image or of marks in one call.
pub trait WidePacks: Packs {
    /// Reads the bytes of a unit's image or marks from a place on, as many as fit. Missing bytes are zeros.
    fn read_part(
        &mut self,
        unit: u8,
        part: Part,
        at: u64,
        into: &mut [u8],
    ) -> Result<(), StoreFailed>
        requires { unit < 32 }
        ensures never_again { IsTrue (Self.tells self.new) → IsTrue (Self.tells self.old) }
        ensures bytes { OnOk result (IsTrue (Self.tells self.new) → into.new ≡ window (length into.old) at (file_of (Self.held self.old unit) part)) }
        ensures same { IsTrue (Self.tells self.new) → Self.held self.new ≡ Self.held self.old }
        ensures cause { HasCause (Self.faults self.old) (Self.faults self.new) result };
}
