ghost use Rattle.std.specs.Prelude.{◌≡◌, ℕ, ◌<◌, ◌≤◌, Bool, IsTrue, take, drop, length, IfOk, OnErr, string_bytes};
ghost use Rattle.pack_geometry.specs.Pack.{Pack};
ghost use Rattle.outside_traits.specs.Files.{file_of};
ghost use Rattle.outside_files.specs.Folder.{with_put, file_number, name_of};

pub use outside_traits::wide_packs::Part;
use std::alloc::{AllocError, Global};
use std::io;

/// The number of a unit's file among the files of all units, below 64 for the units 0 to 31.
pub fn file_number(unit: u8, part: Part) -> usize
    ensures { result ≡ file_number unit part }
{
    2 * usize::from(unit) + part as usize
}

/// The name of a unit's file: `hpU.dsk` or `hpU.bad`, with the unit in decimal. An error if there is no memory for the name.
pub fn file_name(alloc: Global, unit: u8, part: Part) -> Result<String, AllocError>
    ensures { IfOk result (λ name. string_bytes name ≡ name_of unit part) }
{
    match part {
        Part::Image => format!(in alloc; "hp{unit}.dsk"),
        Part::Marks => format!(in alloc; "hp{unit}.bad"),
    }
}

/// A folder with two files for each of the units 0 to 31. A missing file is empty.
///
/// A folder either tells what its files hold or does not. A folder that stops telling never tells again. Errors are those of `std`,
/// and a call that answers an error has changed nothing.
pub trait PackFolder {
    /// Whether the folder tells what the files hold.
    ghost tells: { Self → Bool };

    /// What the two files of each unit hold, if the folder tells.
    ghost held: { Self → ℕ → Pack };

    /// Whether a file is open. If it is not, a failed call on the file could not open it.
    fn is_open(&self, _unit: u8, _part: Part) -> bool {
        true
    }

    /// Answers a file's length, in bytes.
    fn length(&mut self, unit: u8, part: Part) -> io::Result<u64>
        requires { unit < 32 }
        ensures never_again { IsTrue (tells self.new) → IsTrue (tells self.old) }
        ensures length { IfOk result (λ n. IsTrue (tells self.new) → n ≡ length (file_of (held self.old unit) part)) }
        ensures same { IsTrue (tells self.new) → held self.new ≡ held self.old };

    /// Reads bytes of a file from a place on, and answers how many it read. It reads at least one byte, except if the file has none
    /// there or none fits.
    fn read_at(&mut self, unit: u8, part: Part, at: u64, into: &mut [u8]) -> io::Result<usize>
        requires { unit < 32 }
        ensures bound { IfOk result (λ n. n ≤ length into.new) }
        ensures never_again { IsTrue (tells self.new) → IsTrue (tells self.old) }
        ensures bytes { IfOk result (λ n. IsTrue (tells self.new) → take n into.new ≡ take n (drop at (file_of (held self.old unit) part))) }
        ensures end { IfOk result (λ n. IsTrue (tells self.new) → n ≡ 0 → 0 < length into.new → length (file_of (held self.old unit) part) ≤ at) }
        ensures same { IsTrue (tells self.new) → held self.new ≡ held self.old };

    /// Writes a front part of these bytes at a place of a file, and answers how many bytes it wrote. It writes at least one byte,
    /// except if there are none. A missing file is made, and a file that ends before the place is extended by zeros.
    fn write_at(&mut self, unit: u8, part: Part, at: u64, from: &[u8]) -> io::Result<usize>
        requires { unit < 32 }
        ensures bound { IfOk result (λ n. n ≤ length from.now) }
        ensures some { IfOk result (λ n. 0 < length from.now → 0 < n) }
        ensures never_again { IsTrue (tells self.new) → IsTrue (tells self.old) }
        ensures bytes { IfOk result (λ n. IsTrue (tells self.new) → held self.new ≡ with_put (held self.old) unit part at (take n from.now)) }
        ensures err { OnErr result (IsTrue (tells self.new) → held self.new ≡ held self.old) };
}
