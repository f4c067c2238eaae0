ghost use Rattle.std.specs.Prelude.{◌≡◌, ℕ, ◌<◌, ◌≤◌, ◌⊎◌, Bool, IsTrue, List, [], ◌++◌, length, take, IfOk, OnOk, OnErr};
ghost use Rattle.pack_geometry.specs.Pack.{Pack, block_at, with_written, with_mark, is_marked};
ghost use Rattle.outside_traits.specs.Causes.{HasCause};
ghost use Rattle.outside_traits.specs.declared.traits.PackCall.{PackCall};
ghost use Rattle.outside_traits.specs.declared.traits.PackCall.TheVariants.{Length, Block};

pub use no_memory::NoMemory;
use thiserror::Error;

/// A call of the source failed. It gave no byte.
#[derive(Clone, Copy, Debug, Error)]
#[error("the source failed")]
pub struct SourceFailed;

/// A call of the sink failed. It took no byte.
#[derive(Clone, Copy, Debug, Error)]
#[error("the sink failed")]
pub struct SinkFailed;

/// A call of the packs failed.
#[derive(Clone, Copy, Debug, Error)]
#[error("the packs failed")]
pub struct StoreFailed;

/// What a call of the packs is about.
#[derive(Clone, Copy, Debug)]
pub enum PackCall {
    /// The length of a unit's image.
    Length { unit: u8 },
    /// A block of a unit, or its mark.
    Block { unit: u8, block: u32 },
}

/// Bytes to read, one after another.
///
/// A source tells which bytes are left, or it does not. A source that no longer tells never tells again.
pub trait Source {
    /// Whether the source tells which bytes are left.
    ghost tells: { Self → Bool };

    /// The bytes that are left, if the source tells.
    ghost left: { Self → List ℕ };

    /// How often the source has failed: a count that never falls.
    ghost faults: { Self → ℕ };

    /// Gives the next bytes, at most as many as fit, and returns how many they are. If `into` is not empty, a result of 0
    /// means that no bytes are left. A failure leaves the rest as it was, and comes only if the count of faults rose in
    /// this call or stands at its last value.
    fn read(&mut self, into: &mut [u8]) -> Result<usize, SourceFailed>
        ensures bound { IfOk result (λ n. n ≤ length into.old) }
        ensures never_again { IsTrue (tells self.new) → IsTrue (tells self.old) }
        ensures bytes { IfOk result (λ n. IsTrue (tells self.new) → left self.old ≡ take n into.new ++ left self.new) }
        ensures end { IfOk result (λ n. IsTrue (tells self.new) → n ≡ 0 → 0 < length into.old → left self.new ≡ []) }
        ensures err { OnErr result (IsTrue (tells self.new) → left self.new ≡ left self.old) }
        ensures cause { HasCause (faults self.old) (faults self.new) result };
}

/// A place for bytes. A sink that no longer tells which bytes it took never tells again.
pub trait Sink {
    /// Whether the sink tells which bytes it took.
    ghost tells: { Self → Bool };

    /// The bytes that the sink took, if it tells.
    ghost taken: { Self → List ℕ };

    /// How often the sink has failed: a count that never falls.
    ghost faults: { Self → ℕ };

    /// Takes a front of the piece, and returns how many bytes it took: at least one if the piece is not empty. A failure
    /// takes nothing, and comes only if the count of faults rose in this call or stands at its last value.
    fn write(&mut self, from: &[u8]) -> Result<usize, SinkFailed>
        ensures bound { IfOk result (λ n. n ≤ length from.now) }
        ensures some { IfOk result (λ n. 0 < length from.now → 0 < n) }
        ensures never_again { IsTrue (tells self.new) → IsTrue (tells self.old) }
        ensures bytes { IfOk result (λ n. IsTrue (tells self.new) → taken self.new ≡ taken self.old ++ take n from.now) }
        ensures err { OnErr result (IsTrue (tells self.new) → taken self.new ≡ taken self.old) }
        ensures cause { HasCause (faults self.old) (faults self.new) result };
}

/// The packs of units 0 to 31. The pack of each unit is a list of image bytes and a list of mark bytes.
///
/// A block has 512 bytes; image bytes that are missing read as zeros. A mark byte that is 0 or missing means that the
/// block is good, and any other means that it is marked. A call fails only if the count of faults rose in that call or stands at its last value. After
/// a failure `failed_at` names the unit and the block of that call.
pub trait Packs {
    /// Whether the object tells what the packs hold.
    ghost tells: { Self → Bool };

    /// What the pack of each unit holds, if the object tells.
    ghost held: { Self → ℕ → Pack };

    /// How often the packs have failed: a count that never falls.
    ghost faults: { Self → ℕ };

    /// What the call was about that failed last.
    ghost failed_at: { Self → PackCall };

    /// Returns the length of a unit's image, in bytes.
    fn length(&mut self, unit: u8) -> Result<u64, StoreFailed>
        requires { unit < 32 }
        ensures never_again { IsTrue (tells self.new) → IsTrue (tells self.old) }
        ensures length { IfOk result (λ n. IsTrue (tells self.new) → n ≡ length (held self.old unit).image) }
        ensures same { IsTrue (tells self.new) → held self.new ≡ held self.old }
        ensures cause { HasCause (faults self.old) (faults self.new) result }
        ensures at { OnErr result (failed_at self.new ≡ Length unit) };

    /// Reads a block.
    fn read(&mut self, unit: u8, block: u32, into: &mut [u8; 512]) -> Result<(), StoreFailed>
        requires { unit < 32 }
        ensures never_again { IsTrue (tells self.new) → IsTrue (tells self.old) }
        ensures block { OnOk result (IsTrue (tells self.new) → into.new ≡ block_at (held self.old unit).image block) }
        ensures same { IsTrue (tells self.new) → held self.new ≡ held self.old }
        ensures cause { HasCause (faults self.old) (faults self.new) result }
        ensures at { OnErr result (failed_at self.new ≡ Block unit block) };

    /// Replaces a block, and extends an image that is too short by zeros. A failure leaves that block old or new, and all else as it was.
    fn write(&mut self, unit: u8, block: u32, from: &[u8; 512]) -> Result<(), StoreFailed>
        requires { unit < 32 }
        ensures never_again { IsTrue (tells self.new) → IsTrue (tells self.old) }
        ensures ok { OnOk result (IsTrue (tells self.new) → held self.new ≡ with_written (held self.old) unit block from.now) }
        ensures err { OnErr result (IsTrue (tells self.new) → (held self.new ≡ held self.old)
            ⊎ (held self.new ≡ with_written (held self.old) unit block from.now)) }
        ensures cause { HasCause (faults self.old) (faults self.new) result }
        ensures at { OnErr result (failed_at self.new ≡ Block unit block) };

    /// Says whether a block is marked.
    fn marked(&mut self, unit: u8, block: u32) -> Result<bool, StoreFailed>
        requires { unit < 32 }
        ensures never_again { IsTrue (tells self.new) → IsTrue (tells self.old) }
        ensures mark { IfOk result (λ on. IsTrue (tells self.new) → on ≡ is_marked (held self.old unit) block) }
        ensures same { IsTrue (tells self.new) → held self.new ≡ held self.old }
        ensures cause { HasCause (faults self.old) (faults self.new) result }
        ensures at { OnErr result (failed_at self.new ≡ Block unit block) };

    /// Writes the mark byte of a block, 1 or 0. A failure leaves that mark old or new, and all else as it was.
    fn set_mark(&mut self, unit: u8, block: u32, on: bool) -> Result<(), StoreFailed>
        requires { unit < 32 }
        ensures never_again { IsTrue (tells self.new) → IsTrue (tells self.old) }
        ensures ok { OnOk result (IsTrue (tells self.new) → held self.new ≡ with_mark (held self.old) unit block on) }
        ensures err { OnErr result (IsTrue (tells self.new) → (held self.new ≡ held self.old)
            ⊎ (held self.new ≡ with_mark (held self.old) unit block on)) }
        ensures cause { HasCause (faults self.old) (faults self.new) result }
        ensures at { OnErr result (failed_at self.new ≡ Block unit block) };
}
