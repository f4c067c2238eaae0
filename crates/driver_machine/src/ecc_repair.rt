//! The repair of a sector in main memory: the driver flips back the burst that the drive's ECC registers tell.
//!
//! What is proved: `repair` flips the places of the pattern in the window's bytes, from place `at - 1` on and as far as
//! the window reaches, and leaves all else as before. `repair_law`: at most three bytes change; a sector that is read
//! with a short burst and repaired has the bytes that stand on the pack.

ghost use Rattle.std.specs.Prelude.{◌≡◌, ◌≤◌, ◌<◌, ◌+◌, ◌-◌, ◌*◌, ◌/◌, ◌%◌, ◌^◌, ◌⊎◌, ℕ, List, All, length, slice_index};
ghost use Rattle.fire_code.specs.Remainder.{remainder};
ghost use Rattle.fire_code.specs.Burst.{IsShortBurst, IsBurst};
ghost use Rattle.fire_code.specs.Word.{IsData, word_remainder};
ghost use Rattle.fire_code.specs.Noise.{IsFlipped};
ghost use Rattle.main_memory.specs.Bytes.{front};
ghost use Rattle.main_memory.specs.Windows.{Writes, memory_name, window_bytes};
ghost use Rattle.driver_machine.specs.Repaired.{repaired, data_bit, pattern_bit};

use main_memory::Window;

/// Repairs the sector that a window shows, or the front of that sector if the window is shorter: an exclusive or of
/// `pattern` from bit `(at - 1) % 8` of byte `(at - 1) / 8` on. As the drives' registers tell a burst, `at`, from 1 to
/// 4128, is its first place, counted from 1, and bit j of `pattern`, which has 11 bits, stands for place `at - 1 + j`,
/// counted from 0. The repair changes at most three bytes, and none beyond the window's length, since the rest of the sector is not in memory.
pub fn repair(window: &mut Window<'_>, at: u16, pattern: u16)
    requires first { 1 ≤ at }
    requires last { at ≤ 4128 }
    requires pattern { pattern < 2048 }
    ensures same_memory { memory_name window.new ≡ memory_name window.old }
    ensures writes { Writes window.old window.new (repaired at pattern (window_bytes window.old)) }
    ensures bytes { window_bytes window.new ≡ repaired at pattern (window_bytes window.old) }
    ensures small { All (λ byte. byte < 2 ^ 8) (window_bytes window.old) }
{
    let mut bytes = [0; 512];
    window.copy_out(&mut bytes);
    flip(&mut bytes, at, pattern);
    window.copy_in(&bytes);
}

// Flips the burst's places of the data.
fn flip(bytes: &mut [u8; 512], at: u16, pattern: u16)
    requires first { 1 ≤ at }
    requires pattern { pattern < 2048 }
    ensures repaired { bytes.new ≡ repaired at pattern bytes.old }
    ensures whole { IsData bytes.old }
{
    let first = usize::from((at - 1) / 8);
    let mut burst = u32::from(pattern) << ((at - 1) % 8);
    for i in first..(first + 3).min(512) {
        bytes[i] ^= (burst % 256) as u8;
        burst /= 256;
    }
}

/// The laws of the repair. The places that the bits of the pattern stand for are flipped, and no others; at most three
/// bytes change; and the front of a sector is repaired in the same way as the whole sector. A sector that is read with a
/// short burst and repaired has the bytes that stand on the pack. This holds for the burst's places alone, and, if the
/// sector's own word is right, for the verdict on the whole word that was read.
pub fn repair_law()
    ensures places { (at pattern place : ℕ) → (bytes : List ℕ) → place < 8 * length bytes
        → data_bit (repaired at pattern bytes) place
        ≡ (data_bit bytes place + pattern_bit at pattern place) % 2 }
    ensures others { (at pattern i : ℕ) → (bytes : List ℕ) → pattern < 2048 → i < length bytes
        → (i < (at - 1) / 8) ⊎ ((at - 1) / 8 + 2 < i)
        → slice_index (repaired at pattern bytes) i ≡ slice_index bytes i }
    ensures cut { (at pattern size : ℕ) → (bytes : List ℕ)
        → repaired at pattern (front size bytes) ≡ front size (repaired at pattern bytes) }
    ensures restored { (at pattern : ℕ) → (places sector read : List ℕ) → (check other : ℕ)
        → IsData sector → IsData read → IsShortBurst places → IsFlipped places sector check read other
        → IsBurst at pattern (remainder places)
        → repaired at pattern read ≡ sector }
    ensures judged { (at pattern : ℕ) → (places sector read : List ℕ) → (check other : ℕ)
        → IsData sector → IsData read → IsShortBurst places → IsFlipped places sector check read other
        → word_remainder sector check ≡ 0 → IsBurst at pattern (word_remainder read other)
        → repaired at pattern read ≡ sector }
{}
