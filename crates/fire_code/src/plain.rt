// The definitions as a plain program: the remainder by one shift for each place, and the verdict by one test
// for each place. The crate's own calls give the same answers by tables.
ghost use Rattle.std.specs.Prelude.{◌≡◌};
ghost use Rattle.fire_code.specs.Remainder.{times_x as the_product};
ghost use Rattle.fire_code.specs.Verdict.{Judges};
ghost use Rattle.fire_code.specs.Word.{word_remainder};

use crate::pattern::{fits, reversed};
use crate::{Check, Verdict};

const GENERATOR: u32 = 0x00A0_0805;

// The value times x, modulo the generator.
fn times_x(value: u32) -> u32
    ensures { result ≡ the_product value }
{
    if value & 0x8000_0000 != 0 {
        (value << 1) ^ GENERATOR
    } else {
        value << 1
    }
}

// The value divided by x, modulo the generator.
fn over_x(value: u32) -> u32
    ensures { the_product result ≡ value }
{
    if value & 1 != 0 {
        (value >> 1) ^ 0x8050_0402
    } else {
        value >> 1
    }
}

// The remainder of the word of these bytes and the check 0.
fn data_remainder(bytes: &[u8; 512]) -> u32
    ensures { result ≡ word_remainder bytes.now 0 }
{
    let mut state: u32 = 0;
    for byte in bytes {
        for bit in 0..8u32 {
            let one = u32::from((*byte >> bit) & 1);
            state = times_x(state ^ (one << 31));
        }
    }
    state
}

/// The word's remainder, as `syndrome` gives it.
pub fn remainder(bytes: &[u8; 512], check: Check) -> u32
    ensures { result ≡ word_remainder bytes.now check.0 }
{
    data_remainder(bytes) ^ check.0
}

/// The verdict on a word with this remainder, as `judge` gives it.
pub fn verdict_of(remainder: u32) -> Verdict
    ensures { Judges result remainder }
{
    if remainder == 0 {
        return Verdict::Clean;
    }
    let mut window = remainder;
    for _step in 0..10u32 {
        window = times_x(window);
    }
    for exponent in 0..4128 {
        if 1024 <= window && window < 2048 {
            let first = 4127 - exponent;
            let pattern = reversed(window as u16);
            if fits(first, pattern) {
                return Verdict::Burst {
                    at: first + 1,
                    pattern,
                };
            }
        }
        window = over_x(window);
    }
    Verdict::Uncorrectable
}
