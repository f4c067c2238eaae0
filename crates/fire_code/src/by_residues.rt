// Verdicts by the remainder's residues modulo the generator's factors, x^21 + 1 and x^11 + x^2 + 1.
ghost use Rattle.std.specs.Prelude.{◌≡◌, ◌≢◌, ℕ, ◌*◌, ◌/◌, ◌%◌, ◌^◌, ◌<◌, ◌≤◌, bit_xor};
ghost use Rattle.fire_code.specs.Remainder.{times_x, repeat};
ghost use Rattle.fire_code.specs.Residue.{ring_of as the_ring, cycle_of as the_cycle, IsWindow};
ghost use Rattle.fire_code.specs.Verdict.{Judges};

use crate::Verdict;
use crate::logarithms::logarithm;
use crate::pattern::{fits, reversed};

// The remainder times x^10, modulo x^21 + 1.
fn ring_of(remainder: u32) -> u32
    ensures { result ≡ the_ring (repeat times_x 10 remainder) }
{
    let folded = (remainder % 0x20_0000) ^ (remainder >> 21);
    ((folded << 10) % 0x20_0000) ^ (folded >> 11)
}

// A value with the same residue modulo x^11 + x^2 + 1, and with 9 bits less if it has more than 11.
fn folded(value: u32) -> u32
    ensures { let high = value / 2 ^ 11 in result ≡ bit_xor (bit_xor (value % 2 ^ 11) high) (high * 2 ^ 2 % 2 ^ 32) }
{
    let high = value >> 11;
    (value % 2048) ^ high ^ (high << 2)
}

// The remainder modulo x^11 + x^2 + 1.
fn cycle_of(remainder: u32) -> u16
    ensures small { result < 2 ^ 11 }
    ensures value { result ≡ the_cycle remainder }
{
    folded(folded(folded(remainder))) as u16
}

// The exponent below 21 * 2047 that has both residues.
fn joined(clocks: u32, power: u32) -> u32
    requires clocks { clocks < 21 }
    requires power { power < 2047 }
    ensures below { result < 42987 }
    ensures window { result % 21 ≡ clocks }
    ensures cycle { result % 2047 ≡ power }
{
    power + 2047 * ((clocks + 21 - power % 21) * 19 % 21)
}

// The burst whose window has this exponent, if it lies in the word.
fn burst_at(exponent: u32, window: u16) -> Verdict
    requires exponent { exponent < 42987 }
    requires top { 2 ^ 10 ≤ window }
    requires small { window < 2 ^ 11 }
    ensures { (r : ℕ) → r < 2 ^ 32 → r ≢ 0 → IsWindow r exponent window → Judges result r }
{
    if exponent > 4127 {
        return Verdict::Uncorrectable;
    }
    let first = 4127 - exponent as u16;
    let pattern = reversed(window);
    if !fits(first, pattern) {
        return Verdict::Uncorrectable;
    }
    Verdict::Burst {
        at: first + 1,
        pattern,
    }
}

/// The verdict on a word with this remainder, as `judge` gives it.
pub fn verdict_of(remainder: u32) -> Verdict
    ensures { Judges result remainder }
{
    if remainder == 0 {
        return Verdict::Clean;
    }
    let cycle = cycle_of(remainder);
    if cycle == 0 {
        return Verdict::Uncorrectable;
    }
    let mut window = ring_of(remainder);
    for clocks in 0..21u32 {
        if 1024 <= window && window < 2048 {
            let power = (logarithm(cycle) + 10 + 2047 - logarithm(window as u16)) % 2047;
            return burst_at(joined(clocks, u32::from(power)), window as u16);
        }
        window = window / 2 + window % 2 * 0x10_0000;
    }
    Verdict::Uncorrectable
}
