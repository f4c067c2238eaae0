ghost use Rattle.std.specs.Prelude.{◌≡◌, ◌<◌, ◌≤◌, ℕ, ◌^◌, IfOk, SomeIff, length, slice_index};
ghost use Rattle.std.specs.Char.{digit_value, is_digit};
ghost use Rattle.std.specs.Str.Parse.{digits_value};
ghost use Rattle.mass_text.specs.Numbers.{base_of, number_of, numeral, first_other};

use thiserror::Error;

/// The base in which a number is written.
#[derive(Clone, Copy)]
pub enum Radix {
    Octal,
    Decimal,
    Hex,
}

/// Why a text is no number: it is empty, the byte at a place (counted from 0) is no digit, or the number exceeds its
/// bound.
#[derive(Debug, Drop, PartialEq, Eq, Error)]
pub enum NumberFault {
    #[error("no digit")]
    Empty,
    #[error("no digit at {0}")]
    Digit(usize),
    #[error("too large")]
    Large,
}

/// The base of a radix: 8, 10 or 16.
pub(crate) fn base(radix: Radix) -> u32
    ensures { result ≡ base_of radix }
{
    match radix {
        Radix::Octal => 8,
        Radix::Decimal => 10,
        Radix::Hex => 16,
    }
}

fn digit(byte: u8, radix: Radix) -> u32
    requires { digit_value byte < base_of radix }
    ensures { result ≡ digit_value byte }
{
    char::from(byte).to_digit(base(radix)).unwrap()
}

fn is_digit(byte: u8, radix: Radix) -> bool
    ensures { result ≡ is_digit byte (base_of radix) }
{
    char::from(byte).is_digit(base(radix))
}

/// The first place whose byte is no digit. None if all bytes are digits.
fn first_other(text: &[u8], radix: Radix) -> Option<usize>
    ensures { result ≡ first_other radix text.now }
{
    text.iter().position(|byte| !is_digit(*byte, radix))
}

/// The number that digits write, if it is at most a bound.
fn value_of(digits: &[u8], radix: Radix, max: u64) -> Option<u64>
    requires { (i : ℕ) → i < length digits.now → digit_value (slice_index digits.now i) < base_of radix }
    ensures { let value = digits_value (base_of radix) digits.now in SomeIff result (value ≤ max) value }
{
    let mut value = 0;
    for byte in digits {
        let digit = digit(*byte, radix);
        let next = u128::from(value) * u128::from(base(radix)) + u128::from(digit);
        if next > u128::from(max) {
            return None;
        }
        value = next as u64;
    }
    Some(value)
}

/// The number that a text writes in a radix, up to a bound `max`. The errors are, in this order: Empty exactly if the
/// text has no byte; Digit with the first place whose byte is no digit; Large exactly if the number exceeds the bound. A
/// number has no sign, and its hexadecimal digits are of either case.
pub fn number(text: &[u8], radix: Radix, max: u64) -> Result<u64, NumberFault>
    ensures value { result ≡ number_of radix max text.now }
    ensures bound { IfOk result (λ n. n ≤ max) }
{
    if text.is_empty() {
        return Err(NumberFault::Empty);
    }
    match first_other(text, radix) {
        Some(at) => Err(NumberFault::Digit(at)),
        None => value_of(text, radix, max).ok_or(NumberFault::Large),
    }
}

/// The law of numbers as text: a number that is written is read again, and a number of 64 bits has at most 22 digits.
pub fn numeral_law(radix: Radix)
    ensures read { (n max : ℕ) → n < 2 ^ 64 → n ≤ max → number_of radix max (numeral radix n) ≡ Ok n }
    ensures room { (n : ℕ) → n < 2 ^ 64 → length (numeral radix n) ≤ 22 }
{}
