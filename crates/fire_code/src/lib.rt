//! The Fire code of a sector: the check of a sector, the remainder of its word, and the burst that a remainder tells.
//!
//! A sector's word has 4,128 places: first its 512 bytes, each from its least significant bit on, and then the 32 bits of
//! the check, from the most significant bit on. Place k is the coefficient of x^(4127-k). A word is right if its
//! polynomial is a multiple of x^32 + x^23 + x^21 + x^11 + x^2 + 1 = (x^21 + 1)(x^11 + x^2 + 1). As on the real drives,
//! the Fire code corrects one burst of at most 11 bits in a sector; this generator and this order of the bits are the project's own choice.
//!
//! What is proved: `encode` gives the one check that makes a word right; `syndrome` is the word's remainder, a sum over
//! places; `judge` is exact for every data and check, and names exactly the burst that was applied to a right word;
//! `class_of`, `apply` and `Noise::new` are exact; `judge_noise` is the verdict on any right word with these places
//! flipped. `burst_law`: no short burst has remainder zero, and two different short bursts have different remainders.
//! Functions over the three tables prove them equal to the definition (`tables`, `logarithms`); the plain program has the same contracts.
//!
//! Only tested, in `drive_rows`: worked checks and verdicts.
#![tactic(auto)]

ghost use Rattle.std.specs.Prelude.{◌≡◌, ◌≢◌, ◌<◌, ◌^◌, ◌*◌, ◌+◌, ◌-◌, ◌%◌, ◌==◌, ℕ, List, cond, ◌↔◌, IsTrue, All, SomeIff, bit_xor};
ghost use Rattle.fire_code.specs.Remainder.{remainder as the_remainder};
ghost use Rattle.fire_code.specs.Burst.{IsShortBurst, IsBurst, IsUncorrectable};
ghost use Rattle.fire_code.specs.Verdict.{Judges, Names};
ghost use Rattle.fire_code.specs.Word.{IsData, bit_of_word, word_remainder};
ghost use Rattle.fire_code.specs.Noise.{IsNoise, IsAlias, IsFlipped, Classes};

pub mod by_residues;
pub mod logarithms;
mod pattern;
pub mod plain;
pub mod tables;

use crate::tables::{eight_steps, power};
use arrayvec::ArrayVec;
use std::marker::Model;

/// A sector's 32 check bits: bit e is the coefficient of x^e.
#[derive(Clone, Copy, PartialEq, Eq)]
pub struct Check(pub u32);

/// What the remainder of a word tells.
#[derive(Clone, Copy, PartialEq, Eq)]
pub enum Verdict {
    /// The word is right.
    Clean,
    /// One short burst has the remainder. It is written as the drives' registers tell it: `at`, from 1 to 4128, is its
    /// first place, counted from 1. `pattern` has 11 bits, of which bit 0 is set; bit j stands for place `at - 1 + j`, counted from 0.
    Burst { at: u16, pattern: u16 },
    /// The word is wrong, and no short burst has the remainder.
    Uncorrectable,
}

/// What happens if noise strikes a right word.
#[derive(Clone, Copy, PartialEq, Eq)]
pub enum NoiseClass {
    /// The noise's places lie within 11 successive ones: its remainder tells the burst, and the burst can be repaired.
    Short,
    /// The remainder is not zero, and no short burst has it: the word is known to be wrong.
    Shown,
    /// Neither: the word looks like a right one, or like one with another burst.
    Alias,
}

// The remainder of the word of these bytes and the check 0: one byte for each step.
fn data_remainder(bytes: &[u8; 512]) -> u32
    ensures { result ≡ word_remainder bytes.now 0 }
{
    let mut state: u32 = 0;
    for byte in bytes {
        let high = (state >> 24) as u8 ^ byte.reverse_bits();
        state = (state << 8) ^ eight_steps(high);
    }
    state
}

/// The one check that makes the word right.
pub fn encode(bytes: &[u8; 512]) -> Check
    ensures right { word_remainder bytes.now result.0 ≡ 0 }
    ensures only { (check : ℕ) → check < 2 ^ 32 → word_remainder bytes.now check ≡ 0 → check ≡ result.0 }
{
    Check(data_remainder(bytes))
}

/// The word's remainder modulo the generator: 0 exactly if the word is right.
pub fn syndrome(bytes: &[u8; 512], check: Check) -> u32
    ensures { result ≡ word_remainder bytes.now check.0 }
{
    data_remainder(bytes) ^ check.0
}

/// What the remainder of the word tells, exactly, for every word.
pub fn judge(bytes: &[u8; 512], check: Check) -> Verdict
    ensures verdict { Judges result (word_remainder bytes.now check.0) }

    // Each verdict is given exactly if it holds.
    ensures clean { (result ≡ Verdict.Clean) ↔ (word_remainder bytes.now check.0 ≡ 0) }
    ensures burst { (at pattern : ℕ)
        → (result ≡ Verdict.Burst at pattern) ↔ IsBurst at pattern (word_remainder bytes.now check.0) }
    ensures uncorrectable { (result ≡ Verdict.Uncorrectable)
        ↔ IsUncorrectable (word_remainder bytes.now check.0) }

    // If a short burst is applied to a right word, the verdict is exactly that burst.
    ensures named { (places old : List ℕ) (c : ℕ) → word_remainder old c ≡ 0 → IsShortBurst places
        → IsFlipped places old c bytes.now check.0 → Names result places }
{
    by_residues::verdict_of(syndrome(bytes, check))
}

// The remainder of these places.
fn remainder_of(places: &[u16]) -> u32
    requires { All (λ k. k < 4128) places.now }
    ensures { result ≡ the_remainder places.now }
{
    let mut sum: u32 = 0;
    for place in places {
        sum ^= power(4127 - *place);
    }
    sum
}

// Whether these are 1 to 64 places of the word in ascending order.
fn is_noise(places: &[u16]) -> bool
    ensures { IsTrue result ↔ IsNoise places.now }
{
    if places.is_empty() || places.len() > 64 {
        return false;
    }
    let mut next = 0;
    for place in places {
        if *place < next || *place > 4127 {
            return false;
        }
        next = *place + 1;
    }
    true
}

/// From 1 to 64 places of a word, each from 0 to 4127 and in ascending order, that are flipped when the word is read.
#[derive(Drop)]
pub struct Noise {
    places: ArrayVec<u16, 64>,
}

impl Model for Noise {
    ghost Value = { List ℕ };

    ghost view = { λ n. n.places.items };

    ghost invariant = { λ n. IsNoise n.places.items };
}

impl Noise {
    // The noise of places that are known to be valid.
    fn of(places: &[u16]) -> Noise
        requires { IsNoise places.now }
        ensures { result ≡ places.now }
    {
        let mut kept = ArrayVec::new();
        kept.try_extend_from_slice(places).unwrap();
        Noise { places: kept }
    }

    /// The noise of these places. None exactly if the list is empty, has more than 64 places, is not strictly ascending,
    /// or has a place above 4127.
    pub fn new(places: &[u16]) -> Option<Noise>
        ensures { SomeIff result (IsNoise places.now) places.now }
    {
        if is_noise(places) {
            Some(Noise::of(places))
        } else {
            None
        }
    }

    /// A copy of the noise.
    pub fn copy(&self) -> Noise
        ensures { result ≡ self.now }
    {
        Noise::of(self.places())
    }

    /// The places of the noise, in ascending order.
    pub fn places(&self) -> &[u16]
        ensures value { result.now ≡ self.now }
        ensures noise { IsNoise self.now }
    {
        self.places.as_slice()
    }
}

// The class of these places: their ends decide it, or what their remainder tells.
fn class_by(places: &[u16]) -> NoiseClass
    requires { IsNoise places.now }
    ensures { Classes result places.now }
{
    if places[places.len() - 1] - places[0] <= 10 {
        return NoiseClass::Short;
    }
    match by_residues::verdict_of(remainder_of(places)) {
        Verdict::Uncorrectable => NoiseClass::Shown,
        _ => NoiseClass::Alias,
    }
}

/// The class of the noise.
pub fn class_of(noise: &Noise) -> NoiseClass
    ensures class { Classes result noise.now }

    // Each class is given exactly if it holds.
    ensures short { (result ≡ NoiseClass.Short) ↔ IsShortBurst noise.now }
    ensures shown { (result ≡ NoiseClass.Shown) ↔ IsUncorrectable (the_remainder noise.now) }
    ensures alias { (result ≡ NoiseClass.Alias) ↔ IsAlias noise.now }
{
    class_by(noise.places())
}

// Flips one place of the word, and gives the check afterwards.
fn flip(place: u16, bytes: &mut [u8; 512], check: u32) -> u32
    requires { place < 4128 }
    ensures { (k : ℕ) → k < 4128 → bit_of_word bytes.new result k
        ≡ cond (place == k) (1 - bit_of_word bytes.old check k) (bit_of_word bytes.old check k) }
{
    if place < 4096 {
        bytes[usize::from(place / 8)] ^= 1 << (place % 8);
        check
    } else {
        check ^ (1 << (4127 - place))
    }
}

/// Flips the places of the noise in a word, and no others: those of the data in `bytes`, and those of the check in the
/// result.
pub fn apply(noise: &Noise, bytes: &mut [u8; 512], check: Check) -> Check
    ensures flips { IsFlipped noise.now bytes.old check.0 bytes.new result.0 }
    ensures remainder { word_remainder bytes.new result.0
        ≡ bit_xor (the_remainder noise.now) (word_remainder bytes.old check.0) }
{
    let mut value = check.0;
    for place in noise.places() {
        value = flip(*place, bytes, value);
    }
    Check(value)
}

/// The verdict that `judge` gives on any right word with the noise's places flipped. It depends on these places alone.
pub fn judge_noise(noise: &Noise) -> Verdict
    ensures remainder { Judges result (the_remainder noise.now) }
    ensures word { (old new : List ℕ) (c d : ℕ) → word_remainder old c ≡ 0 → IsFlipped noise.now old c new d
        → Judges result (word_remainder new d) }
{
    by_residues::verdict_of(remainder_of(noise.places()))
}

/// The bytes of an array are the data of a sector.
pub fn data_law(bytes: &[u8; 512])
    ensures { IsData bytes.now }
{
    let _slice = bytes.as_slice();
}

/// The burst law: no short burst has the remainder zero, and two different short bursts have different remainders.
pub fn burst_law()
    ensures not_zero { (places : List ℕ) → IsShortBurst places → the_remainder places ≢ 0 }
    ensures apart { (places others : List ℕ) → IsShortBurst places → IsShortBurst others
        → the_remainder places ≡ the_remainder others → places ≡ others }
{}
