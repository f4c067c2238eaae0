// The entries of the book of noise, in the order of their sectors.
ghost use Rattle.std.specs.Prelude.{◌≡◌, ◌≤◌, ◌<◌, ◌+◌, ◌^◌, Some, slice_get, length, MatchOption, IfSome, ℕ, List, All, option_map, vec_len, vec_capacity, true, false, not, nat_lt};
ghost use Rattle.std.specs.List.Sorted.{IsPartitionPoint};
ghost use Rattle.hardware_table.specs.Noise.{sector_number, is_ended_by, span_left, is_spent, flips, oldest, after_strike};
ghost use Rattle.live_noise.specs.declared.entries.Entry.{Entry};
ghost use Rattle.live_noise.specs.Book.{noise_of, live_of, number_of, is_entry_at, is_entry_behind, AreInOrder, IsFirst, IsNowhere, with_entry, with_used};

use drive_registers::{OFFSET_CODE, offset_word};
use hardware_table::{Noise, NoiseSpan};

/// An entry of live noise: how long the noise stays live, where it strikes, and the number of its places in the list of all.
#[derive(Clone, Copy)]
pub struct Entry {
    pub span: NoiseSpan,
    pub block: u32,
    pub slot: u32,
    pub unit: u8,
}

// The number of a sector. The entries stand in the order of these numbers.
fn number_at(unit: u8, block: u32) -> u64
    ensures { result ≡ sector_number unit block }
{
    u64::from(unit) * 0x1_0000_0000 + u64::from(block)
}

// Whether a read with this word in the offset register ends noise.
fn is_ended_by(span: NoiseSpan, word: u16) -> bool
    ensures { result ≡ is_ended_by word span }
{
    match span {
        NoiseSpan::Times(_) => false,
        NoiseSpan::Until(code) => offset_word(code) == word & OFFSET_CODE,
    }
}

// How long noise stays live after such a read has used it.
fn span_left(span: NoiseSpan, word: u16) -> Option<NoiseSpan>
    ensures { result ≡ span_left word span }
{
    match span {
        NoiseSpan::Times(times) => {
            if times <= 1 {
                None
            } else {
                Some(NoiseSpan::Times(times - 1))
            }
        }
        NoiseSpan::Until(_) => {
            if is_ended_by(span, word) {
                None
            } else {
                Some(span)
            }
        }
    }
}

// Whether noise is to strike no more.
pub fn is_spent(span: NoiseSpan) -> bool
    ensures { result ≡ is_spent span }
{
    match span {
        NoiseSpan::Times(times) => times == 0,
        NoiseSpan::Until(_) => false,
    }
}

impl Entry {
    fn number(&self) -> u64
        ensures { result ≡ number_of self.now }
    {
        number_at(self.unit, self.block)
    }

    fn is_below(&self, number: u64) -> bool
        ensures { result ≡ nat_lt (number_of self.now) number }
    {
        self.number() < number
    }

    fn is_not_behind(&self, number: u64) -> bool
        ensures { result ≡ not (is_entry_behind number self.now) }
    {
        !(number < self.number())
    }

    fn is_at(&self, unit: u8, block: u32) -> bool
        ensures { result ≡ is_entry_at unit block self.now }
    {
        self.unit == unit && self.block == block
    }
}

// How many entries belong to sectors below this one.
fn count_below(entries: &[Entry], number: u64) -> usize
    requires { AreInOrder entries.now }
    ensures bound { result ≤ length entries.now }
    ensures point { IsPartitionPoint (λ (e : Entry). nat_lt (number_of e) number ≡ true)
        (λ e. nat_lt (number_of e) number ≡ false) entries.now result }
{
    entries.partition_point(|entry| entry.is_below(number))
}

// How many entries belong to this sector or to sectors below it.
fn count_not_behind(entries: &[Entry], number: u64) -> usize
    requires { AreInOrder entries.now }
    ensures bound { result ≤ length entries.now }
    ensures point { IsPartitionPoint (λ (e : Entry). not (is_entry_behind number e) ≡ true)
        (λ e. not (is_entry_behind number e) ≡ false) entries.now result }
{
    entries.partition_point(|entry| entry.is_not_behind(number))
}

// The index of the first entry of a sector.
fn first_at(entries: &[Entry], unit: u8, block: u32) -> Option<usize>
    requires { AreInOrder entries.now }
    ensures { MatchOption result (IsNowhere (is_entry_at unit block) entries.now)
        (λ i. IsFirst (is_entry_at unit block) entries.now i) }
{
    let i = count_below(entries, number_at(unit, block));
    if i == entries.len() {
        return None;
    }
    if !entries[i].is_at(unit, block) {
        return None;
    }
    Some(i)
}

// Puts an entry behind all other entries of its sector.
pub fn put(entries: &mut Vec<Entry>, entry: Entry)
    requires order { AreInOrder entries.old.items }
    requires block { entry.block < 2 ^ 32 }
    requires room { vec_len entries.old < vec_capacity entries.old }
    ensures items { entries.new.items ≡ with_entry entry entries.old.items }
    ensures order { AreInOrder entries.new.items }
    ensures len { vec_len entries.new ≡ vec_len entries.old + 1 }
    ensures capacity { vec_capacity entries.old ≤ vec_capacity entries.new }
{
    let i = count_not_behind(entries.as_slice(), entry.number());
    // The room is reserved, so this cannot fail.
    let _ = entries.insert(i, entry);
}

// Uses an entry in a read with this word in the offset register.
fn use_at(entries: &mut Vec<Entry>, i: usize, word: u16) -> Entry
    requires order { AreInOrder entries.old.items }
    requires inside { i < vec_len entries.old }
    ensures entry { slice_get entries.old.items i ≡ Some result }
    ensures items { entries.new.items ≡ with_used word i result entries.old.items }
    ensures order { AreInOrder entries.new.items }
    ensures len { vec_len entries.new ≤ vec_len entries.old }
    ensures capacity { vec_capacity entries.old ≤ vec_capacity entries.new }
{
    let entry = entries[i];
    match span_left(entry.span, word) {
        None => {
            let _ = entries.remove(i);
        }
        Some(span) => {
            entries[i] = Entry { span, ..entry };
        }
    }
    entry
}

// Strikes a read of a sector with this word in the offset register: the read uses the oldest noise of the sector. Gives
// the entry of that noise as it was.
pub(crate) fn strike(entries: &mut Vec<Entry>, unit: u8, block: u32, word: u16) -> Option<Entry>
    requires { AreInOrder entries.old.items }
    ensures oldest { (noises : List (List ℕ))
        → oldest unit block (live_of noises entries.old.items) ≡ option_map (noise_of noises) result }
    ensures after { (noises : List (List ℕ))
        → after_strike unit block word (live_of noises entries.old.items) ≡ live_of noises entries.new.items }
    ensures order { AreInOrder entries.new.items }
    ensures slot { (n : ℕ) → All (λ (e : Entry). e.slot < n) entries.old.items → IfSome result (λ e. e.slot < n) }
    ensures slots { (n : ℕ) → All (λ (e : Entry). e.slot < n) entries.old.items
        → All (λ (e : Entry). e.slot < n) entries.new.items }
    ensures len { vec_len entries.new ≤ vec_len entries.old }
    ensures capacity { vec_capacity entries.old ≤ vec_capacity entries.new }
{
    let i = first_at(entries.as_slice(), unit, block)?;
    Some(use_at(entries, i, word))
}

// The noise of an entry in a read with this word in the offset register. None if that word ends the noise.
pub(crate) fn noise_in(noises: &[Noise], entry: Entry, word: u16) -> Option<Noise>
    requires { entry.slot < length noises.now }
    ensures { result ≡ flips word (Some (noise_of noises.now entry)) }
{
    if is_ended_by(entry.span, word) {
        return None;
    }
    Some(noises[entry.slot as usize].copy())
}
