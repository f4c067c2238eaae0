// The words of a line.
ghost use Rattle.std.specs.Prelude.{◌≡◌, ◌≤◌, ◌==◌, ◌∷◌, [], ℕ, position, IfOk, MatchOption, MatchResult};
ghost use Rattle.trace_reader.specs.declared.fault.TraceKind.{TraceKind};
ghost use Rattle.trace_reader.specs.Taken.{Takes};
ghost use Rattle.trace_reader.specs.Reading.{words_of, words_left, number_in, decimal_in, verb_in, command_in, code_in, plain_verdict_in};

use crate::fault::TraceKind;
use crate::verbs::{Command, Verb};
use drive_registers::OffsetCode;
use hardware_table::Moved;
use mass_text::{Radix, number};
use script_lines::{fault_in, is_word, offset_in};
use std::marker::Model;

/// The words of a line, one after another. Single blanks separate them.
#[derive(Drop)]
pub(crate) struct Words<'a> {
    rest: &'a [u8],
    more: bool,
}

impl<'a> Model for Words<'a> {
    ghost use Rattle.std.specs.Prelude.{ℕ, List};

    ghost Value = { List (List ℕ) };

    ghost use Rattle.trace_reader.specs.Reading.{words_left};

    ghost view = { λ words. words_left words.more words.rest.now };
}

fn first_blank(text: &[u8]) -> Option<usize>
    ensures { result ≡ position (λ b. b == 32) text.now }
{
    text.iter().position(|byte| *byte == b' ')
}

/// The first word of a text, what comes after the blank that ends the word, and whether there is such a blank.
fn cut(text: &[u8]) -> (&[u8], &[u8], bool)
    ensures { words_of text.now ≡ result.0.now ∷ words_left result.2 result.1.now }
{
    match first_blank(text) {
        Some(at) => (&text[..at], &text[at + 1..], true),
        None => (text, &[], false),
    }
}

impl<'a> Words<'a> {
    /// The words of a line.
    pub(crate) fn new(line: &'a [u8]) -> Words<'a>
        ensures { result ≡ words_of line.now }
    {
        Words {
            rest: line,
            more: true,
        }
    }

    /// The next word; `None` exactly if no word is left.
    pub(crate) fn next(&mut self) -> Option<&'a [u8]>
        ensures { MatchOption result ((self.old ≡ []) × (self.new ≡ [])) (λ word. self.old ≡ word.now ∷ self.new) }
    {
        if !self.more {
            return None;
        }
        let (word, rest, more) = cut(self.rest);
        self.rest = rest;
        self.more = more;
        Some(word)
    }

    /// The next word, which may not be missing.
    pub(crate) fn need(&mut self) -> Result<&'a [u8], TraceKind>
        ensures { MatchResult result (λ word. self.old ≡ word.now ∷ self.new) (λ kind. (self.old ≡ []) × (kind ≡ TraceKind.Word)) }
    {
        self.next().ok_or(TraceKind::Word)
    }

    /// The next word as a decimal number from `low` to `high`.
    #[tactic(auto, using(crate::proofs::TakenLaws::one_taken))]
    pub(crate) fn decimal(&mut self, low: u32, high: u32) -> Result<u32, TraceKind>
        ensures value { Takes (decimal_in low high) self.old result self.new }
        ensures bound { IfOk result (λ n. n ≤ high) }
    {
        match self.next() {
            Some(word) => decimal(word, low, high),
            None => Err(TraceKind::Word),
        }
    }

    /// The next word as the pattern of a burst.
    #[tactic(auto, using(crate::proofs::TakenLaws::one_taken))]
    pub(crate) fn pattern(&mut self) -> Result<u16, TraceKind>
        ensures { Takes (number_in Radix.Octal 1 2047) self.old result self.new }
    {
        match self.next() {
            Some(word) => pattern(word),
            None => Err(TraceKind::Word),
        }
    }

    /// The next word as an offset of the heads.
    #[tactic(auto, using(crate::proofs::TakenLaws::one_taken))]
    pub(crate) fn offset_code(&mut self) -> Result<OffsetCode, TraceKind>
        ensures { Takes code_in self.old result self.new }
    {
        match self.next() {
            Some(word) => offset_code(word),
            None => Err(TraceKind::Word),
        }
    }

    /// The next word as a command.
    #[tactic(auto, using(crate::proofs::TakenLaws::one_taken))]
    pub(crate) fn command(&mut self) -> Result<Command, TraceKind>
        ensures { Takes command_in self.old result self.new }
    {
        match self.next() {
            Some(word) => command(word),
            None => Err(TraceKind::Word),
        }
    }
}

/// A number from `low` to `high`, without a leading zero.
#[tactic(auto, unfolding(crate::specs::Reading::number_in))]
fn number_in(word: &[u8], radix: Radix, low: u64, high: u64) -> Result<u64, TraceKind>
    ensures value { result ≡ number_in radix low high word.now }
    ensures bound { IfOk result (λ n. n ≤ high) }
{
    if word.len() > 1 && word[0] == b'0' {
        return Err(TraceKind::Word);
    }
    let n = number(word, radix, high).map_err(|_| TraceKind::Word)?;
    if n < low { Err(TraceKind::Word) } else { Ok(n) }
}

/// A decimal number from `low` to `high`.
fn decimal(word: &[u8], low: u32, high: u32) -> Result<u32, TraceKind>
    ensures value { result ≡ decimal_in low high word.now }
    ensures bound { IfOk result (λ n. n ≤ high) }
{
    let n = number_in(word, Radix::Decimal, u64::from(low), u64::from(high))?;
    Ok(n as u32)
}

/// The pattern of a burst, in octal.
fn pattern(word: &[u8]) -> Result<u16, TraceKind>
    ensures { result ≡ number_in Radix.Octal 1 2047 word.now }
{
    let n = number_in(word, Radix::Octal, 1, 2047)?;
    Ok(n as u16)
}

/// The word at the front of a line of a unit.
#[tactic(auto, unfolding(crate::specs::Reading::verb_in))]
pub(crate) fn verb(word: &[u8]) -> Result<Verb, TraceKind>
    ensures { result ≡ verb_in word.now }
{
    if is_word(word, b"cmd".as_slice()) {
        Ok(Verb::Cmd)
    } else if is_word(word, b"arrive".as_slice()) {
        Ok(Verb::Arrive)
    } else if is_word(word, b"sector".as_slice()) {
        Ok(Verb::Sector)
    } else if is_word(word, b"intr".as_slice()) {
        Ok(Verb::Intr)
    } else if is_word(word, b"try".as_slice()) {
        Ok(Verb::Try)
    } else if is_word(word, b"attn".as_slice()) {
        Ok(Verb::Attn)
    } else if is_word(word, b"end".as_slice()) {
        Ok(Verb::End)
    } else {
        Err(TraceKind::Word)
    }
}

/// A command's word.
#[tactic(auto, unfolding(crate::specs::Reading::command_in))]
fn command(word: &[u8]) -> Result<Command, TraceKind>
    ensures { result ≡ command_in word.now }
{
    if is_word(word, b"search".as_slice()) {
        Ok(Command::Search)
    } else if is_word(word, b"seek".as_slice()) {
        Ok(Command::Seek)
    } else if is_word(word, b"recal".as_slice()) {
        Ok(Command::Recal)
    } else if is_word(word, b"offset".as_slice()) {
        Ok(Command::Offset)
    } else if is_word(word, b"rtc".as_slice()) {
        Ok(Command::Centre)
    } else if is_word(word, b"dclr".as_slice()) {
        Ok(Command::Clear)
    } else if is_word(word, b"pack".as_slice()) {
        Ok(Command::Pack)
    } else if is_word(word, b"wcom".as_slice()) {
        Ok(Command::Write)
    } else if is_word(word, b"rcom".as_slice()) {
        Ok(Command::Read)
    } else {
        Err(TraceKind::Word)
    }
}

/// An offset of the heads.
#[tactic(auto, unfolding(crate::specs::Reading::code_in))]
fn offset_code(word: &[u8]) -> Result<OffsetCode, TraceKind>
    ensures { result ≡ code_in word.now }
{
    offset_in(word).ok_or(TraceKind::Word)
}

/// A verdict of one word.
#[tactic(auto, unfolding(crate::specs::Reading::plain_verdict_in))]
pub(crate) fn plain_verdict(word: &[u8]) -> Result<Moved, TraceKind>
    ensures { result ≡ plain_verdict_in word.now }
{
    if is_word(word, b"clean".as_slice()) {
        Ok(Moved::Clean)
    } else if is_word(word, b"ecc".as_slice()) {
        Ok(Moved::Hard)
    } else if is_word(word, b"mark".as_slice()) {
        Ok(Moved::Marked)
    } else if let Some(fault) = fault_in(word) {
        Ok(Moved::Faulted(fault))
    } else if is_word(word, b"offline".as_slice()) {
        Ok(Moved::Offline)
    } else {
        Err(TraceKind::Word)
    }
}
