// Words of a line that is put together from its end. Each function puts its words in front of what is there.
ghost use Rattle.std.specs.Prelude.{◌≡◌, ◌≤◌, ◌+◌, ◌∷◌, [], ◌++◌, length, decimal};
ghost use Rattle.mass_text.specs.Numbers.{numeral};
ghost use Rattle.mass_text.specs.declared.numbers.Radix.TheVariants.{Octal};
ghost use Rattle.trace_replay.specs.requests.Requests.{Answer};
ghost use Rattle.trace_replay.specs.Text.{offset_word, fault_word, verdict_words, transfer_word, first_word, last_words};
ghost use Rattle.trace_lines.specs.Deeds.{deed_of, in_front};

use crate::clean::put_spaced;
use crate::lines::LineText;
use crate::telling::Told;
use drive_registers::OffsetCode;
use mass_text::{LineBuf, Radix, numeral_law};
use trace_replay::{FaultKind, Moved};

/// The word of an offset.
fn offset_word(code: OffsetCode) -> &'static str
    ensures word { result.now ≡ offset_word code }
    ensures short { length result.now ≤ 7 }
{
    match code {
        OffsetCode::Plus400 => "+400",
        OffsetCode::Minus400 => "-400",
        OffsetCode::Plus800 => "+800",
        OffsetCode::Minus800 => "-800",
        OffsetCode::Plus1200 => "+1200",
        OffsetCode::Minus1200 => "-1200",
    }
}

/// The word of a fault.
fn fault_word(kind: FaultKind) -> &'static str
    ensures word { result.now ≡ fault_word kind }
    ensures short { length result.now ≤ 7 }
{
    match kind {
        FaultKind::Seek => "seek",
        FaultKind::Opi => "opi",
        FaultKind::Dte => "dte",
        FaultKind::Hcrc => "hcrc",
        FaultKind::Late => "late",
    }
}

/// The word of a transfer.
fn transfer_word(write: bool) -> &'static str
    ensures word { result.now ≡ transfer_word write }
    ensures short { length result.now ≤ 7 }
{
    if write { "wcom" } else { "rcom" }
}

/// Puts a space and a word.
#[tactic(auto, unfolding(crate::specs::Deeds::in_front))]
fn put_word(line: &mut LineText, word: &str)
    requires room { length line.old ≤ 137 }
    requires short { length word.now ≤ 7 }
    ensures text { line.new ≡ in_front (word.now ∷ []) line.old }
    ensures room { length line.new ≤ length line.old + 8 }
{
    line.put_piece(word.as_bytes());
    line.put_byte(b' ');
}

/// Puts a space and a number.
pub(crate) fn put_number(line: &mut LineText, value: u64)
    requires room { length line.old ≤ 137 }
    ensures text { line.new ≡ in_front (decimal value ∷ []) line.old }
    ensures room { length line.new ≤ length line.old + 23 }
{
    numeral_law(Radix::Decimal);
    put_spaced(line, value);
}

/// Puts a space and a pattern, which is octal.
#[tactic(auto, unfolding(crate::specs::Deeds::in_front))]
fn put_pattern(line: &mut LineText, value: u64)
    requires room { length line.old ≤ 137 }
    ensures text { line.new ≡ in_front (numeral Octal value ∷ []) line.old }
    ensures room { length line.new ≤ length line.old + 23 }
{
    numeral_law(Radix::Octal);
    let mut digits = LineBuf::new();
    digits.put_number(value, Radix::Octal);
    line.put_piece(digits.as_bytes());
    line.put_byte(b' ');
}

/// Puts two numbers.
#[tactic(auto, using(crate::proofs::WordLaws::two_words))]
fn put_pair(line: &mut LineText, first: u32, second: u32)
    requires room { length line.old ≤ 114 }
    ensures text { line.new ≡ in_front (decimal first ∷ decimal second ∷ []) line.old }
    ensures room { length line.new ≤ length line.old + 46 }
{
    put_number(line, u64::from(second));
    put_number(line, u64::from(first));
}

/// Puts two words.
#[tactic(auto, using(crate::proofs::WordLaws::two_words))]
fn put_words(line: &mut LineText, first: &str, second: &str)
    requires room { length line.old ≤ 114 }
    requires first { length first.now ≤ 7 }
    requires second { length second.now ≤ 7 }
    ensures text { line.new ≡ in_front (first.now ∷ second.now ∷ []) line.old }
    ensures room { length line.new ≤ length line.old + 16 }
{
    put_word(line, second);
    put_word(line, first);
}

/// Puts a word and a number.
#[tactic(auto, using(crate::proofs::WordLaws::two_words))]
fn put_named(line: &mut LineText, word: &str, value: u32)
    requires room { length line.old ≤ 114 }
    requires short { length word.now ≤ 7 }
    ensures text { line.new ≡ in_front (word.now ∷ decimal value ∷ []) line.old }
    ensures room { length line.new ≤ length line.old + 31 }
{
    put_number(line, u64::from(value));
    put_word(line, word);
}

/// Puts a word and two numbers.
#[tactic(auto, using(crate::proofs::WordLaws::more_words))]
fn put_named_pair(line: &mut LineText, word: &str, first: u32, second: u32)
    requires room { length line.old ≤ 80 }
    requires short { length word.now ≤ 7 }
    ensures text { line.new ≡ in_front (word.now ∷ decimal first ∷ decimal second ∷ []) line.old }
    ensures room { length line.new ≤ length line.old + 54 }
{
    put_pair(line, first, second);
    put_word(line, word);
}

/// Puts a burst: its first place and its pattern.
#[tactic(auto, using(crate::proofs::WordLaws::two_words, crate::proofs::WordLaws::more_words))]
fn put_burst(line: &mut LineText, at: u16, pattern: u16)
    requires room { length line.old ≤ 80 }
    ensures text { line.new ≡ in_front (verdict_words (Moved.Burst at pattern)) line.old }
    ensures room { length line.new ≤ length line.old + 54 }
{
    put_pattern(line, u64::from(pattern));
    put_named(line, "burst", u32::from(at));
}

/// Puts a verdict.
fn put_verdict(line: &mut LineText, verdict: Moved)
    requires room { length line.old ≤ 80 }
    ensures text { line.new ≡ in_front (verdict_words verdict) line.old }
    ensures room { length line.new ≤ length line.old + 54 }
{
    match verdict {
        Moved::Clean => put_word(line, "clean"),
        Moved::Burst { at, pattern } => put_burst(line, at, pattern),
        Moved::Hard => put_word(line, "ecc"),
        Moved::Marked => put_word(line, "mark"),
        Moved::Faulted(kind) => put_word(line, fault_word(kind)),
        Moved::Offline => put_word(line, "offline"),
    }
}

/// Puts a block and a verdict.
#[tactic(auto, using(crate::proofs::WordLaws::more_words))]
fn put_sector(line: &mut LineText, block: u32, verdict: Moved)
    requires room { length line.old ≤ 80 }
    ensures text { line.new ≡ in_front (decimal block ∷ verdict_words verdict) line.old }
    ensures room { length line.new ≤ length line.old + 77 }
{
    put_verdict(line, verdict);
    put_number(line, u64::from(block));
}

/// Puts the words that tell what a line tells. They stand behind the line's numbers.
#[tactic(auto, using(crate::proofs::WordLaws::no_words))]
pub(crate) fn put_last(line: &mut LineText, told: &Told)
    requires room { length line.old ≤ 80 }
    ensures text { (answer : Answer) → line.new ≡ in_front (last_words (deed_of answer told.now)) line.old }
    ensures room { length line.new ≤ length line.old + 77 }
{
    match *told {
        Told::Search { cylinder, sector } => put_named_pair(line, "search", cylinder, sector),
        Told::Seek { cylinder } => put_named(line, "seek", cylinder),
        Told::Recal => put_word(line, "recal"),
        Told::Offset { code } => put_words(line, "offset", offset_word(code)),
        Told::Centre => put_word(line, "rtc"),
        Told::Clear => put_word(line, "dclr"),
        Told::Pack => put_word(line, "pack"),
        Told::Transfer {
            write,
            block,
            count,
        } => { put_named_pair(line, transfer_word(write), block, count) }
        Told::Sector { block, verdict } => put_sector(line, block, verdict),
        Told::Try { block, failures } => put_pair(line, block, failures),
        Told::Arrive | Told::Intr | Told::Attn | Told::End => {}
    }
}

/// Puts the first word of a line.
pub(crate) fn put_first(line: &mut LineText, told: &Told)
    requires room { length line.old ≤ 150 }
    ensures { (answer : Answer) → line.new ≡ first_word (deed_of answer told.now) ++ line.old }
{
    match told {
        Told::Arrive => line.put_piece(b"arrive"),
        Told::Sector { .. } => line.put_piece(b"sector"),
        Told::Intr => line.put_piece(b"intr"),
        Told::Try { .. } => line.put_piece(b"try"),
        Told::Attn => line.put_piece(b"attn"),
        Told::End => line.put_piece(b"end"),
        _ => line.put_piece(b"cmd"),
    }
}
