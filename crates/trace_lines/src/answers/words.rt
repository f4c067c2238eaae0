ghost use Rattle.std.specs.Prelude.{◌≡◌, ◌≤◌, ◌+◌, ◌++◌, ℕ, List, length};
ghost use Rattle.trace_replay.specs.requests.Answers.{answer_of, error_told};
ghost use Rattle.trace_lines.specs.answers.AnswerText.{answer_words, class_word, error_words};

use fire_code::NoiseClass;
use mass_text::{Radix, ShortLine, numeral_law};
use trace_replay::requests::{AnswerKind, Cause};

/// The word of a class of noise.
pub(crate) fn class_word(class: NoiseClass) -> &'static str
    ensures word { result.now ≡ class_word class }
    ensures short { length result.now ≤ 5 }
{
    match class {
        NoiseClass::Short => "short",
        NoiseClass::Shown => "shown",
        NoiseClass::Alias => "alias",
    }
}

/// Puts the word of an error, and how many blocks were done.
fn put_word(text: &mut ShortLine, cause: &str, done: u32)
    requires room { length text.old ≤ 100 }
    requires short { length cause.now ≤ 11 }
    ensures text { text.new ≡ text.old ++ error_words cause.now done }
    ensures room { length text.new ≤ length text.old + 60 }
{
    numeral_law(Radix::Decimal);
    text.put("error ");
    text.put(cause);
    text.put(" done ");
    text.put_number(u64::from(done), Radix::Decimal);
}

/// Puts an error and how many blocks were done, `done` of them. A request that was refused has done none.
fn put_error(text: &mut ShortLine, cause: Cause, done: u32)
    requires room { length text.old ≤ 100 }
    ensures text { text.new ≡ text.old ++ answer_words (error_told cause done) }
    ensures room { length text.new ≤ length text.old + 60 }
{
    match cause {
        Cause::Partition => put_word(text, "partition", 0),
        Cause::Frames => put_word(text, "frames", 0),
        Cause::Offline => put_word(text, "offline", done),
        Cause::Locked => put_word(text, "locked", done),
        Cause::Unforwarded => put_word(text, "unforwarded", done),
        Cause::Fault { .. } => put_word(text, "fault", done),
    }
}

/// Puts how a request was answered. This does not depend on the bytes that a read gives.
pub(crate) fn put_answer(text: &mut ShortLine, kind: AnswerKind)
    requires room { length text.old ≤ 100 }
    ensures text { (bytes : List ℕ) → text.new ≡ text.old ++ answer_words (answer_of bytes kind) }
    ensures room { length text.new ≤ length text.old + 60 }
{
    match kind {
        AnswerKind::ReadOk { .. } | AnswerKind::WriteOk => text.put("ok"),
        AnswerKind::Eof => text.put("eof"),
        AnswerKind::Error { cause, done } => put_error(text, cause, done),
    }
}
