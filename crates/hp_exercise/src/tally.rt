ghost use Rattle.std.specs.Prelude.{◌≡◌, ◌≤◌, ◌+◌, ◌++◌, decimal, length};
ghost use Rattle.hp_exercise.specs.ExerciseText.{exercise_text};

use mass_text::{LineBuf, Radix, numeral_law};
use trace_lines::answers::Tally;

/// Puts words and a count.
fn put_count(text: &mut LineBuf, words: &str, count: u64)
    requires few { length text.old ≤ 900 }
    requires short { length words.now ≤ 16 }
    ensures text { text.new ≡ text.old ++ words.now ++ decimal count }
    ensures room { length text.new ≤ length text.old + 38 }
{
    numeral_law(Radix::Decimal);
    text.put(words);
    text.put_number(count, Radix::Decimal);
}

/// The four lines of an exercise: its number, and the tally.
#[tactic(auto, unfolding(crate::specs::ExerciseText::exercise_text))]
pub fn exercise_lines(number: u64, tally: Tally) -> LineBuf
    ensures { result ≡ exercise_text number tally }
{
    let mut text = LineBuf::new();
    put_count(&mut text, "exercise ", number);
    put_count(&mut text, "\nrequests ", tally.requests);
    put_count(&mut text, "\nanswers ", tally.answers);
    put_count(&mut text, " ok ", tally.ok);
    put_count(&mut text, "\ntext ", tally.text);
    put_count(&mut text, " sum ", u64::from(tally.sum));
    text.put("\n");
    text
}
