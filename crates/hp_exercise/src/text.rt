ghost use Rattle.std.specs.Prelude.{◌≡◌, ◌<◌, ◌≤◌, ◌+◌, ◌/◌, ◌++◌, length, codes};
ghost use Rattle.hp_exercise.specs.Exercise.{unit_of, block_of, count_of, field, fault_text, noise_text, write_text, read_text, arrive_text, move_text, attend_text, chosen_text, step_text};

use crate::draw::{block, choice, count, offset, place, seq, times, unit};
use mass_text::{LineBuf, Radix, numeral_law};

/// Puts a space and a number.
#[tactic(auto, unfolding(crate::specs::Exercise::field))]
fn put_field(text: &mut LineBuf, value: u64)
    requires { length text.old ≤ 1000 }
    ensures text { text.new ≡ text.old ++ field value }
    ensures room { length text.new ≤ length text.old + 23 }
{
    numeral_law(Radix::Decimal);
    text.put(" ");
    text.put_number(value, Radix::Decimal);
}

/// `fault U opi T`
#[tactic(auto, unfolding(crate::specs::Exercise::fault_text))]
fn fault_line(word: u64) -> LineBuf
    ensures { result ≡ fault_text word }
{
    let mut text = LineBuf::new();
    text.put("fault");
    put_field(&mut text, unit(word));
    text.put(" opi");
    put_field(&mut text, times(word));
    text.put("\n");
    text
}

/// `drain`
fn drain_line() -> LineBuf
    ensures { result ≡ codes "drain\n" }
{
    let mut text = LineBuf::new();
    text.put("drain\n");
    text
}

/// `noise U B 1 P Q`
#[tactic(auto, unfolding(crate::specs::Exercise::noise_text))]
fn noise_line(word: u64) -> LineBuf
    ensures { result ≡ noise_text word }
{
    let place = place(word);
    let mut text = LineBuf::new();
    text.put("noise");
    put_field(&mut text, unit(word));
    put_field(&mut text, block(word));
    text.put(" 1");
    put_field(&mut text, place);
    put_field(&mut text, place + 7);
    text.put("\n");
    text
}

/// Puts what requests begin with: ` S U a B C`
fn put_request(text: &mut LineBuf, step: u32, word: u64)
    requires { length text.old ≤ 800 }
    ensures text { text.new ≡ text.old ++ field step ++ field (unit_of word) ++ codes " a" ++ field (block_of word) ++ field (count_of word) }
    ensures room { length text.new ≤ length text.old + 94 }
{
    put_field(text, u64::from(step));
    put_field(text, unit(word));
    text.put(" a");
    put_field(text, block(word));
    put_field(text, count(word));
}

/// `write S U a B C seq V off O`
#[tactic(auto, unfolding(crate::specs::Exercise::write_text))]
fn write_line(step: u32, word: u64) -> LineBuf
    ensures { result ≡ write_text step word }
{
    let mut text = LineBuf::new();
    text.put("write");
    put_request(&mut text, step, word);
    text.put(" seq");
    put_field(&mut text, seq(word));
    text.put(" off");
    put_field(&mut text, offset(word));
    text.put("\n");
    text
}

/// `read S U a B C off O`
#[tactic(auto, unfolding(crate::specs::Exercise::read_text))]
fn read_line(step: u32, word: u64) -> LineBuf
    ensures { result ≡ read_text step word }
{
    let mut text = LineBuf::new();
    text.put("read");
    put_request(&mut text, step, word);
    text.put(" off");
    put_field(&mut text, offset(word));
    text.put("\n");
    text
}

/// `arrive U`
#[tactic(auto, unfolding(crate::specs::Exercise::arrive_text))]
fn arrive_line(word: u64) -> LineBuf
    ensures { result ≡ arrive_text word }
{
    let mut text = LineBuf::new();
    text.put("arrive");
    put_field(&mut text, unit(word));
    text.put("\n");
    text
}

/// `move A`
#[tactic(auto, unfolding(crate::specs::Exercise::move_text))]
fn move_line(word: u64) -> LineBuf
    ensures { result ≡ move_text word }
{
    let mut text = LineBuf::new();
    text.put("move");
    put_field(&mut text, unit(word) / 8);
    text.put("\n");
    text
}

/// `attend A`
#[tactic(auto, unfolding(crate::specs::Exercise::attend_text))]
fn attend_line(word: u64) -> LineBuf
    ensures { result ≡ attend_text word }
{
    let mut text = LineBuf::new();
    text.put("attend");
    put_field(&mut text, unit(word) / 8);
    text.put("\n");
    text
}

/// The line that a word chooses.
fn chosen_line(step: u32, word: u64) -> LineBuf
    ensures { result ≡ chosen_text step word }
{
    let choice = choice(word);
    if choice < 3 {
        write_line(step, word)
    } else if choice < 5 {
        read_line(step, word)
    } else if choice == 5 {
        arrive_line(word)
    } else if choice == 6 {
        move_line(word)
    } else {
        attend_line(word)
    }
}

/// The line of a step.
#[tactic(auto, unfolding(crate::specs::Exercise::step_text))]
pub fn line(step: u32, word: u64) -> LineBuf
    ensures { result ≡ step_text step word }
{
    if step % 256 == 254 {
        fault_line(word)
    } else if step % 128 == 125 {
        drain_line()
    } else if step % 64 == 63 {
        noise_line(word)
    } else {
        chosen_line(step, word)
    }
}
