ghost use Rattle.std.specs.Prelude.{◌≡◌, ◌≤◌, ℕ, List, length};
ghost use Rattle.fire_code.specs.Noise.{IsNoise, Classes};
ghost use Rattle.hardware_table.specs.Noise.{LiveNoise};
ghost use Rattle.trace_replay.specs.Script.{Noise};
ghost use Rattle.trace_replay.specs.Moments.{Played};
ghost use Rattle.trace_lines.specs.answers.AnswerText.{answer_line, block_text, noise_text, said_text};
ghost use Rattle.trace_replay.specs.requests.Answers.{answer_of};

use crate::answers::words::{class_word, put_answer};
use fire_code::NoiseClass;
use mass_text::{LineBuf, Radix, ShortLine, content_law, numeral_law};
use trace_replay::requests::AnswerKind;

/// The line of the answer to the request with this id. The answer came at line `line` of the script.
pub fn answer_line(line: u64, id: u32, kind: AnswerKind) -> ShortLine
    ensures { (bytes : List ℕ) → result ≡ answer_line line id (answer_of bytes kind) }
{
    numeral_law(Radix::Decimal);
    let mut text = ShortLine::new();
    text.put("ans ");
    text.put_number(u64::from(id), Radix::Decimal);
    text.put(" at ");
    text.put_number(line, Radix::Decimal);
    text.put(" ");
    put_answer(&mut text, kind);
    text.put("\n");
    text
}

/// The line of noise of this class. Line `line` of the script arms the noise.
pub fn noise_line(line: u64, class: NoiseClass) -> ShortLine
    ensures text { result ≡ noise_text line class }
    ensures said { (noise : LiveNoise) → IsNoise noise.places → Classes class noise.places
        → result ≡ said_text (Played line (Noise noise)) }
{
    numeral_law(Radix::Decimal);
    let mut text = ShortLine::new();
    text.put("noise ");
    text.put_number(line, Radix::Decimal);
    text.put(" ");
    text.put(class_word(class));
    text.put("\n");
    text
}

/// The text of the line of a block of a read.
pub type BlockLine = LineBuf;

/// Writes the line of block `k` of a read, counted from 0, in place of what is there. The block has 1 to 512 bytes.
pub fn write_block(text: &mut BlockLine, k: u32, bytes: &[u8])
    requires some { 1 ≤ length bytes.now }
    requires few { length bytes.now ≤ 512 }
    ensures { text.new ≡ block_text k bytes.now }
{
    numeral_law(Radix::Decimal);
    content_law();
    text.clear();
    text.put("blk ");
    text.put_number(u64::from(k), Radix::Decimal);
    text.put(" ");
    text.put_bytes(bytes);
    text.put("\n");
}
