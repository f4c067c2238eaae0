ghost use Rattle.std.specs.Prelude.{◌≡◌, ◌≤◌, ◌<◌, ◌+◌, ◌^◌, ℕ, [], ◌∷◌, length, decimal};
ghost use Rattle.trace_replay.specs.Moved.TheVariants.{Clean};
ghost use Rattle.trace_replay.specs.Moments as moments;
ghost use Rattle.trace_replay.specs.Moments.{Sector};
ghost use Rattle.trace_replay.specs.Text.{moment_text};
ghost use Rattle.trace_lines.specs.Deeds.{in_front};

use mass_text::FrontLine;

/// How many bytes a line has at most.
const END: usize = 64;

/// The room of a line. Its second half only fills up what is copied with the text.
const ROOM: usize = 128;

/// The text of the line of a sector that moved clean.
pub type CleanLine = FrontLine<ROOM, END>;

/// The law of the number of digits: a number of 64 bits has at most 20 digits, one of 32 bits at most 10, and one of 8 bits at most 3.
fn digits_law()
    ensures long { (n : ℕ) → n < 2 ^ 64 → length (decimal n) ≤ 20 }
    ensures middle { (n : ℕ) → n < 2 ^ 32 → length (decimal n) ≤ 10 }
    ensures short { (n : ℕ) → n < 2 ^ 8 → length (decimal n) ≤ 3 }
{}

/// Puts a space and a number.
#[tactic(auto, unfolding(crate::specs::Deeds::in_front))]
pub(crate) fn put_spaced<const ROOM: usize, const END: usize>(
    line: &mut FrontLine<ROOM, END>,
    value: u64,
)
    requires { length (decimal value) + length line.old < END }
    ensures room { length line.new ≡ length (decimal value) + length line.old + 1 }
    ensures text { line.new ≡ in_front (decimal value ∷ []) line.old }
{
    line.put_digits(value);
    line.put_byte(b' ');
}

/// The line of a block's sector that moved clean at a unit, for the request with this id. `number` is the number of the script's line.
pub fn clean_line(number: u64, unit: u8, id: u32, block: u32) -> CleanLine
    ensures { result ≡ moment_text (moments.Told number unit id (Sector block Clean)) }
{
    digits_law();
    let mut line = CleanLine::new();
    line.put_piece(b" clean\n");
    put_spaced(&mut line, u64::from(block));
    put_spaced(&mut line, u64::from(id));
    put_spaced(&mut line, u64::from(unit));
    line.put_digits(number);
    line.put_piece(b"sector ");
    line
}
