// The line of a block whose bytes are all the same, put together from its end.
ghost use Rattle.std.specs.Prelude.{ℕ, ◌≡◌, ◌≤◌, ◌+◌, ◌*◌, ◌++◌, length, replicate, decimal};
ghost use Rattle.std.specs.List.{flat_map};
ghost use Rattle.mass_text.specs.BlockText.{hex_byte};
ghost use Rattle.trace_lines.specs.answers.AnswerText.{block_text};

use mass_text::FrontLine;

/// How many bytes the line may have, with room to spare.
const END: usize = 32;

/// The room of the line, with 64 bytes behind its end.
const ROOM: usize = 96;

/// The text of the line of a block of a read whose bytes are all the same.
pub type FillLine = FrontLine<ROOM, END>;

/// Writes two hexadecimal digits for each byte.
fn write_digits(bytes: &[u8], digits: &mut [u8])
    requires { length digits.old ≡ 2 * length bytes.now }
    ensures { digits.new ≡ flat_map hex_byte bytes.now }
{
    hex::encode_to_slice(bytes, digits).unwrap();
}

/// The two hexadecimal digits of a byte.
fn digits_of(byte: u8) -> [u8; 2]
    ensures { result ≡ hex_byte byte }
{
    let mut digits = [0; 2];
    write_digits(&[byte], &mut digits);
    digits
}

/// Puts the number of a block.
fn put_number(line: &mut FillLine, k: u32)
    requires { length line.old ≤ 9 }
    ensures room { length line.new ≤ length line.old + 10 }
    ensures text { line.new ≡ decimal k ++ line.old }
{
    line.put_digits(u64::from(k));
}

/// Writes the line of block `k`, counted from 0, whose bytes are all `byte`, in place of what is there.
pub fn write_fill(line: &mut FillLine, k: u32, byte: u8)
    ensures { (size : ℕ) → 1 ≤ size → line.new ≡ block_text k (replicate size byte) }
{
    line.clear();
    line.put_byte(b'\n');
    line.put_piece(&digits_of(byte));
    line.put_piece(b" fill ");
    put_number(line, k);
    line.put_piece(b"blk ");
}
