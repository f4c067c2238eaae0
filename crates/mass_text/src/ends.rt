// Pieces of a line that is put together from its end, in a room of any size. Each function puts its piece in front of
// what stands from a place on, and returns the place at which the piece starts.
ghost use Rattle.std.specs.Prelude.{◌≡◌, ◌≤◌, ◌+◌, ◌∷◌, ◌++◌, length, drop, decimal};

use itoa::write_digits;

/// Puts a piece in front of what stands from `start` on, and returns the place at which the piece starts.
pub(crate) fn put_piece<const N: usize>(bytes: &mut [u8; N], start: usize, piece: &[u8]) -> usize
    requires inside { start ≤ N }
    requires room { length piece.now ≤ start }
    ensures start { result + length piece.now ≡ start }
    ensures text { drop result bytes.new ≡ piece.now ++ drop start bytes.old }
{
    let at = start - piece.len();
    let room = &mut bytes[..];
    room[at..start].copy_from_slice(piece);
    at
}

/// Puts a byte in front of what stands from `start` on, and returns the place of that byte.
pub(crate) fn put_byte<const N: usize>(bytes: &mut [u8; N], start: usize, byte: u8) -> usize
    requires inside { start ≤ N }
    requires room { 1 ≤ start }
    ensures start { result + 1 ≡ start }
    ensures text { drop result bytes.new ≡ byte ∷ drop start bytes.old }
{
    bytes[start - 1] = byte;
    start - 1
}

/// Puts the decimal digits of a number in front of what stands from `start` on, and returns the place at which they start.
pub(crate) fn put_digits<const N: usize>(bytes: &mut [u8; N], start: usize, value: u64) -> usize
    requires inside { start ≤ N }
    requires room { length (decimal value) ≤ start }
    ensures start { result + length (decimal value) ≡ start }
    ensures text { drop result bytes.new ≡ decimal value ++ drop start bytes.old }
{
    write_digits(value, bytes, start)
}
