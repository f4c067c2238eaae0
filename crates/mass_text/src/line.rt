ghost use Rattle.std.specs.Prelude.{◌≡◌, ◌<◌, ◌≤◌, ◌+◌, ◌*◌, ◌==◌, ◌⊎◌, ℕ, false, List, [], ◌∷◌, ◌++◌, length, codes, slice_index};
ghost use Rattle.std.specs.Fmt.{digit_glyph, digits};
ghost use Rattle.std.specs.List.{flat_map, list_all};
ghost use Rattle.mass_text.specs.BlockText.{hex_byte, content_text};
ghost use Rattle.mass_text.specs.Numbers.{numeral};

use crate::numbers::Radix;
use arrayvec::ArrayVec;
use itoa::Buffer;
use std::marker::Model;

/// A text of at most `N` bytes that is put together piece by piece.
#[derive(Drop)]
pub struct TextBuf<const N: usize> {
    text: ArrayVec<u8, N>,
}

/// A text with room for the digits of a whole block.
pub type LineBuf = TextBuf<1100>;

/// The text of a short line. Making and moving a `LineBuf` costs more than most lines themselves.
pub type ShortLine = TextBuf<240>;

impl<const N: usize> Model for TextBuf<N> {
    ghost use Rattle.std.specs.Prelude.{ℕ, List};

    ghost Value = { List ℕ };

    ghost view = { λ buf. buf.text.items };
}

// Whether bytes are one byte repeated: each byte is equal to the one before it. Slices are compared word by word.
fn is_one_byte(bytes: &[u8]) -> bool
    requires { 1 ≤ length bytes.now }
    ensures { result ≡ list_all (λ b. b == slice_index bytes.now 0) bytes.now }
{
    bytes[1..] == bytes[..bytes.len() - 1]
}

/// The character of a digit, in lower case.
fn glyph(digit: u64) -> u8
    requires { digit < 16 }
    ensures { result ≡ digit_glyph false digit }
{
    let digit = digit as u8;
    if digit < 10 {
        b'0' + digit
    } else {
        b'a' - 10 + digit
    }
}

/// The digits of a number in base 8 or 16, with no leading zero.
fn octal_or_hex(value: u64, base: u64) -> ArrayVec<u8, 22>
    requires { (base ≡ 8) ⊎ (base ≡ 16) }
    ensures { result.items ≡ digits base false value }
{
    if value < base {
        let mut text = ArrayVec::new();
        text.push(glyph(value));
        text
    } else {
        let mut text = octal_or_hex(value / base, base);
        text.push(glyph(value % base));
        text
    }
}

impl<const N: usize> TextBuf<N> {
    /// An empty text.
    pub fn new() -> TextBuf<N>
        ensures { result ≡ [] }
    {
        TextBuf {
            text: ArrayVec::new(),
        }
    }

    /// Empties the text.
    pub fn clear(&mut self)
        ensures { self.new ≡ [] }
    {
        self.text.clear();
    }

    /// The text that was put so far.
    pub fn as_bytes(&self) -> &[u8]
        ensures text { result.now ≡ self.now }
        ensures room { length self.now ≤ N }
    {
        self.text.as_slice()
    }

    fn append(&mut self, bytes: &[u8])
        requires { length self.old + length bytes.now ≤ N }
        ensures { self.new ≡ self.old ++ bytes.now }
    {
        self.text.try_extend_from_slice(bytes).unwrap();
    }

    /// Puts a text. It must fit.
    pub fn put(&mut self, text: &str)
        requires { length self.old + length text.now ≤ N }
        ensures { self.new ≡ self.old ++ text.now }
    {
        self.append(text.as_bytes());
    }

    /// Puts the digits of a number in a radix, with no leading zero. They must fit.
    pub fn put_number(&mut self, value: u64, radix: Radix)
        requires { length self.old + length (numeral radix value) ≤ N }
        ensures { self.new ≡ self.old ++ numeral radix value }
    {
        match radix {
            Radix::Octal => self.append(octal_or_hex(value, 8).as_slice()),
            Radix::Decimal => self.append(Buffer::new().format(value).as_bytes()),
            Radix::Hex => self.append(octal_or_hex(value, 16).as_slice()),
        }
    }

    /// Puts the 512 bytes of a block, as `put_bytes` does. They must fit.
    pub fn put_block(&mut self, bytes: &[u8; 512])
        requires { length self.old + length (content_text bytes.now) ≤ N }
        ensures { self.new ≡ self.old ++ content_text bytes.now }
    {
        self.put_bytes(bytes);
    }

    /// Puts 1 to 512 bytes as `fill HH` if all of them are equal, and otherwise as `hex` and two digits for each byte.
    /// Hexadecimal digits are in lower case. The text must fit.
    pub fn put_bytes(&mut self, bytes: &[u8])
        requires some { 1 ≤ length bytes.now }
        requires few { length bytes.now ≤ 512 }
        requires room { length self.old + length (content_text bytes.now) ≤ N }
        ensures { self.new ≡ self.old ++ content_text bytes.now }
    {
        if is_one_byte(bytes) {
            self.put_fill(bytes[0]);
        } else {
            self.put_each(bytes);
        }
    }

    /// Puts `fill` and a byte by its two digits.
    fn put_fill(&mut self, byte: u8)
        requires { length self.old + 7 ≤ N }
        ensures { self.new ≡ self.old ++ (codes "fill " ++ hex_byte byte) }
    {
        self.put("fill ");
        self.put_hex(&[byte], &mut [0; 2]);
    }

    /// Puts `hex` and each byte by its two digits.
    fn put_each(&mut self, bytes: &[u8])
        requires few { length bytes.now ≤ 512 }
        requires room { length self.old + 4 + 2 * length bytes.now ≤ N }
        ensures { self.new ≡ self.old ++ (codes "hex " ++ flat_map hex_byte bytes.now) }
    {
        let mut digits = [0; 1024];
        self.put("hex ");
        self.put_hex(bytes, &mut digits[..2 * bytes.len()]);
    }

    /// Puts two digits for each byte. `digits` is room for them.
    fn put_hex(&mut self, bytes: &[u8], digits: &mut [u8])
        requires digits { length digits.old ≡ 2 * length bytes.now }
        requires room { length self.old + 2 * length bytes.now ≤ N }
        ensures { self.new ≡ self.old ++ flat_map hex_byte bytes.now }
    {
        hex::encode_to_slice(bytes, digits).unwrap();
        self.append(digits);
    }
}

/// The law of the text of bytes: the text of at most 512 bytes has at most 1,028 bytes.
pub fn content_law()
    ensures { (bytes : List ℕ) → length bytes ≤ 512 → length (content_text bytes) ≤ 1028 }
{}
