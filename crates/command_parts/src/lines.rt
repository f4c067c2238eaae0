// Lines that commands print.
ghost use Rattle.std.specs.Prelude.{◌≡◌, ◌≤◌, ◌++◌, [], ◌∷◌, decimal, length};
ghost use Rattle.command_parts.specs.Lines.{too_long_text};

use mass_text::{LineBuf, Radix, numeral_law};

/// A name of at most 100 bytes followed by a number, as a line.
pub fn numbered(name: &str, value: u64) -> LineBuf
    requires { length name.now ≤ 100 }
    ensures { result ≡ name.now ++ decimal value ++ 10 ∷ [] }
{
    numeral_law(Radix::Decimal);
    let mut text = LineBuf::new();
    text.put(name);
    text.put_number(value, Radix::Decimal);
    text.put("\n");
    text
}

/// A text of at most 100 bytes, as a line without a number.
pub fn plain(words: &str) -> LineBuf
    requires { length words.now ≤ 100 }
    ensures { result ≡ words.now ++ 10 ∷ [] }
{
    let mut text = LineBuf::new();
    text.put(words);
    text.put("\n");
    text
}

/// The text of an image that is longer than its pack: `too long unit U length L`.
pub fn too_long(unit: u8, length: u64) -> LineBuf
    ensures { result ≡ too_long_text unit length }
{
    numeral_law(Radix::Decimal);
    let mut text = LineBuf::new();
    text.put("too long unit ");
    text.put_number(u64::from(unit), Radix::Decimal);
    text.put(" length ");
    text.put_number(length, Radix::Decimal);
    text.put("\n");
    text
}
