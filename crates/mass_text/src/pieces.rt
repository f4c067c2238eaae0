ghost use Rattle.std.specs.Prelude.{◌≡◌, ◌∷◌, [], true, false, MatchOption, IfNone, IfSome, drop, position, not};
ghost use Rattle.mass_text.specs.Pieces.{begins, is_blank, pieces};

use std::marker::Model;

/// The fields of a line, one after another. A field is a piece between spaces and tabs.
#[derive(Drop)]
pub struct Fields<'a> {
    rest: &'a [u8],
}

impl<'a> Model for Fields<'a> {
    ghost use Rattle.std.specs.Prelude.{ℕ, List};

    ghost Value = { List (List ℕ) };

    ghost use Rattle.mass_text.specs.Pieces.{pieces};

    ghost view = { λ fields. pieces fields.rest.now };
}

fn is_blank(byte: u8) -> bool
    ensures { result ≡ is_blank byte }
{
    byte == b' ' || byte == b'\t'
}

fn first_blank(text: &[u8]) -> Option<usize>
    ensures { result ≡ position is_blank text.now }
{
    text.iter().position(|byte| is_blank(*byte))
}

fn first_other(text: &[u8]) -> Option<usize>
    ensures { result ≡ position (λ b. not (is_blank b)) text.now }
{
    text.iter().position(|byte| !is_blank(*byte))
}

/// The first piece of a text, and what stands behind that piece.
fn first_piece(text: &[u8]) -> Option<(&[u8], &[u8])>
    ensures none { IfNone result (pieces text.now ≡ []) }
    ensures first { IfSome result (λ parts. pieces text.now ≡ parts.0.now ∷ pieces parts.1.now) }
{
    let start = first_other(text)?;
    let text = &text[start..];
    let len = first_blank(text).unwrap_or(text.len());
    Some((&text[..len], &text[len..]))
}

impl<'a> Fields<'a> {
    /// The fields of a line.
    pub fn new(line: &'a [u8]) -> Fields<'a>
        ensures { result ≡ pieces line.now }
    {
        Fields { rest: line }
    }

    /// The next field. None exactly if no field is left.
    pub fn next(&mut self) -> Option<&'a [u8]>
        ensures { MatchOption result ((self.old ≡ []) × (self.new ≡ [])) (λ field. self.old ≡ field.now ∷ self.new) }
    {
        let (field, rest) = first_piece(self.rest)?;
        self.rest = rest;
        Some(field)
    }

    /// Takes the next field if it is this word, and tells whether it is.
    pub fn next_if(&mut self, word: &[u8]) -> bool
        ensures is { result ≡ begins word.now self.old }
        ensures taken { result ≡ true → self.new ≡ drop 1 self.old }
        ensures kept { result ≡ false → self.new ≡ self.old }
    {
        let Some((field, rest)) = first_piece(self.rest) else {
            return false;
        };
        if field != word {
            return false;
        }
        self.rest = rest;
        true
    }
}
