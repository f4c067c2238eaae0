ghost use Rattle.std.specs.Prelude.{◌≡◌, ◌+◌, ◌-◌, take, drop, ◌<◌, ◌∷◌, ℕ, ◌≢◌, length, slice_index, IfSome, IfNone};
ghost use Rattle.script_reader.specs.Lines.{pieces_of, without_cr};

/// Where LF stands first.
fn find_feed(bytes: &[u8]) -> Option<usize>
    ensures found { IfSome result (λ i. (i < length bytes.now) × (slice_index bytes.now i ≡ 10)) }
    ensures before { IfSome result (λ i. (k : ℕ) → k < i → slice_index bytes.now k ≢ 10) }
    ensures none { IfNone result ((k : ℕ) → k < length bytes.now → slice_index bytes.now k ≢ 10) }
{
    let mut at = 0;
    'fours: while bytes.len() - at >= 4 {
        if bytes[at] == b'\n' {
            return Some(at);
        }
        if bytes[at + 1] == b'\n' {
            return Some(at + 1);
        }
        if bytes[at + 2] == b'\n' {
            return Some(at + 2);
        }
        if bytes[at + 3] == b'\n' {
            return Some(at + 3);
        }
        at += 4;
    }
    'last: while at < bytes.len() {
        if bytes[at] == b'\n' {
            return Some(at);
        }
        at += 1;
    }
    None
}

/// The first piece of a text that is not empty, and the text that follows it.
pub fn first_piece(bytes: &[u8]) -> (&[u8], &[u8])
    requires { 0 < length bytes.now }
    ensures line { pieces_of bytes.now ≡ result.0.now ∷ pieces_of result.1.now }
    ensures front { result.0.now ≡ take (length result.0.now) bytes.now }
    ensures behind { result.1.now ≡ drop (length bytes.now - length result.1.now) bytes.now }
    ensures shorter { length result.1.now < length bytes.now }
{
    match find_feed(bytes) {
        Some(at) => (&bytes[..at], &bytes[at + 1..]),
        None => (bytes, &[]),
    }
}

/// A piece without the CR at its very end, if it has one there.
pub fn without_cr(piece: &[u8]) -> &[u8]
    ensures value { result.now ≡ without_cr piece.now }
    ensures front { result.now ≡ take (length result.now) piece.now }
{
    if piece.is_empty() || piece[piece.len() - 1] != b'\r' {
        return piece;
    }
    &piece[..piece.len() - 1]
}
