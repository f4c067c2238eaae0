ghost use Rattle.std.specs.Prelude.{◌≡◌};
ghost use Rattle.run_view.specs.Captions.{without_front, without_back, caption_in, caption_of};

use crate::first_text;

/// A text without the blanks before it.
fn without_front(text: &[u8]) -> &[u8]
    ensures { result.now ≡ without_front text.now }
{
    let mut rest = text;
    'blanks: while !rest.is_empty() && rest[0] == b' ' {
        rest = &rest[1..];
    }
    rest
}

/// A text without the blanks after it.
fn without_back(text: &[u8]) -> &[u8]
    ensures { result.now ≡ without_back text.now }
{
    let mut rest = text;
    'blanks: while !rest.is_empty() && rest[rest.len() - 1] == b' ' {
        rest = &rest[..rest.len() - 1];
    }
    rest
}

/// What stands after `#` on a line, without the blanks around it; empty if the line does not begin with `#`.
fn caption_in(line: &[u8]) -> &[u8]
    ensures { result.now ≡ caption_in line.now }
{
    if line.is_empty() || line[0] != b'#' {
        return &[];
    }
    without_back(without_front(&line[1..]))
}

/// What stands after `#` on the first line of a script, without the blanks around it; empty if that line does not begin with `#`.
pub fn caption_of(script: &[u8]) -> &[u8]
    ensures { result.now ≡ caption_of script.now }
{
    caption_in(first_text(script))
}
