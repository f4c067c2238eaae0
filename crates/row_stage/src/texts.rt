// What rows are written with: numbers, ranges of blocks, bytes as runs, and pieces of text.
use itoa::Buffer;
use outside_traits::traits::NoMemory;

/// What a step comes to.
pub(crate) type Outcome = Result<(), NoMemory>;

/// The first word of a text, and what follows the blank after it.
pub(crate) fn split(text: &str) -> (&str, &str) {
    text.split_once(' ').unwrap_or((text, ""))
}

/// A decimal number; 0 if the text is none.
pub(crate) fn number(text: &str) -> u64 {
    text.parse::<u64>().unwrap_or(0)
}

/// The number of a unit, or a byte in decimal; 0 if the text is none.
pub(crate) fn small_number(text: &str) -> u8 {
    text.parse::<u8>().unwrap_or(0)
}

/// The blocks of `A`, or of `A-B` including B: the first one, and the one after the last.
pub(crate) fn span(text: &str) -> (u32, u32) {
    let (first, last) = text.split_once('-').unwrap_or((text, text));
    let last = last.parse::<u32>().unwrap_or(0);
    (first.parse::<u32>().unwrap_or(0), last.saturating_add(1))
}

/// The unit and the blocks with which a text begins, as `span` has them, and the rest of the text.
pub(crate) fn placed(text: &str) -> (u8, (u32, u32), &str) {
    let (unit, rest) = split(text);
    let (blocks, rest) = split(rest);
    (small_number(unit), span(blocks), rest)
}

/// Appends pieces.
pub(crate) fn add(text: &mut Vec<u8>, pieces: &[&str]) -> Outcome {
    for piece in pieces {
        text.extend_from_slice(piece.as_bytes())?;
    }
    Ok(())
}

/// Appends a number between two pieces.
pub(crate) fn add_number(text: &mut Vec<u8>, before: &str, number: u64, behind: &str) -> Outcome {
    let mut buffer = Buffer::new();
    add(text, &[before, buffer.format(number), behind])
}

/// Appends a line in which `%` stands for a number.
pub(crate) fn add_numbered(text: &mut Vec<u8>, line: &str, number: u64) -> Outcome {
    match line.split_once('%') {
        Some((before, behind)) => add_number(text, before, number, behind),
        None => add(text, &[line]),
    }
}

/// Appends runs `N*HH` and bytes `HH` that have blanks between them.
pub(crate) fn add_runs(text: &mut Vec<u8>, runs: &str) -> Outcome {
    for run in runs.split(' ') {
        if !run.is_empty() {
            let (count, byte) = run.split_once('*').unwrap_or(("1", run));
            let size = text.len().saturating_add(number(count) as usize);
            text.resize(size, u8::from_str_radix(byte, 16).unwrap_or(0))?;
        }
    }
    Ok(())
}

/// Appends a byte as two hexadecimal digits.
fn add_hex(text: &mut Vec<u8>, byte: u8) -> Outcome {
    let digits = b"0123456789abcdef";
    text.push(digits[usize::from(byte / 16)])?;
    text.push(digits[usize::from(byte % 16)])?;
    Ok(())
}

/// Appends a piece of text. In it `|` stands for LF, `^` for CR, and `{N}` for the digits of a block whose bytes rise from N on.
pub(crate) fn add_piece(text: &mut Vec<u8>, piece: &str) -> Outcome {
    for part in piece.split('{') {
        let (first, rest) = part.split_once('}').unwrap_or(("", part));
        if !first.is_empty() {
            for before in 0..512u16 {
                add_hex(text, small_number(first).wrapping_add((before % 256) as u8))?;
            }
        }
        for byte in rest.as_bytes() {
            text.push(match *byte {
                b'|' => b'\n',
                b'^' => b'\r',
                other => other,
            })?;
        }
    }
    Ok(())
}

/// Appends bytes as runs, each with a blank before it.
pub(crate) fn add_as_runs(text: &mut Vec<u8>, bytes: &[u8]) -> Outcome {
    for run in bytes.chunk_by(|one, next| one == next) {
        add_number(text, " ", run.len() as u64, "*")?;
        add_hex(text, run.first().copied().unwrap_or(0))?;
    }
    Ok(())
}

/// How often a piece stands in a text; 0 if it is empty.
pub(crate) fn times(text: &[u8], piece: &[u8]) -> u64 {
    if piece.is_empty() {
        return 0;
    }
    text.windows(piece.len())
        .filter(|place| *place == piece)
        .count() as u64
}

/// Whether a piece, which is not empty, stands in a text.
pub(crate) fn holds(text: &[u8], piece: &[u8]) -> bool {
    times(text, piece) > 0
}
