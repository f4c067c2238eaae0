// What is shown of a run, and of what it left.
use crate::stage::Row;
use crate::texts::{Outcome, add, add_as_runs, add_number, add_piece, holds, split, times};
use mass_outside::mem_packs::MemPacks;
use mass_outside::slots::Slot;

/// Shows lines of text, or as runs what ends otherwise.
pub(crate) fn show_text(page: &mut Vec<u8>, text: &[u8]) -> Outcome {
    if text.is_empty() || text.ends_with(b"\n") {
        page.extend_from_slice(text)?;
        return Ok(());
    }
    add_as_runs(page, text)?;
    add(page, &["\n"])
}

/// Shows a trace.
pub(crate) fn show_trace(page: &mut Vec<u8>, trace: &[u8]) -> Outcome {
    add(page, &["trace\n"])?;
    show_text(page, trace)
}

/// Shows those lines of a trace that read or write sectors.
pub(crate) fn show_commands(page: &mut Vec<u8>, trace: &[u8]) -> Outcome {
    add(page, &["commands\n"])?;
    for line in trace.split_inclusive(|byte| *byte == b'\n') {
        if holds(line, b" rcom ") || holds(line, b" wcom ") {
            page.extend_from_slice(line)?;
        }
    }
    Ok(())
}

/// What a block of a slot holds.
fn block_of(slot: &Slot, block: u32) -> [u8; 512] {
    let mut bytes = [0; 512];
    slot.read(block, &mut bytes);
    bytes
}

/// What a block of a unit holds.
pub(crate) fn block_at(packs: &MemPacks, unit: u8, block: u32) -> [u8; 512] {
    block_of(packs.slot(unit % 32), block)
}

/// Shows what a block of a unit holds, and whether it is marked.
pub(crate) fn show_block(packs: &MemPacks, page: &mut Vec<u8>, unit: u8, block: u32) -> Outcome {
    add_number(page, "block ", u64::from(unit), " ")?;
    add_number(page, "", u64::from(block), ":")?;
    add_as_runs(page, &block_at(packs, unit, block))?;
    let is_marked = packs.slot(unit % 32).marked(block);
    add(page, &[if is_marked { " marked\n" } else { "\n" }])
}

/// Whether two packs have room for as many blocks and are as long, and hold just the same, byte for byte and mark for mark.
fn are_same(one: &Slot, two: &Slot) -> bool {
    for block in 0..u32::MAX {
        if one.has(block) != two.has(block)
            || one.marked(block) != two.marked(block)
            || block_of(one, block) != block_of(two, block)
        {
            return false;
        }
        if !one.has(block) {
            break;
        }
    }
    one.length() == two.length()
}

/// Shows whether the packs hold what was remembered: each image and each mark, byte for byte.
pub(crate) fn show_kept(row: &Row, page: &mut Vec<u8>) -> Outcome {
    let (one, two) = (&row.scene.packs, &row.whole.packs);
    let is_kept = (0..32u8).all(|unit| are_same(one.slot(unit), two.slot(unit)));
    let how = if is_kept { "as they were" } else { "changed" };
    add(page, &["packs ", how, "\n"])
}

/// Shows how many bytes a text has, and their sum modulo 2^32.
pub(crate) fn show_size(page: &mut Vec<u8>, name: &str, text: &[u8]) -> Outcome {
    let mut sum = 0u32;
    for byte in text {
        sum = sum.wrapping_add(u32::from(*byte));
    }
    add(page, &[name])?;
    add_number(page, " ", text.len() as u64, " sum ")?;
    add_number(page, "", u64::from(sum), "\n")
}

/// The words for what a text is to a piece, where the line that asks begins with this word.
fn words_for(word: &str, text: &[u8], piece: &[u8]) -> &'static str {
    match word {
        "@has" if holds(text, piece) => " has ",
        "@begins" if text.starts_with(piece) => " begins with ",
        "@front" if piece.starts_with(text) => " is a front of ",
        _ => " is other than ",
    }
}

/// Shows what a text is to a piece, or how often it stands there, with both their names.
pub(crate) fn compare(row: &Row, page: &mut Vec<u8>, word: &str, rest: &str) -> Outcome {
    let (name, line) = split(rest);
    let mut piece = Vec::new(row.command.alloc);
    add_piece(&mut piece, line)?;
    let text = row.text(name);
    add(page, &[name])?;
    if word == "@times" {
        add_number(page, " has ", times(text, piece.as_slice()), " of ")?;
    } else {
        add(page, &[words_for(word, text, piece.as_slice())])?;
    }
    add(page, &[line, "\n"])
}
