//! Bars: successive columns in which a drive does the same.

ghost use Rattle.std.specs.Prelude.{◌≡◌, ℕ, ◌<◌, ◌≤◌, IsTrue, length, slice_index_or, IfOk};
ghost use Rattle.run_plan.specs.Bars.{columns_of, numbered};

use drive_pictures::Letter;
use std::alloc::{AllocError, Global};

/// A bar: from one column up to another, which is not of the bar, a drive does what the letter says.
#[derive(Clone, Copy)]
pub struct Bar {
    pub letter: Letter,
    pub from: usize,
    pub to: usize,
}

/// The letter of a column.
fn letter_in(letters: &[Letter], column: usize) -> Letter
    ensures { result ≡ slice_index_or letters.now column Letter.Idle }
{
    match letters.get(column) {
        Some(letter) => *letter,
        None => Letter::Idle,
    }
}

/// Whether two letters are the same.
fn is_same(letter: Letter, other: Letter) -> bool
    ensures { IsTrue result → letter ≡ other }
{
    letter == other
}

/// The column after the bar that begins at `from`: the next one that has another letter, or the end of the columns.
fn end_of_bar(letters: &[Letter], from: usize) -> usize
    requires { from < length letters.now }
    ensures some { from < result }
    ensures inside { result ≤ length letters.now }
    ensures same { (k : ℕ) → from ≤ k → k < result → slice_index_or letters.now k Letter.Idle ≡ slice_index_or letters.now from Letter.Idle }
{
    let letter = letter_in(letters, from);
    let mut to = from + 1;
    'columns: while to < letters.len() {
        if !is_same(letter_in(letters, to), letter) {
            return to;
        }
        to += 1;
    }
    to
}

/// The bars of the letters of columns.
pub(crate) fn bars_of(alloc: Global, letters: &[Letter]) -> Result<Vec<Bar>, AllocError>
    ensures { IfOk result (λ bars. columns_of bars.items ≡ numbered 0 letters.now) }
{
    let mut bars = Vec::new(alloc);
    let mut from = 0;
    'columns: while from < letters.len() {
        let to = end_of_bar(letters, from);
        let letter = letter_in(letters, from);
        bars.push(Bar { letter, from, to })?;
        from = to;
    }
    Ok(bars)
}
