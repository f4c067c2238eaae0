//! The whole chart.

ghost use Rattle.std.specs.Prelude.{◌≡◌, ◌<◌, ◌++◌, ◌∷◌, [], length, take, slice_range, codes, IfOk, OnOk};
ghost use Rattle.picture_chart.specs.Charts.{line_of};
ghost use Rattle.run_plan.specs.Units.{units_shown};
ghost use Rattle.picture_chart.specs.Pages.{with_phrase, with_third, with_sentence, head_of, panel_columns, panels_of, title_line, legend_line, legend, Grows, Panels, IsChartOf};

use crate::line::{Done, WIDEST, line_of};
use crate::panel::{Drives, put_panel};
use crate::rows::put_line;
use crate::table::{put_left_out, put_names, put_requests};
use crate::{ChartLine, text_of};
use drive_pictures::Letter::*;
use drive_pictures::{Letter, letter_sign, letter_word};
use run_picture::Column;
use run_plan::{Phrase, Sentence, Sheet, Shown, scale_of, sentences};
use std::alloc::{AllocError, Global};

/// The columns of a panel.
const PANEL: usize = 72;

/// Puts words, and the number after them.
fn put_phrase(line: &mut ChartLine, phrase: &Phrase)
    ensures { line.new ≡ with_phrase line.old phrase.now }
{
    line.put(phrase.word.as_bytes());
    line.put_number(phrase.number);
}

/// Puts the third phrase of a sentence, if it has one.
fn put_third(line: &mut ChartLine, third: Option<Phrase>)
    ensures { line.new ≡ with_third line.old third }
{
    if let Some(phrase) = third {
        put_phrase(line, &phrase);
    }
}

/// Puts a sentence.
fn put_sentence(page: &mut Vec<ChartLine>, sentence: &Sentence) -> Done
    ensures { OnOk result (page.new.items ≡ with_sentence page.old.items sentence.now) }
{
    let mut line = ChartLine::new();
    put_phrase(&mut line, &sentence.first);
    put_phrase(&mut line, &sentence.second);
    put_third(&mut line, sentence.third);
    line.put(sentence.end.as_bytes());
    put_line(page, line)
}

/// The line of a title that is too long. It ends with three points.
fn cut_line(title: &[u8]) -> ChartLine
    requires { 100 < length title.now }
    ensures { result ≡ line_of (take 97 title.now ∷ codes "..." ∷ []) }
{
    let (front, _) = title.split_at(WIDEST - 3);
    let mut line = line_of(front);
    line.put(b"...");
    line
}

/// The line of the title.
#[tactic(auto, unfolding(crate::specs::Pages::title_line))]
fn title_line(title: &[u8]) -> ChartLine
    ensures { result ≡ title_line title.now }
{
    if title.len() <= WIDEST {
        line_of(title)
    } else {
        cut_line(title)
    }
}

/// The title, the sentences, and an empty line.
fn head(
    alloc: Global,
    sheet: &Sheet<'_>,
    sentences: &[Sentence],
) -> Result<Vec<ChartLine>, AllocError>
    ensures { IfOk result (λ page. page.items ≡ head_of sheet.now sentences.now ++ [] ∷ []) }
{
    let mut page = Vec::new(alloc);
    put_line(&mut page, title_line(sheet.title()))?;
    for sentence in sentences.iter() {
        put_sentence(&mut page, sentence)?;
    }
    put_line(&mut page, ChartLine::new())?;
    Ok(page)
}

/// The columns of a panel.
fn panel_columns(columns: &[Column], from: usize, to: usize) -> &[Column]
    ensures { result.now ≡ slice_range columns.now from to }
{
    let (_, behind) = columns.split_at(from.min(columns.len()));
    let count = to.saturating_sub(from).min(behind.len());
    &behind[..count]
}

/// Puts the panels.
fn put_panels(page: &mut Vec<ChartLine>, sheet: &Sheet<'_>, drives: Drives<'_>) -> Done
    requires { drives.units.now ≡ units_shown sheet.now }
    ensures { OnOk result (Panels sheet.now (panels_of sheet.now.run.now.columns) page.old.items page.new.items) }
{
    let columns = sheet.columns();
    let panels = (columns.len() + (PANEL - 1)) / PANEL;
    for panel in 0..panels {
        let from = PANEL * panel;
        let some = panel_columns(columns, from, from + PANEL);
        put_panel(page, sheet, drives, some, from)?;
    }
    Ok(())
}

/// The line of the legend for some letters.
fn legend_line(label: &[u8], letters: &[Letter]) -> ChartLine
    ensures { result ≡ legend_line label.now letters.now }
{
    let mut line = line_of(label);
    for letter in letters.iter() {
        line.put(b"  ");
        line.put(letter_sign(*letter).as_bytes());
        line.put(b" ");
        line.put(letter_word(*letter).as_bytes());
    }
    line
}

/// Puts an empty line, and what the letters say.
#[tactic(auto, unfolding(crate::specs::Pages::legend))]
fn put_letters(page: &mut Vec<ChartLine>) -> Done
    ensures { OnOk result (page.new.items ≡ page.old.items ++ legend) }
{
    let first = [Idle, Seeks, Turns, Recalibrates];
    let second = [Offsets, Arrived, Ready, Moves];
    put_line(page, ChartLine::new())?;
    put_line(page, legend_line(b"drive", &first))?;
    put_line(page, legend_line(b"     ", &second))?;
    put_line(page, legend_line(b"     ", &[Retries, Replaces, Moved]))
}

/// What marks, digits and counts say.
static MARKS: [&[u8]; 4] = [
    b"marks  q asked for  ' attention up  a taken  i interrupt taken  o sector  v ok  B burst, repaired",
    b"       E not repairable  F fault  M marked  x offline  t try failed  X stopped  + - offset",
    b"       n noise  f fault armed  @ turned  d offline  u online  l locked  k unlocked  P acknowledged",
    b"arm    0 to 9, from cylinder 0 to the highest         queue  requests not answered, + above 9",
];

/// Puts some lines.
fn put_texts(page: &mut Vec<ChartLine>, texts: &[&[u8]]) -> Done
    ensures { OnOk result (Grows page.old.items page.new.items) }
{
    for text in texts.iter() {
        put_line(page, line_of(text))?;
    }
    Ok(())
}

/// The chart of a sheet, for a terminal.
pub fn chart(alloc: Global, sheet: &Sheet<'_>) -> Result<Vec<u8>, AllocError>
    ensures { IfOk result (λ text. IsChartOf sheet.now text.items) }
{
    let shown = Shown::new(alloc, sheet)?;
    let units = sheet.units(alloc)?;
    let mut page = head(alloc, sheet, &sentences(sheet))?;
    let units = units.as_slice();
    let top = scale_of(sheet, units);
    put_panels(&mut page, sheet, Drives { units, top })?;
    put_names(&mut page)?;
    put_requests(&mut page, shown.listed.as_slice())?;
    put_left_out(&mut page, shown.left_out())?;
    put_letters(&mut page)?;
    put_texts(&mut page, &MARKS)?;
    text_of(alloc, page.as_slice())
}
