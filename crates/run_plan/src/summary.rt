//! A whole run at a glance, in sentences.

ghost use Rattle.std.specs.Prelude.{◌≡◌, length, codes};
ghost use Rattle.run_plan.specs.Units.{units_shown};
ghost use Rattle.run_plan.specs.Sentences.{IsPhrase, SaysRequests, SaysEvents, SaysFirst, SaysPositioning, SaysMoving, SumUp};

use crate::figures::{count_ok, count_turned};
use crate::sheet::{Sheet, is_drawn};

/// Words, and a number after them.
#[derive(Clone, Copy)]
pub struct Phrase {
    pub word: &'static str,
    pub number: u64,
}

/// A sentence: two or three phrases, and its end.
#[derive(Clone, Copy)]
pub struct Sentence {
    pub first: Phrase,
    pub second: Phrase,
    pub third: Option<Phrase>,
    pub end: &'static str,
}

/// Words, and a number after them.
fn numbered(word: &'static str, number: u64) -> Phrase
    ensures { IsPhrase word.now number result }
{
    Phrase { word, number }
}

/// A sentence that ends with a point.
fn make_sentence(first: Phrase, second: Phrase, third: Option<Phrase>) -> Sentence
    ensures first { result.first ≡ first }
    ensures second { result.second ≡ second }
    ensures third { result.third ≡ third }
    ensures end { result.end.now ≡ codes "." }
{
    Sentence {
        first,
        second,
        third,
        end: ".",
    }
}

/// What became of the requests.
fn of_requests(sheet: &Sheet<'_>) -> Sentence
    ensures { SaysRequests sheet.now result }
{
    let requests = sheet.run.requests();
    let turned = count_turned(requests) as u64;
    make_sentence(
        numbered("Requests: ", requests.len() as u64),
        numbered("; ok: ", count_ok(requests) as u64),
        Some(numbered("; served out of the order asked: ", turned)),
    )
}

/// How many events there were.
fn of_events(sheet: &Sheet<'_>) -> Sentence
    ensures { SaysEvents sheet.now result }
{
    make_sentence(
        numbered("Events: ", sheet.run.events()),
        numbered("; to a column: ", sheet.window.per),
        None,
    )
}

/// How many drives are shown.
fn count_drives(sheet: &Sheet<'_>) -> usize
    ensures { result ≡ length (units_shown sheet.now) }
{
    let mut count: usize = 0;
    for unit in 0..32u8 {
        if is_drawn(sheet, unit) {
            count += 1;
        }
    }
    count
}

/// The line at which most drives positioned first, if some drive positioned.
fn first_at(most: usize, line: u32) -> Option<Phrase>
    ensures { SaysFirst most line result }
{
    if most == 0 {
        return None;
    }
    Some(numbered("; first at line: ", u64::from(line)))
}

/// How many drives positioned at once.
fn of_positioning(sheet: &Sheet<'_>) -> Sentence
    ensures { SaysPositioning sheet.now result }
{
    let glance = sheet.run.glance();
    make_sentence(
        numbered("Drives: ", count_drives(sheet) as u64),
        numbered("; positioning at once, at most: ", glance.most as u64),
        first_at(glance.most, glance.most_line),
    )
}

/// How often sectors moved, and another drive positioned meanwhile.
fn of_moving(sheet: &Sheet<'_>) -> Sentence
    ensures { SaysMoving sheet.now result }
{
    let glance = sheet.run.glance();
    make_sentence(
        numbered("Events after which sectors moved: ", glance.moving),
        numbered("; and another drive positioned: ", glance.both),
        None,
    )
}

/// The four sentences.
pub fn sentences(sheet: &Sheet<'_>) -> [Sentence; 4]
    ensures { SumUp sheet.now result }
{
    [
        of_requests(sheet),
        of_events(sheet),
        of_positioning(sheet),
        of_moving(sheet),
    ]
}
