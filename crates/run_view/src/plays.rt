// The script as it is played.
ghost use Rattle.std.specs.Prelude.{◌≡◌, ◌<◌, ◌-◌, ◌^◌, ◌++◌, [], map, drop, slice_index_or, Some, IfOk, OnOk, ℕ, List};
ghost use Rattle.drive_pictures.specs.declared.moments.Play.TheVariants as play;
ghost use Rattle.std.specs.List.{All};
ghost use Rattle.script_reader.specs.Grammar.{Spells};
ghost use Rattle.script_lines.specs.Words.{all_verbs};
ghost use Rattle.script_reader.specs.Stored.{Kept, seen};
ghost use Rattle.script_reader.specs.Lines.{pieces_of, lines_of};
ghost use Rattle.run_view.specs.Plays.{play_of, names_of, played_as, last_drain, plays_of, HasUnitAt, HaveUnits};
ghost use Rattle.run_view.specs.Saids.{said_of, IsHeardAt};

use crate::seen::Seen;
use drive_pictures::{Change, Moment, Play};
use script_reader::{Script, Statement, Stored, first_piece, read_back_law, without_cr};
use std::alloc::{AllocError, Global};

/// A drive is changed.
fn change(unit: &u8, change: Change) -> Option<Play>
    ensures { result ≡ Some (play.Change unit.now change) }
{
    Some(Play::Change {
        unit: *unit,
        change,
    })
}

/// What a line of a script does that can be seen; `None` if it declares a drive.
fn play_of(line: &Stored) -> Option<Play>
    ensures { result ≡ play_of line.now.statement }
{
    match &line.statement {
        Statement::Unit { .. } => None,
        Statement::Read { request } => Some(Play::Ask {
            request: *request,
            write: false,
        }),
        Statement::Write { request, .. } => Some(Play::Ask {
            request: *request,
            write: true,
        }),
        Statement::Turn { unit, .. } => change(unit, Change::Turn),
        Statement::Noise { unit, .. } => change(unit, Change::Noise),
        Statement::Fault { unit, .. } => change(unit, Change::Fault),
        Statement::Offline { unit } => change(unit, Change::Offline),
        Statement::Online { unit } => change(unit, Change::Online),
        Statement::Lock { unit } => change(unit, Change::Lock),
        Statement::Unlock { unit } => change(unit, Change::Unlock),
        Statement::Arrive { .. }
        | Statement::Move { .. }
        | Statement::Attend { .. }
        | Statement::Drain => Some(Play::Other),
    }
}

/// The drive that a line of a script names.
fn names_of(line: &Stored) -> Option<u8>
    ensures { result ≡ names_of line.now.statement }
{
    match &line.statement {
        Statement::Read { request } | Statement::Write { request, .. } => Some(request.unit),
        Statement::Unit { unit, .. }
        | Statement::Arrive { unit }
        | Statement::Turn { unit, .. }
        | Statement::Noise { unit, .. }
        | Statement::Fault { unit, .. }
        | Statement::Offline { unit }
        | Statement::Online { unit }
        | Statement::Lock { unit }
        | Statement::Unlock { unit } => Some(*unit),
        Statement::Move { .. } | Statement::Attend { .. } | Statement::Drain => None,
    }
}

/// What stands in a text after its first `count` lines.
fn skip(text: &[u8], count: u32) -> &[u8]
    ensures { pieces_of result.now ≡ drop count (pieces_of text.now) }
{
    let mut rest = text;
    let mut left = count;
    'lines: while left > 0 && !rest.is_empty() {
        let (_, after) = first_piece(rest);
        rest = after;
        left -= 1;
    }
    rest
}

/// Where line number `number` of a text begins. `rest` is what comes after line number `next - 1`.
fn line_at<'a>(text: &'a [u8], rest: &'a [u8], next: u32, number: u32) -> &'a [u8]
    requires { pieces_of rest.now ≡ drop (next - 1) (pieces_of text.now) }
    ensures { pieces_of result.now ≡ drop (number - 1) (pieces_of text.now) }
{
    if number < next {
        skip(text, number.saturating_sub(1))
    } else {
        skip(rest, number.saturating_sub(1) - next.saturating_sub(1))
    }
}

/// The first line of a text, without CR at its end; empty if there is none.
pub fn first_text(text: &[u8]) -> &[u8]
    ensures { result.now ≡ slice_index_or (lines_of text.now) 0 [] }
{
    if text.is_empty() {
        return &[];
    }
    let (line, _) = first_piece(text);
    without_cr(line)
}

/// A line is played.
fn push_line<'a>(plays: &mut Vec<Seen<'a>>, line: &Stored, text: &'a [u8]) -> Result<(), AllocError>
    requires { HasUnitAt line.now }
    ensures plays { OnOk result (map said_of plays.new.items ≡ map said_of plays.old.items ++ played_as (play_of line.now.statement) (names_of line.now.statement) line.now.number text.now) }
    ensures heard { OnOk result (All IsHeardAt (map said_of plays.old.items) → All IsHeardAt (map said_of plays.new.items)) }
{
    match play_of(line) {
        None => Ok(()),
        Some(play) => {
            plays.push(Seen {
                moment: Moment::Played {
                    line: line.number,
                    play,
                },
                names: names_of(line),
                text,
            })?;
            Ok(())
        }
    }
}

/// The last drain is played, after all lines of a script that has any.
#[tactic(auto, unfolding(crate::specs::Plays::drain_text))]
fn push_drain(plays: &mut Vec<Seen<'_>>, count: u32) -> Result<(), AllocError>
    requires { count < 2 ^ 32 - 1 }
    ensures plays { OnOk result (map said_of plays.new.items ≡ map said_of plays.old.items ++ last_drain count) }
    ensures heard { OnOk result (All IsHeardAt (map said_of plays.old.items) → All IsHeardAt (map said_of plays.new.items)) }
{
    if count == 0 {
        return Ok(());
    }
    plays.push(Seen {
        moment: Moment::Played {
            line: count + 1,
            play: Play::Other,
        },
        names: None,
        text: b"last drain",
    })?;
    Ok(())
}

/// A script as it is played, with its own text. `AllocError` says only that there was no memory.
pub fn plays_of<'a>(
    alloc: Global,
    script: &Script,
    text: &'a [u8],
) -> Result<Vec<Seen<'a>>, AllocError>
    requires text { text.now ≡ script.now.text }
    requires count { script.now.count < 2 ^ 32 - 1 }
    requires units { HaveUnits script.now.lines }
    ensures plays { IfOk result (λ plays. map said_of plays.items ≡ plays_of script.now) }
    ensures heard { IfOk result (λ plays. All IsHeardAt (map said_of plays.items)) }
{
    let lines = script.lines();
    let mut plays = Vec::new(alloc);
    let mut rest = text;
    let mut next = 1;
    'lines: for line in lines {
        rest = line_at(text, rest, next, line.number);
        next = line.number;
        push_line(&mut plays, line, first_text(rest))?;
    }
    push_drain(&mut plays, script.count())?;
    Ok(plays)
}

/// The law of scripts: each drive that a script names is one of 32, and a script has so few lines that its last drain has a number.
pub fn script_law()
    ensures units { (text : List ℕ) (lines : List Kept) (count : ℕ) → Spells all_verbs text (map (seen text) lines) count → HaveUnits lines }
    ensures few { (text : List ℕ) (lines : List Kept) (count : ℕ) → Spells all_verbs text (map (seen text) lines) count → count < 2 ^ 32 - 1 }
{
    read_back_law();
}
