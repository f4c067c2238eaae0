// A run is watched, line by line.
ghost use Rattle.std.specs.Prelude.{◌≡◌, ◌<◌, length, slice_index_or, map, drop, fold, IfOk, IfErr, OnOk};
ghost use Rattle.std.specs.List.{All};
ghost use Rattle.trace_reader.specs.Grammar.{Says, Refuses};
ghost use Rattle.trace_reader.specs.Lines.{line_number};
ghost use Rattle.run_view.specs.Saids.{Said, said_of, IsHeardAt};
ghost use Rattle.run_view.specs.Runs.{told_of, up_to, beyond, Watched};

use crate::seen::{Seen, Watcher};
use drive_pictures::{Moment, line_of};
use script_reader::Script;
use std::alloc::{AllocError, Global};
use trace_reader::{ReadLine, TraceFault, TraceLine, TraceLines};

/// What is seen at a line of the trace.
fn told<'a>(found: &ReadLine<'a>) -> Seen<'a>
    requires { Says found.now.text.now found.now.line }
    ensures said { said_of result ≡ told_of found.now.line }
    ensures heard { IsHeardAt (said_of result) }
{
    match found.line {
        TraceLine::Deed {
            line,
            unit,
            id,
            told,
        } => Seen {
            moment: Moment::Told {
                line,
                unit,
                id,
                deed: told,
            },
            names: Some(unit),
            text: found.text,
        },
        TraceLine::Idle { line } => Seen {
            moment: Moment::Idle { line },
            names: None,
            text: found.text,
        },
    }
}

/// What is played at a place.
fn play_at<'a>(plays: &[Seen<'a>], at: usize) -> Seen<'a>
    requires inside { at < length plays.now }
    requires heard { All IsHeardAt (map said_of plays.now) }
    ensures here { slice_index_or (map said_of plays.now) at (said_of result) ≡ said_of result }
    ensures heard { IsHeardAt (said_of result) }
{
    plays[at]
}

/// What is played from a place on is seen, up to a line's number. The result is the place of what is played after that.
fn see_up_to<'a, W: Watcher<'a>>(
    plays: &[Seen<'a>],
    from: usize,
    number: u32,
    watcher: &mut W,
) -> Result<usize, AllocError>
    requires { All IsHeardAt (map said_of plays.now) }
    ensures saw { OnOk result (watcher.new ≡ fold W.step watcher.old (up_to number (drop from (map said_of plays.now)))) }
    ensures left { IfOk result (λ at. drop at (map said_of plays.now) ≡ beyond number (drop from (map said_of plays.now))) }
{
    let mut at = from;
    'plays: while at < plays.len() {
        let play = play_at(plays, at);
        if line_of(&play.moment) > number {
            return Ok(at);
        }
        watcher.see(&play)?;
        at += 1;
    }
    Ok(at)
}

/// All that is played from a place on is seen.
fn see_rest<'a, W: Watcher<'a>>(
    plays: &[Seen<'a>],
    from: usize,
    watcher: &mut W,
) -> Result<(), AllocError>
    requires { All IsHeardAt (map said_of plays.now) }
    ensures { OnOk result (watcher.new ≡ fold W.step watcher.old (drop from (map said_of plays.now))) }
{
    let mut at = from;
    'plays: while at < plays.len() {
        let play = play_at(plays, at);
        watcher.see(&play)?;
        at += 1;
    }
    Ok(())
}

/// A line of the trace is seen, after what is played up to its number.
fn see_line<'a, W: Watcher<'a>>(
    plays: &[Seen<'a>],
    from: usize,
    found: &ReadLine<'a>,
    watcher: &mut W,
) -> Result<usize, AllocError>
    requires heard { All IsHeardAt (map said_of plays.now) }
    requires says { Says found.now.text.now found.now.line }
    ensures saw { OnOk result (watcher.new ≡ W.step (fold W.step watcher.old (up_to (line_number found.now.line) (drop from (map said_of plays.now)))) (told_of found.now.line)) }
    ensures left { IfOk result (λ at. drop at (map said_of plays.now) ≡ beyond (line_number found.now.line) (drop from (map said_of plays.now))) }
{
    let at = see_up_to(plays, from, found.line.line(), watcher)?;
    watcher.see(&told(found))?;
    Ok(at)
}

/// Watches a run: what is played of its script, and the trace beside that script. The trace is refused exactly if its bytes spell no
/// trace of the script; the refusal has the first fault. `Memory` says only that there was none. Takes time in proportion to the lines.
pub fn watch_run<'a, W: Watcher<'a>>(
    alloc: Global,
    script: &'a Script,
    plays: &[Seen<'a>],
    trace: &'a [u8],
    watcher: &mut W,
) -> Result<(), TraceFault>
    requires { All IsHeardAt (map said_of plays.now) }
    ensures ok { OnOk result (Watched W.step watcher.old watcher.new script.now (map said_of plays.now) trace.now) }
    ensures err { IfErr result (λ fault. Refuses script.now trace.now fault) }
{
    let mut left = TraceLines::new(alloc, trace, script)?;
    let mut at = 0;
    'lines: loop {
        match left.next() {
            Ok(Some(found)) => at = see_line(plays, at, &found, watcher)?,
            Ok(None) => {
                see_rest(plays, at, watcher)?;
                return Ok(());
            }
            Err(fault) => return Err(fault),
        }
    }
}
