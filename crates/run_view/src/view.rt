// What a picture shows of a run.
ghost use Rattle.std.specs.Prelude.{◌≡◌, ◌<◌, ◌^◌, ◌-◌, length, slice_index_or, map, fold, IfOk, IfErr};
ghost use Rattle.run_view.specs.Legal.{ReadsLegal};
ghost use Rattle.run_view.specs.Plays.{HasUnitAt, HaveUnits};
ghost use Rattle.run_view.specs.Views.{declared_line, played_text, Views};
ghost use Rattle.run_view.specs.Saids.{said_of};
ghost use Rattle.trace_reader.specs.Grammar.{Refuses};

use crate::counter::Counter;
use crate::watch::Watch;
use crate::{Seen, plays_of, watch_run};
use drive_pictures::line_of;
use run_picture::{Column, Note, Run, Window};
use script_reader::{Script, Statement, Stored};
use std::alloc::{AllocError, Global};
use trace_reader::{TraceFault, grammar_law, round_trip_law};

/// What a picture shows of a run.
#[derive(Drop)]
pub struct View<'a> {
    /// The run, after its last line.
    pub run: Run,
    /// How many events the run has.
    pub events: u64,
    /// The events that are shown.
    pub window: Window,
    /// For each column, the text of the script's line at which the column begins; empty if that line is not played.
    pub texts: Vec<&'a [u8]>,
    /// If a column is one event: the lines that name a drive, in order.
    pub notes: Vec<Note<'a>>,
}

/// What is played at a place.
fn play_at<'a>(plays: &[Seen<'a>], at: usize) -> Seen<'a>
    requires { at < length plays.now }
    ensures { slice_index_or (map said_of plays.now) at (said_of result) ≡ said_of result }
{
    plays[at]
}

/// The text of what is played of a line; empty if nothing is.
fn text_of<'a>(plays: &[Seen<'a>], line: u32) -> &'a [u8]
    ensures { result.now ≡ played_text (map said_of plays.now) line }
{
    let mut at = 0;
    'plays: while at < plays.len() {
        let play = play_at(plays, at);
        if line_of(&play.moment) == line {
            return play.text;
        }
        at += 1;
    }
    &[]
}

/// The texts of the lines at which columns begin.
fn texts_of<'a>(
    alloc: Global,
    plays: &[Seen<'a>],
    columns: &[Column],
) -> Result<Vec<&'a [u8]>, AllocError>
    ensures { IfOk result (λ texts. map (λ text. text.now) texts.items ≡ map (λ column. played_text (map said_of plays.now) column.head.line) columns.now) }
{
    let mut texts = Vec::new(alloc);
    for column in columns {
        texts.push(text_of(plays, column.head.line))?;
    }
    Ok(texts)
}

/// A line of a script declares a drive, or does not.
fn declare(line: &Stored, watch: &mut Watch<'_>)
    requires { HasUnitAt line.now }
    ensures { watch.new ≡ record watch.old { known = declared_line watch.old.known line.now } }
{
    if let Statement::Unit { unit, kind } = &line.statement {
        watch.declare(*unit, *kind);
    }
}

/// The drives that a script declares.
fn declare_all(script: &Script, watch: &mut Watch<'_>)
    requires { HaveUnits script.now.lines }
    ensures { watch.new ≡ record watch.old { known = fold declared_line watch.old.known script.now.lines } }
{
    let lines = script.lines();
    'lines: for line in lines {
        declare(line, watch);
    }
}

/// The law of legal runs: the text of a legal run of a script is read as what the run tells, and so it is never refused.
pub fn legal_law()
    ensures { ReadsLegal }
{
    round_trip_law();
}

/// What a picture shows of the run of a script, whose text is given, and of its trace: the events from `first` up to `last`,
/// counted from 0. The trace is refused exactly if its bytes spell no trace of the script; the refusal has the first fault.
/// `Memory` says only that there was no memory. The call takes time in proportion to the script and the trace.
pub fn view_run<'a>(
    alloc: Global,
    script: &'a Script,
    text: &'a [u8],
    trace: &'a [u8],
    first: u64,
    last: u64,
) -> Result<View<'a>, TraceFault>
    requires text { text.now ≡ script.now.text }
    requires count { script.now.count < 2 ^ 32 - 1 }
    requires units { HaveUnits script.now.lines }
    ensures ok { IfOk result (λ view. Views script.now trace.now first last view) }
    ensures err { IfErr result (λ fault. Refuses script.now trace.now fault) }
{
    grammar_law();
    let plays = plays_of(alloc, script, text)?;
    let mut counter = Counter::new();
    watch_run(alloc, script, plays.as_slice(), trace, &mut counter)?;
    let events = counter.events();
    let window = Window::new(events, first, last);
    let mut watch = Watch::new(alloc, window);
    declare_all(script, &mut watch);
    watch_run(alloc, script, plays.as_slice(), trace, &mut watch)?;
    let (run, notes) = watch.finish()?;
    let texts = texts_of(alloc, plays.as_slice(), run.columns())?;
    Ok(View {
        run,
        events,
        window,
        texts,
        notes,
    })
}
