// What the words of a line say.
ghost use Rattle.std.specs.Prelude.{◌≡◌, true, false};
ghost use Rattle.trace_reader.specs.declared.verbs.Command.TheVariants as commands;
ghost use Rattle.trace_reader.specs.declared.verbs.Verb.TheVariants as verbs;
ghost use Rattle.trace_reader.specs.Reading.{none, transfer_form, command_form, burst_form, verdict_form, told_form, deed_form, line_form, first, line_in, words_of};
ghost use Rattle.trace_reader.specs.declared.line.TraceLine.TheVariants.{Idle};

use crate::fault::TraceKind;
use crate::line::TraceLine;
use crate::verbs::{Command, Verb};
use crate::words::{Words, plain_verdict, verb};
use script_lines::is_word;
use trace_lines::Told;

/// The largest cylinder, sector, and block of any drive.
const MOST_CYLINDER: u32 = 822;

const MOST_SECTOR: u32 = 31;

const MOST_BLOCK: u32 = 500_383;

/// Gives `told`, if no word is left.
fn last(told: Told, words: &mut Words) -> Result<Told, TraceKind>
    ensures { result ≡ none told words.old }
{
    match words.next() {
        None => Ok(told),
        Some(_) => Err(TraceKind::Word),
    }
}

/// `C S`
#[tactic(auto, using(crate::proofs::TakenLaws::first_taken, crate::proofs::TakenLaws::first_fault))]
fn search(words: &mut Words) -> Result<Told, TraceKind>
    ensures { result ≡ command_form commands.Search words.old }
{
    let cylinder = words.decimal(0, MOST_CYLINDER)?;
    let sector = words.decimal(0, MOST_SECTOR)?;
    last(Told::Search { cylinder, sector }, words)
}

/// `C`
#[tactic(auto, using(crate::proofs::TakenLaws::first_taken, crate::proofs::TakenLaws::first_fault))]
fn seek(words: &mut Words) -> Result<Told, TraceKind>
    ensures { result ≡ command_form commands.Seek words.old }
{
    let cylinder = words.decimal(0, MOST_CYLINDER)?;
    last(Told::Seek { cylinder }, words)
}

/// `CODE`
#[tactic(auto, using(crate::proofs::TakenLaws::first_taken, crate::proofs::TakenLaws::first_fault))]
fn offset(words: &mut Words) -> Result<Told, TraceKind>
    ensures { result ≡ command_form commands.Offset words.old }
{
    let code = words.offset_code()?;
    last(Told::Offset { code }, words)
}

/// `B N`
#[tactic(auto, using(crate::proofs::TakenLaws::first_taken, crate::proofs::TakenLaws::first_fault))]
fn transfer(write: bool, words: &mut Words) -> Result<Told, TraceKind>
    ensures { result ≡ transfer_form write words.old }
{
    let block = words.decimal(0, MOST_BLOCK)?;
    let count = words.decimal(1, 127)?;
    last(
        Told::Transfer {
            write,
            block,
            count,
        },
        words,
    )
}

/// What stands after a command's word.
fn commanded(command: Command, words: &mut Words) -> Result<Told, TraceKind>
    ensures { result ≡ command_form command words.old }
{
    match command {
        Command::Search => search(words),
        Command::Seek => seek(words),
        Command::Recal => last(Told::Recal, words),
        Command::Offset => offset(words),
        Command::Centre => last(Told::Centre, words),
        Command::Clear => last(Told::Clear, words),
        Command::Pack => last(Told::Pack, words),
        Command::Write => transfer(true, words),
        Command::Read => transfer(false, words),
    }
}

/// `AT PATTERN`
#[tactic(auto, using(crate::proofs::TakenLaws::first_taken, crate::proofs::TakenLaws::first_fault))]
fn burst(block: u32, words: &mut Words) -> Result<Told, TraceKind>
    ensures { result ≡ burst_form block words.old }
{
    let at = words.decimal(1, 4128)?;
    let pattern = words.pattern()?;
    let verdict = hardware_table::Moved::Burst {
        at: at as u16,
        pattern,
    };
    last(Told::Sector { block, verdict }, words)
}

/// A verdict.
#[tactic(auto, unfolding(crate::specs::Reading::verdict_form))]
fn verdict(block: u32, words: &mut Words) -> Result<Told, TraceKind>
    ensures { result ≡ verdict_form block words.old }
{
    let word = words.need()?;
    if is_word(word, b"burst".as_slice()) {
        return burst(block, words);
    }
    let verdict = plain_verdict(word)?;
    last(Told::Sector { block, verdict }, words)
}

/// `COMMAND ..`
#[tactic(auto, unfolding(crate::specs::Reading::told_form), using(crate::proofs::TakenLaws::first_taken, crate::proofs::TakenLaws::first_fault))]
fn cmd(words: &mut Words) -> Result<Told, TraceKind>
    ensures { result ≡ told_form verbs.Cmd words.old }
{
    let command = words.command()?;
    commanded(command, words)
}

/// `B VERDICT`
#[tactic(auto, unfolding(crate::specs::Reading::told_form), using(crate::proofs::TakenLaws::first_taken, crate::proofs::TakenLaws::first_fault))]
fn sector(words: &mut Words) -> Result<Told, TraceKind>
    ensures { result ≡ told_form verbs.Sector words.old }
{
    let block = words.decimal(0, MOST_BLOCK)?;
    verdict(block, words)
}

/// `B N`
#[tactic(auto, unfolding(crate::specs::Reading::told_form), using(crate::proofs::TakenLaws::first_taken, crate::proofs::TakenLaws::first_fault))]
fn failed(words: &mut Words) -> Result<Told, TraceKind>
    ensures { result ≡ told_form verbs.Try words.old }
{
    let block = words.decimal(0, MOST_BLOCK)?;
    let failures = words.decimal(1, 28)?;
    last(Told::Try { block, failures }, words)
}

/// What stands after the numbers of a line.
#[tactic(auto, unfolding(crate::specs::Reading::told_form))]
fn told(verb: Verb, words: &mut Words) -> Result<Told, TraceKind>
    ensures { result ≡ told_form verb words.old }
{
    match verb {
        Verb::Cmd => cmd(words),
        Verb::Arrive => last(Told::Arrive, words),
        Verb::Sector => sector(words),
        Verb::Intr => last(Told::Intr, words),
        Verb::Try => failed(words),
        Verb::Attn => last(Told::Attn, words),
        Verb::End => last(Told::End, words),
    }
}

/// What stands after the first word of a line of a unit.
#[tactic(auto, unfolding(crate::specs::Reading::deed_form), using(crate::proofs::TakenLaws::first_taken, crate::proofs::TakenLaws::first_fault))]
fn deed(verb: Verb, words: &mut Words) -> Result<TraceLine, TraceKind>
    ensures { result ≡ deed_form verb words.old }
{
    let line = words.decimal(1, 1_000_001)?;
    let unit = words.decimal(0, 31)?;
    let id = words.decimal(0, u32::MAX)?;
    let told = told(verb, words)?;
    Ok(TraceLine::Deed {
        line,
        unit: unit as u8,
        id,
        told,
    })
}

/// What stands after `idle`.
#[tactic(auto, using(crate::proofs::TakenLaws::first_taken, crate::proofs::TakenLaws::first_fault))]
fn idle(words: &mut Words) -> Result<TraceLine, TraceKind>
    ensures { result ≡ first line_in (λ line. none (Idle line)) words.old }
{
    let line = words.decimal(1, 1_000_001)?;
    match words.next() {
        None => Ok(TraceLine::Idle { line }),
        Some(_) => Err(TraceKind::Word),
    }
}

/// What words say.
#[tactic(auto, unfolding(crate::specs::Reading::line_form))]
fn said(words: &mut Words) -> Result<TraceLine, TraceKind>
    ensures { result ≡ line_form words.old }
{
    let word = words.need()?;
    if is_word(word, b"idle".as_slice()) {
        return idle(words);
    }
    let verb = verb(word)?;
    deed(verb, words)
}

/// What a text says as a line of a trace.
pub(crate) fn line_of(text: &[u8]) -> Result<TraceLine, TraceKind>
    ensures { result ≡ line_form (words_of text.now) }
{
    said(&mut Words::new(text))
}
