// Why a run ended.
use crate::lines::{check_line, fields_of, kind_of_unit, line_of};
use crate::sentence::Piece::{Error, Number, Text, Word};
use crate::sentence::{Sentence, say};
use crate::words::{check_command, check_view, is, target, text_of, value, word};
use outside_files::failure::{Deed, PackNotes, SinkNotes, SourceNotes};
use outside_files::folder::Part;
use pack_geometry::{DriveKind, blocks, data_limit, replacement};
use partitions::{part_of, part_range};
use std::alloc::Global;
use std::io;
use std::io::ErrorKind;

/// Which program ran.
#[derive(Clone, Copy)]
pub enum Program {
    Hpsim,
    Hpview,
}

/// What is known of a run that ended: its program, its words, its status, and what its files and streams kept.
#[derive(Clone, Copy)]
pub struct Ending<'a> {
    pub program: Program,
    pub words: &'a [&'a [u8]],
    pub status: u8,
    pub script: &'a SourceNotes,
    pub packs: PackNotes,
    pub out: &'a [&'a [u8]],
    pub output: &'a SinkNotes,
    pub trace: Option<(Deed, io::Error)>,
}

/// Why a line of a trace was refused, by the word for the kind of refusal. {0} is the line.
const TRACE_FAULTS: &str = "\
long: line {0} of hp.trace: the trace has more than 268435456 bytes
word: line {0} of hp.trace: the text is not a line of a trace
order: line {0} of hp.trace: its event comes before that of the line above
ended: line {0} of hp.trace: a line above has ended its request: it is perhaps the trace of another run
script: line {0} of hp.trace: no line of the script asks for it: it is perhaps the trace of another script
";

/// Why a line of a script was refused, by the word for the kind of refusal. {0} is the unit or the id.
const LINE_FAULTS: &str = "\
linelong: the line has more than 140000 bytes
toomany: the script is too long: it may have at most 1000000 lines, 65536 requests and 4096 'noise' lines
lateunit: 'unit' lines must come before all other lines
unittwice: unit {0} is declared already
unitunknown: unit {0} is not declared: a line 'unit U KIND' must come before
idtwice: id {0} is used already, and each request needs an id of its own
";

/// Why `bad144` or `format` refused, by a word of what it printed. {0} is the unit, {1} its kind of drive, {2} the number that follows
/// the word, {3} the block of the replacement of that number, {4} the block that the command names, and {5} the last data block.
const TOOL_FAULTS: &str = "\
reserved: block {4} of an {1} is not a data block: data blocks are 0 to {5}, and replacements and tables follow them
listed: block {4} is listed already, as entry {2}
full: the table of hp{0}.dsk is full: it has 126 entries
spare: replacement {2} of hp{0}.dsk (block {3}) is needed, but it is marked in hp{0}.bad
differs: block {2} of hp{0}.dsk does not read back as it was written: the blocks up to it are empty now, and no table was written
table: hp{0}.dsk has no bad-sector table for an {1}: 'hpsim bad144 fresh {0} {1} SERIAL' writes an empty one
copy: hp{0}.dsk has no room for a table: all five places are marked in hp{0}.bad
many: hp{0}.bad marks {2} data blocks, and a table lists at most 126
";

/// What a command may not have memory for.
const NEEDS: &str = "\
play: the script, its requests and what they move
cached: the script and the cache
exercise: the exercise and its packs
format: the drive that tests the pack
raw: the bytes that are moved
dump: the bytes that are moved
";

/// The name of a kind of drive, in lower case.
pub(crate) fn kind_name(kind: DriveKind) -> &'static str {
    match kind {
        DriveKind::Rp06 => "rp06",
        DriveKind::Rm03 => "rm03",
        DriveKind::Rm05 => "rm05",
    }
}

/// The script, if it was kept.
fn script_of<'a>(ending: &Ending<'a>) -> &'a [u8] {
    match &ending.script.kept {
        Some(kept) => kept.as_slice(),
        None => b"",
    }
}

/// Why a line of the script was refused, from the word for the kind of refusal. None if there is no memory.
fn line_refusal<'a>(
    alloc: Global,
    ending: &Ending<'a>,
    line: u64,
    kind: &'a [u8],
) -> Option<Sentence<'a>> {
    let script = script_of(ending);
    let fields = fields_of(alloc, line_of(script, line)).ok()?;
    let fields = fields.as_slice();
    let is_request = matches!(word(fields, 0), b"read" | b"write");
    let named = 1 + usize::from(is_request && !is(kind, "idtwice"));
    if let Some(text) = text_of(LINE_FAULTS, kind) {
        return Some(say(text, &[Word(word(fields, named))]).in_line(line));
    }
    let is_cached = is(word(ending.words, 0), "cached");
    if let Err(fault) = check_line(script, fields, is_cached) {
        return Some(fault.in_line(line));
    }
    let bits = "BITS must be 1 to 64 places from 0 to 4127, each greater than the one before";
    let other = "line {0} of the script is refused: {1}";
    Some(if is(kind, "bits") {
        say(bits, &[]).in_line(line)
    } else {
        say(other, &[Number(line), Word(kind)])
    })
}

/// Why the script or the trace was refused. None if there is no memory.
fn refusal<'a>(alloc: Global, ending: &Ending<'a>) -> Option<Sentence<'a>> {
    match ending.out {
        [_, _, _, b"scriptlong"] => Some(say("the script has more than 16777216 bytes", &[])),
        [_, _, line, kind] => line_refusal(alloc, ending, value(line), kind),
        [_, _, _, line, kind] => {
            let text = text_of(TRACE_FAULTS, kind)?;
            Some(say(text, &[Number(value(line))]))
        }
        _ => None,
    }
}

/// The reason if an image is too long.
fn long_image<'a>(ending: &Ending<'a>) -> Option<Sentence<'a>> {
    let unit = value(word(ending.out, 3));
    let length = value(ending.out.get(5)?);
    let kind = match target(ending.words) {
        Some((_, kind)) => kind,
        None => kind_of_unit(script_of(ending), unit.min(31) as u8)?,
    };
    let whole = u64::from(blocks(kind)).saturating_mul(512);
    let text =
        "hp{0}.dsk has {1} bytes, and a whole {2} has {3}: if that is the right kind, the rest may be a footer of SIMH's, which 'truncate -s {3} hp{0}.dsk' removes";
    let kind = Text(kind_name(kind));
    Some(say(text, &[Number(unit), Number(length), kind, Number(whole)]))
}

/// Why `bad144` or `format` refused.
fn tool_refusal<'a>(ending: &Ending<'a>) -> Option<Sentence<'a>> {
    let (unit, drive) = target(ending.words)?;
    let at = match word(ending.out, 1) {
        b"no" | b"too" => 2,
        _ => 1,
    };
    let number = value(word(ending.out, at + 1));
    let spare = replacement(drive, number.min(125) as u32);
    let last = data_limit(drive).saturating_sub(1);
    let pieces = [
        Number(u64::from(unit)),
        Text(kind_name(drive)),
        Number(number),
        Number(u64::from(spare)),
        Number(value(word(ending.words, 4))),
        Number(u64::from(last)),
    ];
    Some(say(text_of(TOOL_FAULTS, word(ending.out, at))?, &pieces))
}

/// Why a transfer was refused. A dump covers whole blocks at the end of partition `b`.
fn transfer_refusal<'a>(ending: &Ending<'a>) -> Option<Sentence<'a>> {
    let (unit, drive) = target(ending.words)?;
    let letter = ending.words.get(4).copied().unwrap_or(b"b");
    let part = part_of(*letter.first()?)?;
    let whole = u64::from(part_range(drive, part).size).saturating_mul(512);
    let given = ending.script.given;
    let (most, at, size) = match ending.words {
        [_, _, _, _, _, at, size] => (u64::MAX, value(at), value(size)),
        [_, _, _, _, _, at] => (16_777_216, value(at), given),
        _ => {
            let size = given.div_ceil(512).saturating_mul(512);
            (8_388_608, whole.saturating_sub(size), size)
        }
    };
    let part = Text(str::from_utf8(letter).unwrap_or(""));
    let kind = Text(kind_name(drive));
    let end = at.saturating_add(size);
    if given > most {
        let text = "standard input has more than {0} bytes, the most that is written at once";
        return Some(say(text, &[Number(most)]));
    }
    if end > whole {
        let last = Number(end.saturating_sub(1).max(at));
        return Some(say(
            "bytes {0} to {1} reach beyond partition {2} of an {3}, which has {4} bytes ({5} blocks)",
            &[
                Number(at),
                last,
                part,
                kind,
                Number(whole),
                Number(whole / 512),
            ],
        ));
    }
    let (done, what) = match ending.out {
        _ if is(word(ending.words, 1), "read") => (ending.output.taken, "read"),
        [_, _, done] => (value(done), "written"),
        _ => return None,
    };
    let block = Number(at.saturating_add(done) / 512);
    let unit = Number(u64::from(unit));
    Some(say(
        "block {0} of partition {1} of hp{2}.dsk is marked and has no good replacement: {3} bytes before it were {4}",
        &[block, part, unit, Number(done), Text(what)],
    ))
}

/// What a call on a file tried.
fn tried(deed: Deed) -> &'static str {
    match deed {
        Deed::Open => "open",
        Deed::Make => "open or make",
        Deed::Read => "read",
        Deed::Write => "write",
        Deed::Measure => "get the length of",
    }
}

/// The reason if a call on the packs failed. For `format`, `dump` and `raw` it says how far the command came.
fn pack_failure<'a>(ending: &Ending<'a>) -> Option<Sentence<'a>> {
    let (call, error) = ending.packs.failures.first?;
    let suffix = match call.part {
        Part::Image => "dsk",
        Part::Marks => "bad",
    };
    let writes = matches!(word(ending.words, 0), b"format" | b"dump" | b"raw");
    let text = match ending.packs.written {
        _ if !writes => "cannot {0} hp{1}.{2}: {3}",
        0 => "cannot {0} hp{1}.{2}: {3}; no block was written before",
        1 => "cannot {0} hp{1}.{2}: {3}; one block was written before, block {5} of the pack",
        _ =>
            "cannot {0} hp{1}.{2}: {3}; {4} blocks were written before, the last one block {5} of the pack",
    };
    let pieces = [
        Text(tried(call.deed)),
        Number(u64::from(call.unit)),
        Text(suffix),
        Error(error),
        Number(ending.packs.written),
        Number(u64::from(ending.packs.last)),
    ];
    Some(say(text, &pieces))
}

/// The reason if a stream or the file of the trace failed.
fn stream_failure<'a>(ending: &Ending<'a>) -> Option<Sentence<'a>> {
    let (stream, text) = match ending.status {
        4 => (
            ending.script.failures.first,
            "cannot read standard input: {0}",
        ),
        _ => (
            ending.output.failures.first,
            "cannot write to standard output: {0}",
        ),
    };
    if let Some((_, error)) = stream {
        return Some(say(text, &[Error(error)]));
    }
    let (deed, error) = ending.trace?;
    let text = match deed {
        Deed::Read if error.kind() == ErrorKind::NotFound => {
            "there is no hp.trace in this folder: run 'hpsim play' first"
        }
        _ => "cannot {0} hp.trace: {1}",
    };
    Some(say(text, &[Text(tried(deed)), Error(error)]))
}

/// Why the events that the words of `hpview` name were refused: the run ends before the first of them.
fn window_refusal<'a>(ending: &Ending<'a>) -> Option<Sentence<'a>> {
    let from = Number(value(word(ending.words, 1)));
    let events = Number(value(ending.out.get(2)?));
    let text = "the run ends before event {0}: the number of its events is {1}";
    Some(say(text, &[from, events]))
}

/// The reason if there was no memory.
fn no_memory<'a>(ending: &Ending<'a>) -> Sentence<'a> {
    let words = "the words of the command, or for what is read ahead";
    let what = match ending.program {
        Program::Hpsim => text_of(NEEDS, word(ending.words, 0)).unwrap_or(words),
        Program::Hpview => "the script, the trace and the picture",
    };
    say("there is not enough memory for {0}", &[Text(what)])
}

/// What is wrong with the words. None if nothing is found to be wrong.
fn words_fault<'a>(ending: &Ending<'a>) -> Option<Sentence<'a>> {
    let checked = match ending.program {
        Program::Hpsim => check_command(ending.words),
        Program::Hpview => check_view(ending.words),
    };
    checked.err()
}

/// The reason by the status and the program. None if it is not known.
fn known<'a>(alloc: Global, ending: &Ending<'a>) -> Option<Sentence<'a>> {
    match ending.status {
        2 => words_fault(ending),
        3 => refusal(alloc, ending),
        4 | 5 => stream_failure(ending),
        6 => pack_failure(ending),
        7 => long_image(ending),
        8 | 11 => tool_refusal(ending),
        9 => Some(no_memory(ending)),
        10 => match ending.program {
            Program::Hpsim => transfer_refusal(ending),
            Program::Hpview => window_refusal(ending),
        },
        _ => None,
    }
}

/// Why a run ended with a status other than 0.
pub(crate) fn reason<'a>(alloc: Global, ending: &Ending<'a>) -> Sentence<'a> {
    let status = Number(u64::from(ending.status));
    known(alloc, ending).unwrap_or(say("the run ended with status {0}", &[status]))
}
