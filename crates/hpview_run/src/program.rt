ghost use Rattle.std.specs.Prelude.{◌≡◌, ◌↔◌, None, IfSome};
ghost use Rattle.hpview_run.specs.declared.status.Status.TheVariants.{OutOfMemory, Usage};
ghost use Rattle.hpview_run.specs.Statuses.{status_code, IsViewCode};
ghost use Rattle.hpview_run.specs.Words.{command_of as the_command};

use crate::trace_source::TraceSource;
use crate::{Status, view};
use outside_files::failure::PackNotes;
use outside_files::streams::{StdSink, StdSource};
use outside_traits::traits::{Sink, Source};
use reasons::ending::{Ending, Program};
use reasons::lines::text_fields;
use reasons::told::tell;
use reasons::words::bytes_of;
use std::alloc::Global;
use std::io;
use std::io::{Read, Write};

/// The words as bytes. There are none if there is no memory for them.
fn words_of<'a>(alloc: Global, words: &'a Option<Vec<String>>) -> Vec<&'a [u8]> {
    let list = match words {
        Some(words) => bytes_of(alloc, words.as_slice()),
        None => Ok(Vec::new(alloc)),
    };
    match list {
        Ok(list) => list,
        Err(_) => Vec::new(alloc),
    }
}

/// Runs the command that the words name and answers its status. The status is 9 if there was no memory for the words.
fn status_of<S: Source, T: Source, O: Sink>(
    alloc: Global,
    words: &Option<Vec<String>>,
    script: &mut S,
    trace: &mut T,
    out: &mut O,
) -> u8
    ensures no_words { words.now ≡ None → result ≡ status_code OutOfMemory }
    ensures usage { IfSome words.now (λ list. (result ≡ status_code Usage) ↔ (the_command list.items ≡ None)) }
    ensures statuses { IsViewCode result }
{
    match words {
        Some(words) => view(alloc, words.as_slice(), script, trace, out),
        None => Status::OutOfMemory.code(),
    }
}

/// Runs the command that the words name, as `crate::view` does, and answers its status. The script comes from a reader, the trace
/// from its file if that could be opened, and the picture goes to a writer. The status is 9 if there was no memory for the words.
/// Unless the status is 0, this call prints the reason on `errors`. If that fails, the failure is ignored.
pub fn end_status<R: Read + Drop, T: Read + Drop, W: Write + Drop, E: Write>(
    alloc: Global,
    words: Option<Vec<String>>,
    script: R,
    trace: io::Result<T>,
    writer: W,
    errors: &mut E,
) -> u8
    ensures no_words { words ≡ None → result ≡ status_code OutOfMemory }
    ensures usage { IfSome words (λ list. (result ≡ status_code Usage) ↔ (the_command list.items ≡ None)) }
    ensures statuses { IsViewCode result }
{
    let mut script = StdSource::new(script);
    script.keep(alloc);
    let mut trace = TraceSource::new(trace);
    let mut out = StdSink::new(writer);
    let status = status_of(alloc, &words, &mut script, &mut trace, &mut out);
    let said = words_of(alloc, &words);
    let text = text_fields(alloc, out.notes().last_piece());
    let ending = Ending {
        program: Program::Hpview,
        words: said.as_slice(),
        status,
        script: script.notes(),
        packs: PackNotes::new(),
        trace: trace.first_failure(),
        out: text.as_slice(),
        output: out.notes(),
    };
    let _ = tell(alloc, &ending, errors);
    status
}
