// The program over real files and streams. It prints on standard error why it ended.
ghost use Rattle.std.specs.Prelude.{◌≡◌, ◌⊎◌, None, IfSome};
ghost use Rattle.command_parts.specs.Statuses.{status_code};
ghost use Rattle.command_parts.specs.declared.status.Status.TheVariants.{OutOfMemory};
ghost use Rattle.hpsim_run.specs.Statuses.{IsStatusOf};
ghost use Rattle.pack_commands.specs.Words.{command_of as the_command};

use crate::{Status, end_status};
use outside_files::failure::PackNotes;
use outside_files::file_sink::FileSink;
use outside_files::files::FilePacks;
use outside_files::folder::PackFolder;
use outside_files::os_folder::OsFolder;
use outside_files::streams::{StdSink, StdSource};
use outside_traits::traits::{Sink, Source};
use pack_windows::window_packs::WindowPacks;
use reasons::ending::{Ending, Program};
use reasons::lines::text_fields;
use reasons::told::tell;
use reasons::warnings::warn;
use reasons::words::{bytes_of, names_script};
use std::alloc::Global;
use std::io::{Read, Write};
use std::os::unix::fs::FileExt;
use std::rt::Files;

/// Runs the command that the words name over packs in the files of a folder, which read ahead. Answers its status, and what these
/// packs keep so that a message can say why the run failed.
fn status_over<F: PackFolder + Drop, S: Source, O: Sink, T: Sink>(
    alloc: Global,
    words: Option<&[String]>,
    folder: F,
    script: &mut S,
    out: &mut O,
    trace: &mut T,
) -> (u8, PackNotes)
    ensures no_words { words.entry ≡ None → result.0 ≡ status_code OutOfMemory }
    ensures statuses { IfSome words.entry (λ list. IsStatusOf (the_command list.now) result.0 ⊎ (result.0 ≡ status_code OutOfMemory)) }
{
    match WindowPacks::new(alloc, FilePacks::over(folder)) {
        Ok(mut packs) => {
            let status = end_status(alloc, words, script, &mut packs, out, trace);
            (status, packs.behind().notes())
        }
        Err(_) => (Status::OutOfMemory.code(), PackNotes::new()),
    }
}

/// Runs the command that the words name over the packs in the working folder, and answers its status. The script comes from a reader,
/// the answers go to a writer, and the trace goes to a file of this name. Before the run, this call prints warnings on `errors`. After
/// the run, it prints the reason there unless the status is 0. If either cannot be printed, the failure is ignored.
pub fn end_told<R: Files + AllocGlobal + Copy, I: Read + Drop, O: Write + Drop, E: Write>(
    rt: R,
    words: Option<Vec<String>>,
    reader: I,
    writer: O,
    trace_name: &str,
    errors: &mut E,
) -> u8
where
    R::File: FileExt,
    ensures no_words { words ≡ None → result ≡ status_code OutOfMemory }
    ensures statuses { IfSome words (λ list. IsStatusOf (the_command list.items) result ⊎ (result ≡ status_code OutOfMemory)) }
{
    let alloc = rt.alloc();
    let words = match &words {
        Some(words) => Some(words.as_slice()),
        None => None,
    };
    let said = bytes_of(alloc, words.unwrap_or(&[])).unwrap_or(Vec::new(alloc));
    let _ = warn(&rt, said.as_slice(), errors);
    let mut script = StdSource::new(reader);
    if names_script(said.as_slice()) {
        script.keep(alloc);
    }
    let mut out = StdSink::new(writer);
    let mut trace = FileSink::new(rt, trace_name);
    let folder = OsFolder::new(rt);
    let (status, packs) = status_over(alloc, words, folder, &mut script, &mut out, &mut trace);
    let text = text_fields(alloc, out.notes().last_piece());
    let ending = Ending {
        program: Program::Hpsim,
        words: said.as_slice(),
        status,
        script: script.notes(),
        packs,
        out: text.as_slice(),
        output: out.notes(),
        trace: trace.first_failure(),
    };
    let _ = tell(alloc, &ending, errors);
    status
}
