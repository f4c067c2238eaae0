// A command over a script and a trace in memory.
use hpview_run::view;
use mass_outside::streams::{StdSink, StdSource};
use mass_outside::traits::{Sink, Source};
use std::alloc::{AllocError, Global};

/// What a command came to.
#[derive(Drop)]
pub(crate) struct Ended {
    pub(crate) status: u8,
    pub(crate) out: Vec<u8>,
}

/// The words of a line, which single blanks separate.
fn words_of(alloc: Global, line: &str) -> Result<Vec<String>, AllocError> {
    let mut words = Vec::new(alloc);
    for word in line.split(' ') {
        words.push(String::from_str(alloc, word)?)?;
    }
    Ok(words)
}

/// The status of the command of a line; 9 if there is no memory for its words.
pub(crate) fn status_of<S: Source, T: Source, O: Sink>(
    alloc: Global,
    line: &str,
    script: &mut S,
    trace: &mut T,
    out: &mut O,
) -> u8 {
    match words_of(alloc, line) {
        Ok(words) => view(alloc, words.as_slice(), script, trace, out),
        Err(_) => 9,
    }
}

/// Runs the command of a line.
pub(crate) fn view_of(alloc: Global, line: &str, script: &[u8], trace: &[u8]) -> Ended {
    let mut out = Vec::new(alloc);
    let status = status_of(
        alloc,
        line,
        &mut StdSource::new(script),
        &mut StdSource::new(trace),
        &mut StdSink::new(&mut out),
    );
    Ended { status, out }
}
