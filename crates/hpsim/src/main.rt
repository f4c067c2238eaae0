//! The program `hpsim`. It gets the real words and streams, calls `hpsim_run::end_told`, and ends with the status that this call
//! answers.
//!
//! Only tested: its stored run, and its ends over real files in `end_rows`.
#![tactic(auto)]

use hpsim_run::end_told;
use outside_files::start::{NULL_DEVICE, TRACE_NAME, both_ways, words, words_of};
use std::alloc::Global;
use std::process::ExitCode;
use std::{env, io};

fn main(rt: HostRuntime) -> ExitCode {
    let how = both_ways();
    let _input = how.open(&rt, NULL_DEVICE);
    let _output = how.open(&rt, NULL_DEVICE);
    let _error = how.open(&rt, NULL_DEVICE);
    let words = words_of(rt.alloc(), words(rt.alloc(), env::args(&rt)));
    let mut errors = rt.stderr();
    let status = end_told(
        &rt,
        words,
        rt.reader(),
        io::writer(&rt),
        TRACE_NAME,
        &mut errors,
    );
    ExitCode::from(status)
}
