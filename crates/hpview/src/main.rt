//! The program `hpview`. It gets the real words, readers and writer, calls `hpview_run::end_status`, and ends with the status that
//! this call answers.
//!
//! Only tested: its stored run, with real streams and files.
#![tactic(auto)]

use hpview_run::end_status;
use outside_files::start::{NULL_DEVICE, TRACE_NAME, both_ways, words, words_of};
use std::alloc::Global;
use std::fs::File;
use std::process::ExitCode;
use std::{env, io};

fn main(rt: HostRuntime) -> ExitCode {
    let how = both_ways();
    let _input = how.open(&rt, NULL_DEVICE);
    let _output = how.open(&rt, NULL_DEVICE);
    let _error = how.open(&rt, NULL_DEVICE);
    let words = words_of(rt.alloc(), words(rt.alloc(), env::args(&rt)));
    let trace = File::open(&rt, TRACE_NAME);
    let mut errors = rt.stderr();
    let status = end_status(
        rt.alloc(),
        words,
        rt.reader(),
        trace,
        io::writer(&rt),
        &mut errors,
    );
    ExitCode::from(status)
}
