// What `hpview` prints on standard error at each end.
use crate::rows::{Script, bytes_of, cut, ended_so, words};
use hpview_run::end_status;
use std::alloc::Global;
use std::io;
use std::io::{ErrorKind, sink};

/// Each row has a status, a command, its script, its trace, and its first line on standard error.
const ROWS: &str = "\
0 | text | unit 0 rp06; | |
2 | png | | | hpview: 'png' is not a valid FORM (svg, text, tsv, summary, json)
2 | summary 1 9 | | | hpview: '1' is one word too many
0 | tsv | unit 0 rp06; | |
2 | text 9 3 | | | hpview: '3' is not a valid TO (9 to 4294967295)
2 | --version | | | hpview 1.0.0
2 | help | | | usage:
3 | text | unit 0 rp06;read 1 0 c 0; | | hpview: line 2 of the script: COUNT is missing (1 to 127)
3 | text | unit 0 rp06; | idle x; | hpview: line 1 of hp.trace: the text is not a line of a trace
3 | text | unit 0 rp06; | idle 2;idle 1; | hpview: line 2 of hp.trace: its event comes before that of the line above
3 | text | unit 0 rp06;read 1 0 c 0 1; | end 3 0 1;end 3 0 1; | hpview: line 2 of hp.trace: a line above has ended its request: it is perhaps the trace of another run
3 | text | unit 0 rp06;read 1 0 c 0 1; | end 3 0 9; | hpview: line 1 of hp.trace: no line of the script asks for it: it is perhaps the trace of another script
10 | text 6 9 | unit 0 rp06;read 1 0 c 0 1; | cmd 2 0 1 search 0 19;arrive 3 0 1;attn 3 0 1;cmd 3 0 1 rcom 0 1;sector 3 0 1 0 clean;intr 3 0 1;end 3 0 1; | hpview: the run ends before event 6: the number of its events is 5
4 | text | ? | | hpview: cannot read standard input: invalid data
4 | text | unit 0 rp06; | missing | hpview: there is no hp.trace in this folder: run 'hpsim play' first
4 | text | unit 0 rp06; | forbidden | hpview: cannot read hp.trace: permission denied
9 | ? | | | hpview: there is not enough memory for the script, the trace and the picture
";

/// A trace as its file gives it. `missing` and `forbidden` stand for files that cannot be opened.
fn opened<'a>(trace: &'a [u8]) -> io::Result<&'a [u8]> {
    match trace {
        b"missing" => Err(io::Error::from(ErrorKind::NotFound)),
        b"forbidden" => Err(io::Error::from(ErrorKind::PermissionDenied)),
        _ => Ok(trace),
    }
}

/// Whether a command ends as its row says.
fn ends_so(alloc: Global, row: &str) -> io::Result<bool> {
    let (wanted, rest) = cut(row);
    let (command, rest) = cut(rest);
    let (script, rest) = cut(rest);
    let (trace, rest) = cut(rest);
    let (script, trace) = (bytes_of(alloc, script)?, bytes_of(alloc, trace)?);
    let words = words(alloc, command);
    let (script, trace) = (Script(script.as_slice()), opened(trace.as_slice()));
    let mut errors = Vec::new(alloc);
    let status = end_status(alloc, words, script, trace, sink(), &mut errors);
    Ok(ended_so(status, errors.as_slice(), wanted, cut(rest).0))
}

#[test]
fn each_view(rt: HostRuntime) {
    for row in ROWS.lines() {
        assert!(rt; matches!(ends_so(rt.alloc(), row), Ok(true)));
    }
}
