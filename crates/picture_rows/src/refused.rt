// Traces that are read, and refused ones.
use crate::views::view_of;
use script_reader::read_script;
use std::alloc::Global;
use trace_reader::read_trace;

/// Reads of cylinders 10, 50, 20, 5 and 20 on one drive.
const ONE: &[u8] =
    b"# Five reads of cylinders 10, 50, 20, 5 and 20: the sorted queue serves them in two sweeps.\nunit 0 rp06\nread 1 0 c 4180 1\nread 2 0 c 20900 1\nread 3 0 c 8360 1\nread 4 0 c 2090 1\nread 5 0 c 8360 1\n";

/// Two drives seek at the same time, while a third transfers.
const THREE: &[u8] =
    b"# Two drives seek at the same time, while a third transfers.\nunit 0 rp06\nunit 1 rp06\nunit 2 rm03\nread 1 2 c 5 3\nread 2 0 c 4180 2\nwrite 3 1 c 8360 1 fill 33\nmove 0\narrive 1\nmove 0\narrive 0\nmove 0\nattend 0\n";

/// Traces of which the first line is none, beside a script that has no line.
static NO_LINE: [&[u8]; 30] = [
    b"\n",
    b"idle\n",
    b"idle 0\n",
    b"idle 01\n",
    b"idle 1000002\n",
    b"idle 5 \n",
    b" idle 5\n",
    b"idle  5\n",
    b"idle 5\r\n",
    b"arrive 1 32 0\n",
    b"arrive 1 31 4294967296\n",
    b"arrive 1 31\n",
    b"end 1 0 0 0\n",
    b"cmd 1 0 0\n",
    b"cmd 1 0 0 search 823 0\n",
    b"cmd 1 0 0 search 822 32\n",
    b"cmd 1 0 0 seek 823\n",
    b"cmd 1 0 0 recal 0\n",
    b"cmd 1 0 0 offset 400\n",
    b"cmd 1 0 0 rcom 500384 1\n",
    b"cmd 1 0 0 wcom 0 0\n",
    b"cmd 1 0 0 rcom 0 128\n",
    b"try 1 0 0 7 0\n",
    b"try 1 0 0 7 29\n",
    b"sector 1 0 0 7 burst 0 1\n",
    b"sector 1 0 0 7 burst 4129 1\n",
    b"sector 1 0 0 7 burst 1 4000\n",
    b"sector 1 0 0 7 burst 1 8\n",
    b"sector 1 0 0 7 burst 1\n",
    b"sector 1 0 0 7 bad\n",
];

/// A script, its trace, and what is told of the first faulty line: each further kind of refusal, and each two neighbours in the order
/// of the checks.
static REFUSED: [(&[u8], &[u8], &[u8]); 16] = [
    (
        b"",
        b"idle 1\nidle 1000001\nidle 1000002\n",
        b"refused trace line 3 word\n",
    ),
    (
        THREE,
        b"cmd 5 2 1 rcom 5 3\ncmd 6 0 2 search 10 19\ncmd 7 1 3 search 20 19\nsector 8 2 1 5 clean\ncmd 7 1 3 search 20 19\n",
        b"refused trace line 5 order\n",
    ),
    (
        ONE,
        b"cmd 5 2 1 rcom 5 3\ncmd 6 0 2 search 10 19\n",
        b"refused trace line 1 script\n",
    ),
    (
        THREE,
        b"cmd 5 2 1 rcom 5 3\ncmd 6 0 2 search 10 19\ncmd 7 1 3 search 20 19\nsector 8 2 1 05 clean\narrive 9 1 3\n",
        b"refused trace line 4 word\n",
    ),
    (b"", b"idle 5\n\nidle 4\n", b"refused trace line 2 word\n"),
    (
        b"",
        b"idle 5\nidle 4\nidle\n",
        b"refused trace line 2 order\n",
    ),
    (ONE, b"idle 9\n", b"refused trace line 1 script\n"),
    (
        ONE,
        b"arrive 8 0 1\nidle 9\nidle 8\n",
        b"refused trace line 2 script\n",
    ),
    (
        ONE,
        b"arrive 8 0 1\nidle 7\nidle 9\n",
        b"refused trace line 2 order\n",
    ),
    (ONE, b"arrive 3 0 2\n", b"refused trace line 1 script\n"),
    (ONE, b"arrive 4 1 1", b"refused trace line 1 script\n"),
    (
        ONE,
        b"end 8 0 1\nend 8 0 1\n",
        b"refused trace line 2 ended\n",
    ),
    (
        ONE,
        b"end 8 0 1\nend 8 0 2\narrive 8 0 1\nend 8 0 2\n",
        b"refused trace line 3 ended\n",
    ),
    (
        ONE,
        b"end 8 0 1\nend 7 0 1\n",
        b"refused trace line 2 order\n",
    ),
    (
        ONE,
        b"end 8 0 1\nend 8 0 6\n",
        b"refused trace line 2 script\n",
    ),
    (
        THREE,
        b"end 13 2 1\nend 14 0 2\nend 14 1 3\nend 14 2 1\n",
        b"refused trace line 4 ended\n",
    ),
];

/// Whether a trace is refused beside a script with the text that is told.
fn is_refused(alloc: Global, script: &[u8], trace: &[u8], told: &[u8]) -> bool {
    let ended = view_of(alloc, "text", script, trace);
    ended.status == 3 && ended.out.as_slice() == told
}

#[test]
fn first_faults(rt: HostRuntime) {
    for trace in &NO_LINE {
        assert!(rt; is_refused(rt.alloc(), b"", trace, b"refused trace line 1 word\n"));
    }
    for (script, trace, told) in &REFUSED {
        assert!(rt; is_refused(rt.alloc(), script, trace, told));
    }
}

/// Each form of a line, and the ends of its ranges. Beside a script that has no line, a request may end twice.
const FORMS: &[u8] =
    b"cmd 1 0 0 search 0 0\ncmd 1 31 4294967295 search 822 31\ncmd 1 0 0 seek 822\ncmd 1 0 0 recal\ncmd 1 0 0 offset +400\ncmd 1 0 0 offset -1200\ncmd 1 0 0 rtc\ncmd 1 0 0 dclr\ncmd 1 0 0 pack\ncmd 1 0 0 rcom 500383 1\ncmd 1 0 0 wcom 0 127\narrive 1 0 0\nsector 1 0 0 0 clean\nsector 1 0 0 7 burst 4128 3777\nsector 1 0 0 7 burst 1 1\nsector 1 0 0 7 ecc\nsector 1 0 0 7 mark\nsector 1 0 0 7 seek\nsector 1 0 0 7 opi\nsector 1 0 0 7 dte\nsector 1 0 0 7 hcrc\nsector 1 0 0 7 late\nsector 1 0 0 7 offline\nintr 1 0 0\ntry 1 0 0 7 1\ntry 1 0 0 7 28\nattn 1 0 0\nend 2 0 0\nend 2 0 0\n";

/// How many lines of a trace are read beside a script that has no line.
fn count_of_lines(alloc: Global, trace: &[u8]) -> Option<usize> {
    let Ok(script) = read_script(alloc, Vec::new(alloc)) else {
        return None;
    };
    match read_trace(alloc, trace, &script) {
        Ok(lines) => Some(lines.len()),
        Err(_) => None,
    }
}

#[test]
fn each_form(rt: HostRuntime) {
    assert!(rt; count_of_lines(rt.alloc(), FORMS) == Some(29));
}
