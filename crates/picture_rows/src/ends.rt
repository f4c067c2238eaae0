// Charts, tables, trace events, refusals, and what fails.
use crate::views::{status_of, view_of};
use mass_outside::mem_streams::{MemSink, MemSource};
use std::alloc::{AllocError, Global};

/// A read of one block, and its trace.
const READ: &[u8] = b"unit 0 rp06\nread 1 0 c 0 1\n";

const TRACE: &[u8] =
    b"cmd 2 0 1 search 0 19\narrive 3 0 1\nattn 3 0 1\ncmd 3 0 1 rcom 0 1\nsector 3 0 1 0 clean\nintr 3 0 1\nend 3 0 1\n";

/// The same script with a line that is none.
const WORD: &[u8] = b"unit 0 rp06\nread 1 0 c 0 1\nnothing\n";

const USAGE: &[u8] =
    b"usage: hpview summary, or svg, text, tsv or json [FROM TO] < SCRIPT, with the trace in hp.trace\n";

/// A command with its script and its trace, its status, and what it prints.
type End = (
    &'static str,
    &'static [u8],
    &'static [u8],
    u8,
    &'static [u8],
);

/// Charts of whole runs and of a part of one, of a run of nothing, tables, trace events, and refusals.
static ENDS: [End; 19] = [
    (
        "text 3 6",
        b"# Two flipped bits that lie close together are repaired in memory.\nunit 0 rp06\nwrite 1 0 c 5 1 fill 5a\ndrain\nnoise 0 5 1 4 12\nturn 0 0\nread 2 0 c 5 1\n",
        b"cmd 3 0 1 wcom 5 1\nsector 4 0 1 5 clean\nintr 4 0 1\nend 4 0 1\ncmd 7 0 2 rcom 5 1\nsector 8 0 2 5 burst 5 401\nintr 8 0 2\ncmd 8 0 2 dclr\nend 8 0 2\n",
        0,
        b"Two flipped bits that lie close together are repaired in memory.\nRequests: 2; ok: 2; served out of the order asked: 0.\nEvents: 8; to a column: 1.\nDrives: 1; positioning at once, at most: 0.\nEvents after which sectors moved: 2; and another drive positioned: 0.\n\nline              4567\nadapter 0 held by    0\nunit 0 rp06       ...#\n  marks           vn@q\n  arm to 0        0000\n  queue              1\nevent             3           \n\n   request op    unit cylinder   asked answered answer       done queued on way  ready  trans  turn\n         1 write    0        0       3        4 ok              1      0      0      0      2    1 \n         2 read     0        0       7        8 ok              1      0      0      0      2    2 \n\ndrive  . idle  S arm moves  s turns to its sector  C recalibrates\n       O sets an offset  ! arrived, attention up  : ready, adapter busy  # sectors move\n       T tries again  R at a replacement  ^ moved, interrupt up\nmarks  q asked for  ' attention up  a taken  i interrupt taken  o sector  v ok  B burst, repaired\n       E not repairable  F fault  M marked  x offline  t try failed  X stopped  + - offset\n       n noise  f fault armed  @ turned  d offline  u online  l locked  k unlocked  P acknowledged\narm    0 to 9, from cylinder 0 to the highest         queue  requests not answered, + above 9\n",
    ),
    (
        "text",
        READ,
        TRACE,
        0,
        b"A run of hpsim\nRequests: 1; ok: 1; served out of the order asked: 0.\nEvents: 5; to a column: 1.\nDrives: 1; positioning at once, at most: 1; first at line: 2.\nEvents after which sectors moved: 1; and another drive positioned: 0.\n\nline              23   \nadapter 0 held by   00 \n  positioning     1    \nunit 0 rp06       s!#^.\n  marks           q'aov\n  arm to 0        00000\n  queue           1111 \nevent             1           \n\n   request op    unit cylinder   asked answered answer       done queued on way  ready  trans  turn\n         1 read     0        0       2        3 ok              1      0      2      0      2    1 \n\ndrive  . idle  S arm moves  s turns to its sector  C recalibrates\n       O sets an offset  ! arrived, attention up  : ready, adapter busy  # sectors move\n       T tries again  R at a replacement  ^ moved, interrupt up\nmarks  q asked for  ' attention up  a taken  i interrupt taken  o sector  v ok  B burst, repaired\n       E not repairable  F fault  M marked  x offline  t try failed  X stopped  + - offset\n       n noise  f fault armed  @ turned  d offline  u online  l locked  k unlocked  P acknowledged\narm    0 to 9, from cylinder 0 to the highest         queue  requests not answered, + above 9\n",
    ),
    (
        "text",
        b"",
        b"",
        0,
        b"A run of hpsim\nRequests: 0; ok: 0; served out of the order asked: 0.\nEvents: 0; to a column: 1.\nDrives: 0; positioning at once, at most: 0.\nEvents after which sectors moved: 0; and another drive positioned: 0.\n\n   request op    unit cylinder   asked answered answer       done queued on way  ready  trans  turn\n\ndrive  . idle  S arm moves  s turns to its sector  C recalibrates\n       O sets an offset  ! arrived, attention up  : ready, adapter busy  # sectors move\n       T tries again  R at a replacement  ^ moved, interrupt up\nmarks  q asked for  ' attention up  a taken  i interrupt taken  o sector  v ok  B burst, repaired\n       E not repairable  F fault  M marked  x offline  t try failed  X stopped  + - offset\n       n noise  f fault armed  @ turned  d offline  u online  l locked  k unlocked  P acknowledged\narm    0 to 9, from cylinder 0 to the highest         queue  requests not answered, + above 9\n",
    ),
    (
        "tsv",
        READ,
        TRACE,
        0,
        b"id\tunit\top\tcylinder\tline\tanswer\tqueued\tway\tready\ttransfer\n1\t0\tread\t0\t2\tok\t0\t2\t0\t2\n",
    ),
    (
        "tsv",
        b"",
        b"",
        0,
        b"id\tunit\top\tcylinder\tline\tanswer\tqueued\tway\tready\ttransfer\n",
    ),
    ("tsv 6 9", READ, TRACE, 10, b"refused window 5\n"),
    (
        "summary",
        READ,
        TRACE,
        0,
        b"unit\trequests\tok\tout of order\tmean wait\tmedian wait\tgreatest wait\tcylinders moved\tin the order asked\n0\t1\t1\t0\t0.00\t0.00\t0\t0\t0\nall\t1\t1\t0\t0.00\t0.00\t0\t0\t0\n",
    ),
    (
        "json",
        READ,
        TRACE,
        0,
        b"{\"traceEvents\":[\n{\"ph\":\"M\",\"pid\":0,\"tid\":0,\"ts\":0,\"name\":\"process_name\",\"args\":{\"name\":\"hpview\"}},\n{\"ph\":\"M\",\"pid\":1,\"tid\":1,\"ts\":0,\"name\":\"process_name\",\"args\":{\"name\":\"mba adapter 0\"}},\n{\"ph\":\"M\",\"pid\":1,\"tid\":1,\"ts\":0,\"name\":\"thread_name\",\"args\":{\"name\":\"rp06 unit 0\"}},\n{\"ph\":\"X\",\"pid\":1,\"tid\":1,\"ts\":0,\"dur\":1,\"name\":\"turns to its sector\"},\n{\"ph\":\"X\",\"pid\":1,\"tid\":1,\"ts\":1,\"dur\":1,\"name\":\"arrived, attention up\"},\n{\"ph\":\"X\",\"pid\":1,\"tid\":1,\"ts\":2,\"dur\":1,\"name\":\"sectors move\"},\n{\"ph\":\"X\",\"pid\":1,\"tid\":1,\"ts\":3,\"dur\":1,\"name\":\"moved, interrupt up\"},\n{\"ph\":\"C\",\"pid\":1,\"tid\":1,\"ts\":0,\"name\":\"cylinder of unit 0\",\"args\":{\"cylinder\":0}},\n{\"ph\":\"C\",\"pid\":1,\"tid\":1,\"ts\":0,\"name\":\"queue of unit 0\",\"args\":{\"queue\":1}},\n{\"ph\":\"C\",\"pid\":1,\"tid\":1,\"ts\":1,\"name\":\"cylinder of unit 0\",\"args\":{\"cylinder\":0}},\n{\"ph\":\"C\",\"pid\":1,\"tid\":1,\"ts\":1,\"name\":\"queue of unit 0\",\"args\":{\"queue\":1}},\n{\"ph\":\"C\",\"pid\":1,\"tid\":1,\"ts\":2,\"name\":\"cylinder of unit 0\",\"args\":{\"cylinder\":0}},\n{\"ph\":\"C\",\"pid\":1,\"tid\":1,\"ts\":2,\"name\":\"queue of unit 0\",\"args\":{\"queue\":1}},\n{\"ph\":\"C\",\"pid\":1,\"tid\":1,\"ts\":3,\"name\":\"cylinder of unit 0\",\"args\":{\"cylinder\":0}},\n{\"ph\":\"C\",\"pid\":1,\"tid\":1,\"ts\":3,\"name\":\"queue of unit 0\",\"args\":{\"queue\":1}},\n{\"ph\":\"C\",\"pid\":1,\"tid\":1,\"ts\":4,\"name\":\"cylinder of unit 0\",\"args\":{\"cylinder\":0}},\n{\"ph\":\"C\",\"pid\":1,\"tid\":1,\"ts\":4,\"name\":\"queue of unit 0\",\"args\":{\"queue\":0}},\n{\"ph\":\"b\",\"pid\":1,\"tid\":1,\"ts\":0,\"cat\":\"request\",\"id\":1,\"name\":\"read 1\",\"args\":{\"line\":2,\"answer\":\"ok\",\"queued\":0,\"way\":2,\"ready\":0,\"transfer\":2}},\n{\"ph\":\"e\",\"pid\":1,\"tid\":1,\"ts\":4,\"cat\":\"request\",\"id\":1,\"name\":\"read 1\"}\n]}\n",
    ),
    ("summary 1 2", READ, TRACE, 2, USAGE),
    ("svg", WORD, TRACE, 3, b"refused line 3 word\n"),
    ("text", WORD, TRACE, 3, b"refused line 3 word\n"),
    (
        "svg",
        READ,
        b"cmd 2 0 1 search 0 19\narrive 3 0 1\nattn 3 0 1\ncmd 3 0 1 rcom 0 1\nsector 3 0 1 0 clean\nintr 3 0 1\nend 3 0 1\nend 2 0 1\n",
        3,
        b"refused trace line 8 order\n",
    ),
    (
        "text",
        READ,
        b"cmd 2 0 1 search 0 19\narrive 3 0 1\nattn 3 0 1\ncmd 3 0 1 rcom 0 1\nsector 3 0 1 0 clear\nintr 3 0 1\nend 3 0 1\n",
        3,
        b"refused trace line 5 word\n",
    ),
    (
        "svg",
        READ,
        b"cmd 2 0 1 search 0 19\narrive 3 0 1\nattn 3 0 1\ncmd 3 0 1 rcom 0 1\nsector 3 0 1 0 clean\nintr 3 0 1\nend 3 0 1\nidle 9\n",
        3,
        b"refused trace line 8 script\n",
    ),
    (
        "svg",
        READ,
        b"cmd 2 0 1 search 0 19\narrive 3 0 1\nattn 3 0 1\ncmd 3 0 1 rcom 0 1\nsector 3 0 1 0 clean\nintr 3 0 1\nend 3 0 1x",
        3,
        b"refused trace line 7 word\n",
    ),
    ("svg 5 3", READ, TRACE, 2, USAGE),
    ("svg 0 3", READ, TRACE, 2, USAGE),
    ("text 3", READ, TRACE, 2, USAGE),
    ("draw", READ, TRACE, 2, USAGE),
];

/// Whether a command ends as its row says, and prints exactly the text of that row.
fn ends_so(alloc: Global, end: &End) -> bool {
    let (line, script, trace, status, text) = *end;
    let ended = view_of(alloc, line, script, trace);
    ended.status == status && ended.out.as_slice() == text
}

#[test]
fn each_end(rt: HostRuntime) {
    for end in &ENDS {
        assert!(rt; ends_so(rt.alloc(), end), "{}", end.0);
    }
}

/// A source whose call of this number fails.
fn source(alloc: Global, bytes: &[u8], fault: u64) -> Result<MemSource, AllocError> {
    let faults = Vec::from_slice(alloc, &[fault])?;
    Ok(MemSource::new(Vec::from_slice(alloc, bytes)?, faults))
}

/// What comes if the calls with these numbers of the script's source, of the trace's and of the sink fail; 0 stands for no call: the
/// status, and how much is printed.
fn failed(alloc: Global, script: u64, trace: u64, out: u64) -> Option<(u8, usize)> {
    let faults = Vec::from_slice(alloc, &[out]).ok()?;
    let mut out = MemSink::new(alloc, 100_000, faults).ok()?;
    let mut script = source(alloc, ENDS[0].1, script).ok()?;
    let mut trace = source(alloc, ENDS[0].2, trace).ok()?;
    let status = status_of(alloc, "svg", &mut script, &mut trace, &mut out);
    Some((status, out.taken().len()))
}

#[test]
fn what_fails(rt: HostRuntime) {
    let script = failed(rt.alloc(), 1, 0, 0);
    let trace = failed(rt.alloc(), 0, 1, 0);
    let out = failed(rt.alloc(), 0, 0, 1);
    assert!(rt; script == Some((4, 0)) && trace == Some((4, 0)) && out == Some((5, 0)));
}
