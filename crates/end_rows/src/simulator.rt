// What `hpsim` does at each end, in the working folder.
use crate::rows::{Script, bytes_of, cut, ended_so, words};
use hpsim_run::end_told;
use outside_files::start::TRACE_NAME;
use std::os::unix::fs::{FileExt, symlink};
use std::{fs, io};

/// The device that takes no byte and gives zeros.
const FULL: &str = "/dev/full";

/// The file for the answers.
const OUT: &str = "hp.out";

/// A file that even the superuser may only read.
const READ_ONLY: &str = "/proc/sys/kernel/ostype";

/// Each row has a status, a command, what it reads, its first line on standard error, and what files hold afterwards. The image of
/// unit 21 is a block too long, that of unit 20 is a folder, that of unit 19 is a link to itself, that of unit 18 is a full disk, and
/// that of unit 17 is a file that may only be read. Unit 16 has the table of an RM03. The image of unit 14 gives zeros whatever is
/// written to it. Marked are the first 127 blocks of unit 13, of unit 12 block 1 and all places of a table, and of unit 11 the first
/// replacement. Unit 11 has an empty table of an RM03, and unit 10 a full one. The image of unit 9 is a byte too long. The other units
/// have no files at first. If a run writes no trace, the trace of the run before stays.
const ROWS: &str = "\
0 | play | unit 22 rp06;read 1 22 c 0 1; | | hp.out=ans 1 at 3 ok;blk 0 fill 00; | hp.trace=cmd 2 22 1 search 0 19;arrive 3 22 1;attn 3 22 1;cmd 3 22 1 rcom 0 1;sector 3 22 1 0 clean;intr 3 22 1;end 3 22 1;
0 | bad144 fresh 22 rp06 7 | | | hp.out=serial 7;
0 | bad144 list 22 rp06 | | | hp.out=serial 7 entries 0;
2 | | | hpsim: COMMAND is missing (play, cached, bad144, format, raw, dump, exercise, help) | hp.out=usage: hpsim play or bad144 list/add/fresh or exercise N;
2 | ply | | hpsim: 'ply' is not a valid COMMAND (play, cached, bad144, format, raw, dump, exercise, help)
2 | bad144 list 0 rp07 | | hpsim: 'rp07' is not a valid KIND (rp06, rm03, rm05)
2 | bad144 list 32 rp06 | | hpsim: '32' is not a valid U (0 to 31)
2 | bad144 add 0 rp06 340670 | | hpsim: '340670' is not a valid BLOCK (0 to 340669)
2 | bad144 add 0 rm03 131680 | | hpsim: '131680' is not a valid BLOCK (0 to 131679)
2 | bad144 add 0 rp06 5 mark copy | | hpsim: 'copy' cannot stand there: only these may follow: [copy] [mark], in this order
2 | bad144 fresh 0 rp06 | | hpsim: SERIAL is missing (0 to 4294967295)
2 | bad144 lst 0 rp06 | | hpsim: 'lst' is not a valid word after bad144 (list, add, fresh, mark)
2 | bad144 mark 0 rp06 1 | | hpsim: '1' is one word too many
2 | raw read 0 rp06 i 0 1 | | hpsim: 'i' is not a valid PART (a, b, c, d, e, f, g, h)
2 | raw read 0 rp06 a 0 16777217 | | hpsim: '16777217' is not a valid LEN (0 to 16777216)
2 | cached 4097 | | hpsim: '4097' is not a valid N (1 to 4096)
2 | exercise -1 | | hpsim: '-1' is not a valid N (0 to 18446744073709551615)
2 | --version | | hpsim 1.0.0
2 | help | | usage:
2 | help raw | | usage:
3 | play | unit 22 rp06;read 1 22 c 0; | hpsim: line 2 of the script: COUNT is missing (1 to 127) | hp.out=refused line 2 word;
3 | play | unit 22 rp06;read 1 22 i 0 1; | hpsim: line 2 of the script: 'i' is not a valid PART (a, b, c, d, e, f, g, h)
3 | play | unit 22 rp06;read 1 22 c 0 1 # x; | hpsim: line 2 of the script: '#' cannot stand there: a comment is a line of its own that begins with #
3 | play | \u{FEFF}unit 22 rp06; | hpsim: line 1 of the script: it begins with a byte-order mark, so save the script without one
3 | play | unit 22 rp06;\u{E9} 22; | hpsim: line 2 of the script: '\\xc3\\xa9' is not a valid first word (unit, read, write, arrive, turn, move, attend, noise, fault, offline, online, lock, unlock, drain)
3 | play | read 1 22 c 0 1; | hpsim: line 1 of the script: unit '22' is not declared: a line 'unit U KIND' must come before
3 | play | unit 22 rp06;unit 22 rm03; | hpsim: line 2 of the script: unit '22' is declared already
3 | play | unit 22 rp06;drain;unit 20 rp06; | hpsim: line 3 of the script: 'unit' lines must come before all other lines
3 | play | unit 22 rp06;read 1 22 c 0 1;read 1 22 c 0 1; | hpsim: line 3 of the script: id '1' is used already, and each request needs an id of its own
3 | play | unit 22 rm03;turn 22 32; | hpsim: line 2 of the script: '32' is not a valid S (0 to 31)
3 | play | unit 22 rp06;read 1 22 c 0 128; | hpsim: line 2 of the script: '128' is not a valid COUNT (1 to 127)
3 | play | unit 22 rp06;write 1 22 c 0 1 fill 7g; | hpsim: line 2 of the script: '7g' is not a valid HH (2 hexadecimal digits)
3 | play | unit 22 rp06;noise 22 3 1 5 4; | hpsim: line 2 of the script: BITS must be 1 to 64 places from 0 to 4127, each greater than the one before
3 | play | unit 22 rp06;read 1 22 c 0 1 last 3 off 2; | hpsim: line 2 of the script: 'off' cannot stand there: only these may follow: [off N] [last M], in this order
3 | cached 4 | unit 22 rp06;read 1 22 c 0 1; | hpsim: line 2 of the script: 'c' is not a valid BLOCK (0 to 4294967295)
7 | play | unit 21 rp06; | hpsim: hp21.dsk has 174423552 bytes, and a whole rp06 has 174423040: if that is the right kind, the rest may be a footer of SIMH's, which 'truncate -s 174423040 hp21.dsk' removes
7 | play | unit 9 rp06; | hpsim: hp9.dsk has 174423041 bytes, and a whole rp06 has 174423040: if that is the right kind, the rest may be a footer of SIMH's, which 'truncate -s 174423040 hp9.dsk' removes | hp.out=too long unit 9 length 174423041;
7 | bad144 add 9 rp06 5 | | hpsim: hp9.dsk has 174423041 bytes, and a whole rp06 has 174423040: if that is the right kind, the rest may be a footer of SIMH's, which 'truncate -s 174423040 hp9.dsk' removes | hp.out=too long unit 9 length 174423041; | hp.trace=cmd 2 22 1 search 0 19;arrive 3 22 1;attn 3 22 1;cmd 3 22 1 rcom 0 1;sector 3 22 1 0 clean;intr 3 22 1;end 3 22 1;
4 | play | ? | hpsim: cannot read standard input: invalid data
4 | raw write 22 rp06 c 0 | ? | hpsim: cannot read standard input: invalid data
9 | ? | | hpsim: there is not enough memory for the words of the command, or for what is read ahead
6 | play | unit 20 rp06; | hpsim: cannot open hp20.dsk: Is a directory (os error 21)
6 | bad144 list 19 rp06 | | hpsim: cannot open hp19.dsk: Too many levels of symbolic links (os error 40)
6 | raw write 18 rp06 c 0 | hello | hpsim: cannot write hp18.dsk: No space left on device (os error 28); no block was written before
6 | play | unit 17 rp06;write 1 17 c 5 1 fill 77; | hpsim: cannot write hp17.dsk: Permission denied (os error 13)
6 | play | unit 18 rp06;read 1 18 c 5 1;drain;write 2 18 c 5 1 fill 77; | hpsim: cannot write hp18.dsk: No space left on device (os error 28) | hp.out=ans 1 at 3 ok;blk 0 fill 00; | hp.trace=cmd 2 18 1 rcom 5 1;sector 3 18 1 5 clean;intr 3 18 1;end 3 18 1;cmd 4 18 2 search 0 2;arrive 5 18 2;attn 5 18 2;cmd 5 18 2 wcom 5 1;
8 | bad144 add 16 rm03 131600 | | hpsim: block 131600 of an rm03 is not a data block: data blocks are 0 to 131521, and replacements and tables follow them
0 | bad144 add 16 rm03 5 copy | |
8 | bad144 add 16 rm03 5 | | hpsim: block 5 is listed already, as entry 0
8 | bad144 add 16 rp06 5 | | hpsim: hp16.dsk has no bad-sector table for an rp06: 'hpsim bad144 fresh 16 rp06 SERIAL' writes an empty one
8 | bad144 add 10 rm03 200 | | hpsim: the table of hp10.dsk is full: it has 126 entries
11 | format 14 rm03 1 | | hpsim: block 0 of hp14.dsk does not read back as it was written: the blocks up to it are empty now, and no table was written
11 | format 13 rm03 1 | | hpsim: hp13.bad marks 127 data blocks, and a table lists at most 126
11 | format 12 rm03 1 | | hpsim: hp12.dsk has no room for a table: all five places are marked in hp12.bad
10 | raw write 12 rm03 a 510 | hello | hpsim: block 1 of partition a of hp12.dsk is marked and has no good replacement: 2 bytes before it were written
10 | raw read 12 rm03 a 1 512 | | hpsim: block 1 of partition a of hp12.dsk is marked and has no good replacement: 511 bytes before it were read
8 | bad144 add 11 rm03 5 mark | | hpsim: replacement 0 of hp11.dsk (block 131647) is needed, but it is marked in hp11.bad
10 | raw read 16 rm03 f 5160950 11 | | hpsim: bytes 5160950 to 5160960 reach beyond partition f of an rm03, which has 5160960 bytes (10080 blocks)
10 | raw write 16 rm03 h 0 | x | hpsim: bytes 0 to 0 reach beyond partition h of an rm03, which has 0 bytes (0 blocks)
0 | bad144 fresh 16 rp06 7 | | hpsim: hp16.dsk has the bad-sector table of an rm03, and is written as an rp06 now
0 | bad144 list 15 rp06 | | hpsim: hp15.dsk does not exist, and is taken as an empty pack
8 | bad144 mark 15 rp06 | | hpsim: hp15.dsk does not exist, and is taken as an empty pack
0 | raw read 15 rp06 a 0 1 | | hpsim: hp15.dsk does not exist, and is taken as an empty pack
";

/// The files for answers and trace, with the rows over them. If there is no room for the answers, the trace has all its lines. If there
/// is no room for the trace, nothing is answered.
static TABLES: [([&str; 2], &str); 4] = [
    ([OUT, TRACE_NAME], ROWS),
    (
        [FULL, TRACE_NAME],
        "5 | play | unit 22 rp06;read 1 22 c 0 1; | hpsim: cannot write to standard output: No space left on device (os error 28) | hp.trace=cmd 2 22 1 search 0 19;arrive 3 22 1;attn 3 22 1;cmd 3 22 1 rcom 0 1;sector 3 22 1 0 clean;intr 3 22 1;end 3 22 1;",
    ),
    (
        [OUT, FULL],
        "5 | play | unit 22 rp06;read 1 22 c 0 1; | hpsim: cannot write hp.trace: No space left on device (os error 28) | hp.out=",
    ),
    (
        [OUT, "."],
        "5 | play | unit 22 rp06;read 1 22 c 0 1; | hpsim: cannot open or make hp.trace: Is a directory (os error 21)",
    ),
];

/// Runs a command with what it reads and files for its answers and its trace. Answers its status and what it prints on standard error.
fn told(
    rt: &HostRuntime,
    command: &str,
    read: &str,
    files: [&str; 2],
) -> io::Result<(u8, Vec<u8>)> {
    let alloc = rt.alloc();
    let read = bytes_of(alloc, read)?;
    let out = fs::create(rt, files[0])?;
    let mut errors = Vec::new(alloc);
    let script = Script(read.as_slice());
    let status = end_told(
        rt,
        words(alloc, command),
        script,
        out,
        files[1],
        &mut errors,
    );
    Ok((status, errors))
}

/// Whether each file of these columns holds what its column says.
fn hold(rt: &HostRuntime, columns: &str) -> io::Result<bool> {
    for column in columns.split('|') {
        if let Some((name, text)) = column.trim().split_once('=') {
            if fs::read(rt, name)?.as_slice() != bytes_of(rt.alloc(), text)?.as_slice() {
                return Ok(false);
            }
        }
    }
    Ok(true)
}

/// Whether a command ends as its row says.
fn ends_so(rt: &HostRuntime, files: [&str; 2], row: &str) -> io::Result<bool> {
    let (wanted, rest) = cut(row);
    let (command, rest) = cut(rest);
    let (read, rest) = cut(rest);
    let (line, held) = cut(rest);
    let (status, errors) = told(rt, command, read, files)?;
    Ok(ended_so(status, errors.as_slice(), wanted, line) && hold(rt, held)?)
}

/// Makes the images.
fn make_images(rt: &HostRuntime) -> io::Result<()> {
    fs::create(rt, "hp21.dsk")?.write_all_at(&[0; 512], 174_423_040)?;
    fs::create(rt, "hp9.dsk")?.write_all_at(&[1], 174_423_040)?;
    symlink(rt, ".", "hp20.dsk")?;
    symlink(rt, "hp19.dsk", "hp19.dsk")?;
    symlink(rt, FULL, "hp18.dsk")?;
    symlink(rt, READ_ONLY, "hp17.dsk")?;
    symlink(rt, "/dev/zero", "hp14.dsk")?;
    fs::create(rt, "hp13.bad")?.write_all_at(&[1; 127], 0)?;
    let marks = fs::create(rt, "hp12.bad")?;
    for block in [1, 131_648, 131_650, 131_652, 131_654, 131_656] {
        marks.write_all_at(&[1], block)?;
    }
    fs::create(rt, "hp11.bad")?.write_all_at(&[1], 131_647)?;
    for unit in ["16", "11", "10"] {
        let command = format!(in rt.alloc(); "bad144 fresh {unit} rm03 1")?;
        let _ = told(rt, command.as_str(), "", [OUT, TRACE_NAME])?;
    }
    for block in 0..126u8 {
        let command = format!(in rt.alloc(); "bad144 add 10 rm03 {block}")?;
        let _ = told(rt, command.as_str(), "", [OUT, TRACE_NAME])?;
    }
    Ok(())
}

/// The files that are left at the end.
static LEFT: [&str; 17] = [
    "hp9.dsk", "hp10.dsk", "hp11.bad", "hp11.dsk", "hp12.bad", "hp12.dsk", "hp13.bad", "hp14.dsk",
    "hp16.dsk", "hp17.dsk", "hp18.dsk", "hp19.dsk", "hp20.dsk", "hp21.dsk", "hp22.dsk", TRACE_NAME,
    OUT,
];

#[test]
fn each_end(rt: HostRuntime) {
    assert!(rt; make_images(&rt).is_ok());
    for (files, rows) in &TABLES {
        for row in rows.lines() {
            assert!(rt; matches!(ends_so(&rt, *files, row), Ok(true)));
        }
    }
    for name in &LEFT {
        assert!(rt; fs::remove_file(&rt, name).is_ok());
    }
}
