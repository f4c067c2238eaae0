// Tests of the packs in the files of the working folder, behind windows, and of a sink that makes its file there.
use crate::steps::{Call, Deed, Step, failures_over};
use Call::{Length, Mark, Marked, Read, Write};
use Step::{Fail, Of, On};
use outside_files::os_folder::OsFolder;

/// A file that may only be read, which holds "Linux" and LF, and a file that may not be read. Both refuse even the superuser.
const READ_ONLY: &str = "/proc/sys/kernel/ostype";

const WRITE_ONLY: &str = "/proc/sys/vm/compact_memory";

/// What is done to the files of the working folder, and what calls on their packs answer. Unit 28 has an image of 700 bytes 255 and
/// the marks 0, 7 and 1. The image of unit 27 is a folder, and the files of unit 25 are empty. The image of unit 18 takes no byte and
/// gives zeros. The files of unit 17 may only be read, those of unit 16 may not be opened, and those of unit 15 cannot be made. The
/// other units have no files. If the packs found that a file is missing and another program makes it later, they do not find it.
static FILES: [Step; 48] = [
    On(&["hp28.dsk"], Deed::Write(&[0xFF; 700])),
    On(&["hp28.bad"], Deed::Write(&[0, 7, 1])),
    On(&["hp27.dsk"], Deed::Link(".")),
    On(&["hp25.dsk", "hp25.bad"], Deed::Write(b"")),
    On(&["hp18.dsk"], Deed::Link("/dev/full")),
    On(&["hp17.dsk", "hp17.bad"], Deed::Link(READ_ONLY)),
    On(&["hp16.dsk", "hp16.bad"], Deed::Link(WRITE_ONLY)),
    On(&["hp15.dsk"], Deed::Link("/proc/sys/none")),
    Of(29, &[(Length, 0), (Read(3), 0), (Marked(5), 0)]),
    Of(28, &[(Length, 700), (Read(0), 0xFFFF), (Read(1), 0xFF00)]),
    Of(28, &[(Read(2), 0), (Read(9), 0), (Marked(0), 0)]),
    Of(28, &[(Marked(1), 1), (Marked(2), 1), (Marked(3), 0)]),
    Of(28, &[(Mark(1, false), 0), (Marked(1), 0), (Marked(2), 1)]),
    Of(28, &[(Mark(4, true), 0), (Marked(4), 1), (Marked(3), 0)]),
    On(&["hp28.bad"], Deed::Holds(&[0, 0, 1, 0, 1])),
    Of(28, &[(Write(3, 5), 0), (Length, 2048), (Read(3), 0x0505)]),
    Of(28, &[(Read(2), 0), (Read(0), 0xFFFF)]),
    Fail(27, &[Length, Read(0), Write(0, 1)]),
    Of(27, &[(Marked(0), 0)]),
    Of(26, &[(Write(340_670, 5), 0), (Length, 174_423_552)]),
    Of(26, &[(Read(340_670), 0x0505), (Read(340_669), 0)]),
    Of(26, &[(Read(340_671), 0), (Mark(2, true), 0)]),
    Of(26, &[(Marked(2), 1), (Marked(1), 0)]),
    Of(26, &[(Mark(2, false), 0), (Marked(2), 0)]),
    Of(25, &[(Length, 0), (Read(0), 0), (Marked(0), 0)]),
    Of(23, &[(Read(3), 0), (Write(70, 6), 0), (Read(70), 0x0606)]),
    Of(23, &[(Read(3), 0)]),
    Of(29, &[(Length, 0)]),
    Of(18, &[(Length, 0), (Read(5), 0)]),
    Fail(18, &[Write(5, 1)]),
    Of(18, &[(Read(5), 0)]),
    Fail(17, &[Write(0, 1), Mark(1, false)]),
    Of(17, &[(Length, 0), (Read(0), 0x4C00), (Read(1), 0)]),
    Of(17, &[(Marked(1), 1), (Marked(6), 0)]),
    Fail(17, &[Write(0, 1), Mark(1, false)]),
    Of(17, &[(Read(0), 0x4C00), (Marked(1), 1)]),
    Fail(16, &[Length, Read(0), Write(0, 1)]),
    Fail(16, &[Marked(2), Mark(1, true)]),
    Of(15, &[(Length, 0)]),
    Fail(15, &[Write(0, 1)]),
    Of(15, &[(Length, 0)]),
    Of(19, &[(Length, 0)]),
    On(&["hp19.dsk"], Deed::Write(&[1; 512])),
    Of(19, &[(Length, 0), (Write(1, 2), 0), (Length, 1024)]),
    On(&["hp19.dsk"], Deed::Remove),
    Of(19, &[(Length, 1024)]),
    On(
        &["hp29.dsk", "hp29.bad", "hp27.bad", "hp23.bad", "hp19.dsk"],
        Deed::IsMissing,
    ),
    On(
        &[
            "hp27.dsk", "hp18.dsk", "hp17.dsk", "hp17.bad", "hp16.dsk", "hp16.bad", "hp15.dsk",
        ],
        Deed::Remove,
    ),
];

/// What new packs over the same files answer afterwards, and what a sink takes that writes over an older text.
static AGAIN: [Step; 9] = [
    Of(28, &[(Read(3), 0x0505), (Marked(1), 0), (Marked(4), 1)]),
    Of(26, &[(Read(340_670), 0x0505)]),
    Of(23, &[(Read(70), 0x0606)]),
    On(
        &[
            "hp28.dsk", "hp28.bad", "hp26.dsk", "hp26.bad", "hp25.dsk", "hp25.bad", "hp23.dsk",
        ],
        Deed::Remove,
    ),
    On(&["hp.trace"], Deed::Write(b"an older and longer text")),
    On(&["hp.trace"], Deed::TakesLines),
    On(&["hp.trace"], Deed::Holds(b"idle 1\nidle 2\n")),
    On(&["hp.trace"], Deed::Remove),
    On(&[".", "/dev/full"], Deed::TakesNone),
];

/// Whether all these steps succeed on new packs.
fn go_right(rt: &HostRuntime, steps: &[Step]) -> bool {
    failures_over(rt, OsFolder::new(rt), steps) == Some(0)
}

#[test]
fn packs_in_files(rt: HostRuntime) {
    let are_right = go_right(&rt, &FILES) && go_right(&rt, &AGAIN);
    assert!(rt; are_right);
}
