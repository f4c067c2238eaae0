// Warnings that are printed before a run begins.
use crate::ending::kind_name;
use crate::sentence::Piece::{Number, Text};
use crate::sentence::{Sentence, say};
use crate::words::{check_command, target, word};
use bad144_table::table_of;
use outside_files::files::FilePacks;
use outside_files::folder::{Part, file_name};
use pack_geometry::DriveKind;
use std::io::Write;
use std::os::unix::fs::FileExt;
use std::rt::Files;
use std::{fs, io};

/// Whether a unit's image is missing.
fn is_missing<R: Files + AllocGlobal>(rt: &R, unit: u8) -> bool {
    match file_name(rt.alloc(), unit, Part::Image) {
        Ok(name) => matches!(fs::exists(rt, name.as_str()), Ok(false)),
        Err(_) => false,
    }
}

/// The kind of drive whose table a pack has, if that is another kind than this one.
fn other_kind<R: Files + AllocGlobal>(rt: &R, unit: u8, kind: DriveKind) -> Option<DriveKind>
where
    R::File: FileExt,
{
    if unit > 31 {
        return None;
    }
    let mut packs = FilePacks::new(rt);
    for other in [DriveKind::Rp06, DriveKind::Rm03, DriveKind::Rm05] {
        if other != kind {
            if let Ok(Some(_)) = table_of(&mut packs, unit, other) {
                return Some(other);
            }
        }
    }
    None
}

/// The warning of a command, if there is one.
fn warning<R: Files + AllocGlobal>(rt: &R, words: &[&[u8]]) -> Option<Sentence<'static>>
where
    R::File: FileExt,
{
    check_command(words).ok()?;
    let (unit, kind) = target(words)?;
    let number = Number(u64::from(unit));
    match (word(words, 0), word(words, 1)) {
        (b"format", _) | (b"bad144", b"fresh") => {
            let (old, new) = (kind_name(other_kind(rt, unit, kind)?), kind_name(kind));
            let text = "hp{0}.dsk has the bad-sector table of an {1}, and is written as an {2} now";
            Some(say(text, &[number, Text(old), Text(new)]))
        }
        (b"bad144", _) | (_, b"read") if is_missing(rt, unit) => {
            let text = "hp{0}.dsk does not exist, and is taken as an empty pack";
            Some(say(text, &[number]))
        }
        _ => None,
    }
}

/// Prints a warning if a command reads a pack whose image is missing, or if it writes a new table to a pack that has the table of
/// another kind of drive. If the words are no command, nothing is printed. An error if `errors` fails.
pub fn warn<R: Files + AllocGlobal, W: Write>(
    rt: &R,
    words: &[&[u8]],
    errors: &mut W,
) -> io::Result<()>
where
    R::File: FileExt,
{
    match warning(rt, words) {
        Some(warning) => writeln!(errors, "hpsim: {warning}"),
        None => Ok(()),
    }
}
