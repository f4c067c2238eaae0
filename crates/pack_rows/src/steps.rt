// Steps of the tests, on packs and on the files of the working folder.
ghost use Rattle.std.specs.Prelude.{◌<◌};

use outside_files::file_sink::FileSink;
use outside_files::files::FilePacks;
use outside_files::folder::PackFolder;
use outside_traits::traits::Packs;
use outside_traits::whole::write_all;
use pack_windows::window_packs::WindowPacks;
use std::fs;
use std::os::unix::fs::symlink;

/// A call on the packs of a unit.
#[derive(Clone, Copy)]
pub(crate) enum Call {
    Length,
    Read(u32),
    Write(u32, u8),
    Marked(u32),
    Mark(u32, bool),
}

/// What is done to files, or asked about them.
#[derive(Clone, Copy)]
pub(crate) enum Deed {
    Write(&'static [u8]),
    Holds(&'static [u8]),
    IsMissing,
    Link(&'static str),
    Remove,
    TakesLines,
    TakesNone,
}

/// A deed that must succeed or be true for each of some files, calls on a unit with what they must answer, or calls that must fail.
#[derive(Clone, Copy)]
pub(crate) enum Step {
    On(&'static [&'static str], Deed),
    Of(u8, &'static [(Call, u64)]),
    Fail(u8, &'static [Call]),
}

/// Whether a sink that makes its file takes two lines.
fn takes_lines(rt: &HostRuntime, name: &str) -> bool {
    let mut file = FileSink::new(rt, name);
    write_all(&mut file, b"idle 1\n").is_ok() && write_all(&mut file, b"idle 2\n").is_ok()
}

/// Whether a deed succeeds, or what it asks is true.
fn is_done(rt: &HostRuntime, name: &str, deed: Deed) -> bool {
    match deed {
        Deed::Write(bytes) => fs::write(rt, name, bytes).is_ok(),
        Deed::Holds(bytes) => fs::read(rt, name).is_ok_and(|held| held.as_slice() == bytes),
        Deed::IsMissing => matches!(fs::exists(rt, name), Ok(false)),
        Deed::Link(to) => symlink(rt, to, name).is_ok(),
        Deed::Remove => fs::remove_file(rt, name).is_ok(),
        Deed::TakesLines => takes_lines(rt, name),
        Deed::TakesNone => !takes_lines(rt, name),
    }
}

/// 256 times the first byte, and the last byte.
fn edges(block: &[u8; 512]) -> u64 {
    256 * u64::from(block[0]) + u64::from(block[511])
}

/// What a call answers: of a block, its edges, which are read into a buffer that held 7s before. `None` if the call fails.
fn answer<P: Packs>(packs: &mut P, unit: u8, call: Call) -> Option<u64> {
    let unit = unit.min(31);
    match call {
        Call::Length => packs.length(unit).ok(),
        Call::Read(at) => {
            let mut block = [7u8; 512];
            packs.read(unit, at, &mut block).ok()?;
            Some(edges(&block))
        }
        Call::Write(at, byte) => packs.write(unit, at, &[byte; 512]).is_ok().then_some(0),
        Call::Marked(at) => packs.marked(unit, at).ok().map(|on| u64::from(on)),
        Call::Mark(at, on) => packs.set_mark(unit, at, on).is_ok().then_some(0),
    }
}

/// How often a call fails before it answers what it must, which is at most once. `None` if it does something else.
fn failures<P: Packs>(packs: &mut P, unit: u8, call: Call, wanted: Option<u64>) -> Option<usize> {
    let answered = answer(packs, unit, call);
    if answered == wanted {
        return Some(0);
    }
    if answered.is_none() && answer(packs, unit, call) == wanted {
        return Some(1);
    }
    None
}

/// How many calls of a step fail once. `None` if one does something else, or a deed is not done.
fn failures_at<P: Packs>(rt: &HostRuntime, packs: &mut P, step: Step) -> Option<usize> {
    let mut count = 0usize;
    match step {
        Step::On(names, deed) => {
            for name in names {
                is_done(rt, name, deed).then_some(())?;
            }
        }
        Step::Of(unit, calls) => {
            for (call, wanted) in calls {
                count = count.saturating_add(failures(packs, unit, *call, Some(*wanted))?);
            }
        }
        Step::Fail(unit, calls) => {
            for call in calls {
                count = count.saturating_add(failures(packs, unit, *call, None)?);
            }
        }
    }
    Some(count)
}

/// How many calls of these steps fail once. `None` if a step does something else.
fn failures_of<P: Packs>(rt: &HostRuntime, packs: &mut P, steps: &[Step]) -> Option<usize> {
    let mut count = 0usize;
    for step in steps {
        count = count.saturating_add(failures_at(rt, packs, *step)?);
    }
    Some(count)
}

/// How many calls of these steps fail once on new packs, which read ahead, in the files of a folder. `None` if a step does something else.
pub(crate) fn failures_over<F: PackFolder + Drop>(
    rt: &HostRuntime,
    folder: F,
    steps: &[Step],
) -> Option<usize> {
    match WindowPacks::new(rt.alloc(), FilePacks::over(folder)) {
        Ok(mut packs) => failures_of(rt, &mut packs, steps),
        Err(_) => None,
    }
}
