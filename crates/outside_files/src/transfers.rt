// Moves whole pieces of a file by calls of a folder. Each call may be short or interrupted.
ghost use Rattle.std.specs.Prelude.{◌≡◌, ◌<◌, ◌≤◌, ◌+◌, ◌-◌, ◌++◌, IsTrue, length, take, replicate, IfOk, OnOk, OnErr};
ghost use Rattle.pack_geometry.specs.Pack.{window};
ghost use Rattle.outside_traits.specs.Files.{file_of};
ghost use Rattle.outside_files.specs.Folder.{IsFilled, with_put};

use crate::folder::{PackFolder, Part};
use std::io;
use std::io::ErrorKind;

/// How many calls may be made for one piece. If they do not suffice, the answer is the error `TimedOut`.
const MOST_CALLS: u64 = u64::MAX;

/// The place `count` bytes behind a place. An error if that place does not fit a `u64`.
fn behind(at: u64, count: usize) -> io::Result<u64>
    ensures { IfOk result (λ place. place ≡ at + count) }
{
    at.checked_add(count as u64)
        .ok_or(io::Error::from(ErrorKind::InvalidInput))
}

/// Whether an error says that the call was interrupted, so that it must be made again.
fn is_interrupted(error: &io::Error) -> bool {
    error.kind() == ErrorKind::Interrupted
}

/// A file's length, in bytes.
pub(crate) fn length_of<F: PackFolder>(folder: &mut F, unit: u8, part: Part) -> io::Result<u64>
    requires { unit < 32 }
    ensures never_again { IsTrue (F.tells folder.new) → IsTrue (F.tells folder.old) }
    ensures length { IfOk result (λ n. IsTrue (F.tells folder.new) → n ≡ length (file_of (F.held folder.old unit) part)) }
    ensures same { IsTrue (F.tells folder.new) → F.held folder.new ≡ F.held folder.old }
{
    for _ in 0..MOST_CALLS {
        match folder.length(unit, part) {
            Ok(length) => return Ok(length),
            Err(error) if is_interrupted(&error) => {}
            Err(error) => return Err(error),
        }
    }
    Err(io::Error::from(ErrorKind::TimedOut))
}

/// Reads the bytes of a file from a place on, as many as there are and as fit, and answers how many it read.
fn read_front<F: PackFolder>(
    folder: &mut F,
    unit: u8,
    part: Part,
    at: u64,
    into: &mut [u8],
) -> io::Result<usize>
    requires { unit < 32 }
    ensures never_again { IsTrue (F.tells folder.new) → IsTrue (F.tells folder.old) }
    ensures bound { IfOk result (λ n. n ≤ length into.new) }
    ensures size { length into.new ≡ length into.old }
    ensures bytes { IfOk result (λ n. IsTrue (F.tells folder.new) → IsFilled (file_of (F.held folder.old unit) part) at into.new n) }
    ensures same { IsTrue (F.tells folder.new) → F.held folder.new ≡ F.held folder.old }
{
    let mut done = 0;
    for _ in 0..MOST_CALLS {
        if done >= into.len() {
            return Ok(done);
        }
        let place = behind(at, done)?;
        match folder.read_at(unit, part, place, &mut into[done..]) {
            Ok(0) => return Ok(done),
            Ok(count) => done += count,
            Err(error) if is_interrupted(&error) => {}
            Err(error) => return Err(error),
        }
    }
    Err(io::Error::from(ErrorKind::TimedOut))
}

/// Fills the rest, behind the bytes that were read, with zeros.
fn fill_rest(into: &mut [u8], count: usize)
    requires { count ≤ length into.old }
    ensures { into.new ≡ take count into.old ++ replicate (length into.old - count) 0 }
{
    into[count..].fill(0);
}

/// Reads the bytes of a file from a place on, as many as fit. Bytes behind the end of the file are zeros.
pub(crate) fn read_window<F: PackFolder>(
    folder: &mut F,
    unit: u8,
    part: Part,
    at: u64,
    into: &mut [u8],
) -> io::Result<()>
    requires { unit < 32 }
    ensures never_again { IsTrue (F.tells folder.new) → IsTrue (F.tells folder.old) }
    ensures bytes { OnOk result (IsTrue (F.tells folder.new) → into.new ≡ window (length into.old) at (file_of (F.held folder.old unit) part)) }
    ensures same { IsTrue (F.tells folder.new) → F.held folder.new ≡ F.held folder.old }
{
    let count = read_front(folder, unit, part, at, into)?;
    fill_rest(into, count);
    Ok(())
}

/// Writes bytes at a place of a file, and answers how many it wrote. It wrote all of them exactly if it answers no error.
pub(crate) fn write_front<F: PackFolder>(
    folder: &mut F,
    unit: u8,
    part: Part,
    at: u64,
    from: &[u8],
) -> (usize, io::Result<()>)
    requires { unit < 32 }
    ensures bound { result.0 ≤ length from.now }
    ensures whole { OnOk result.1 (result.0 ≡ length from.now) }
    ensures few { OnErr result.1 (result.0 < length from.now) }
    ensures never_again { IsTrue (F.tells folder.new) → IsTrue (F.tells folder.old) }
    ensures bytes { IsTrue (F.tells folder.new) → F.held folder.new ≡ with_put (F.held folder.old) unit part at (take result.0 from.now) }
{
    let mut done = 0;
    for _ in 0..MOST_CALLS {
        if done >= from.len() {
            return (done, Ok(()));
        }
        let place = match behind(at, done) {
            Ok(place) => place,
            Err(error) => return (done, Err(error)),
        };
        match folder.write_at(unit, part, place, &from[done..]) {
            Ok(count) => done += count,
            Err(error) if is_interrupted(&error) => {}
            Err(error) => return (done, Err(error)),
        }
    }
    if done < from.len() {
        return (done, Err(io::Error::from(ErrorKind::TimedOut)));
    }
    (done, Ok(()))
}
