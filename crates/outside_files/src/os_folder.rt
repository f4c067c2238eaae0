ghost use Rattle.std.specs.Prelude.{◌≡◌, ◌≢◌, ◌⊎◌, ◌↔◌, ◌<◌, ◌≤◌, true, false, Ok, Err, is_some, IfSome, IfOk, IfErr, OnOk, vec_len};
ghost use Rattle.std.specs.IoError.{error_kind};
ghost use Rattle.std.specs.declared.io.ErrorKind.TheVariants.{NotFound, PermissionDenied, ReadOnlyFilesystem};
ghost use Rattle.outside_files.specs.declared.os_folder.Opened.{Opened};
ghost use Rattle.outside_files.specs.declared.os_folder.Known.TheVariants.{Nothing, Missing, Open};

use crate::folder::{PackFolder, Part, file_name, file_number};
use crate::streams::some_taken;
use std::fs::{OpenFile, OpenOptions};
use std::io;
use std::io::ErrorKind;
use std::os::unix::fs::FileExt;
use std::rt::Files;

/// An open file. If it may not be written, `locked` says why.
#[derive(Drop)]
struct Opened<F> {
    file: F,
    locked: Option<io::Error>,
}

/// What is known of a file. An opened file stays open, and a missing file stays missing until it is made here.
#[derive(Drop)]
enum Known<F> {
    Nothing,
    Missing,
    Open(Opened<F>),
}

impl<F: Drop> Known<F> {
    /// What an attempt to open a file tells. A file that does not exist is missing, unless it was to be made: then that is an error.
    fn by_opening(answer: io::Result<Opened<F>>, create: bool) -> io::Result<Known<F>>
        ensures open { IfOk answer (λ opened. result ≡ Ok (Open opened)) }
        ensures missing { IfErr answer (λ error. error_kind error ≡ NotFound → create ≡ false → result ≡ Ok Missing) }
        ensures failed { IfErr answer (λ error. (error_kind error ≢ NotFound) ⊎ (create ≡ true) → result ≡ Err error) }
    {
        match answer {
            Ok(opened) => Ok(Known::Open(opened)),
            Err(error) if !create && error.kind() == ErrorKind::NotFound => Ok(Known::Missing),
            Err(error) => Err(error),
        }
    }

    /// Whether the file must still be opened or made.
    fn is_to_be_opened(&self, create: bool) -> bool
        ensures unknown { self.now ≡ Nothing → result ≡ true }
        ensures missing { self.now ≡ Missing → result ≡ create }
        ensures open { (opened : Opened F) → self.now ≡ Open opened → result ≡ false }
    {
        match self {
            Known::Nothing => true,
            Known::Missing => create,
            Known::Open(_) => false,
        }
    }

    /// The file, if it is open.
    fn file(&self) -> Option<&Opened<F>>
        ensures open { IfSome result (λ opened. self.now ≡ Open opened.now) }
        ensures closed { is_some result ≡ false → (opened : Opened F) → self.now ≢ Open opened }
    {
        match self {
            Known::Open(opened) => Some(opened),
            _ => None,
        }
    }
}

/// The files `hpU.dsk` (image) and `hpU.bad` (marks) of the working folder, for unit U in decimal. The first write to a missing file
/// makes it. Whether a file is missing is found out only once, so nobody else may make it meanwhile. A file that may only be read can
/// be read, and each write to it fails.
#[derive(Drop)]
pub struct OsFolder<R: Files + AllocGlobal> {
    rt: R,
    files: Vec<Known<R::File>>,
}

/// Opens a file for reading and writing. If it may not be written and is not to be made, it is opened for reading only.
fn open_file<R: Files>(rt: &R, name: &str, create: bool) -> io::Result<Opened<R::File>> {
    let mut how = OpenOptions::new();
    how.read(true).write(true).create(create);
    match how.open(rt, name) {
        Ok(file) => Ok(Opened { file, locked: None }),
        Err(error) if !create && is_forbidden(error.kind()) => {
            let file = how.write(false).open(rt, name)?;
            Ok(Opened {
                file,
                locked: Some(error),
            })
        }
        Err(error) => Err(error),
    }
}

/// Whether a file that cannot be opened for writing may still be opened for reading.
fn is_forbidden(kind: ErrorKind) -> bool
    ensures { (result ≡ true) ↔ (kind ≡ PermissionDenied) ⊎ (kind ≡ ReadOnlyFilesystem) }
{
    kind == ErrorKind::PermissionDenied || kind == ErrorKind::ReadOnlyFilesystem
}

impl<R: Files + AllocGlobal> OsFolder<R> {
    /// The working folder. This call opens nothing.
    pub fn new(rt: R) -> OsFolder<R>
        ensures { vec_len result.files ≡ 0 }
    {
        let files = Vec::new(rt.alloc());
        OsFolder { rt, files }
    }

    /// Opens a file, or finds that it is missing if it is not to be made.
    fn open(&self, unit: u8, part: Part, create: bool) -> io::Result<Known<R::File>> {
        let name = file_name(self.rt.alloc(), unit, part)?;
        Known::by_opening(open_file(&self.rt, name.as_str(), create), create)
    }

    /// Makes room for what is known of each file.
    fn make_room(&mut self) -> io::Result<()>
        ensures { OnOk result (64 ≤ vec_len self.new.files) }
    {
        let count = self.files.len().max(64);
        self.files.resize_with(count, || Known::Nothing)?;
        Ok(())
    }

    /// Opens a file and answers its number. It opens nothing if the file is open, or if the file is known to be missing and is not to
    /// be made.
    fn look_up(&mut self, unit: u8, part: Part, create: bool) -> io::Result<usize>
        requires { unit < 32 }
        ensures { IfOk result (λ number. number < vec_len self.new.files) }
    {
        self.make_room()?;
        let number = file_number(unit, part);
        if self.files[number].is_to_be_opened(create) {
            self.files[number] = self.open(unit, part, create)?;
        }
        Ok(number)
    }

    /// A file, which is opened if it is not open. None if the file is missing.
    fn find(&mut self, unit: u8, part: Part, create: bool) -> io::Result<Option<&Opened<R::File>>>
        requires { unit < 32 }
    {
        let number = self.look_up(unit, part, create)?;
        Ok(self.files[number].file())
    }
}

impl<R: Files + AllocGlobal> PackFolder for OsFolder<R>
where
    R::File: FileExt,
{
    ghost use Rattle.std.specs.Prelude.{false};
    ghost use Rattle.pack_geometry.specs.Pack.{empty_pack};

    ghost tells = { λ _. false };

    ghost held = { λ _. λ _. empty_pack };

    fn is_open(&self, unit: u8, part: Part) -> bool {
        match self.files.get(file_number(unit, part)) {
            Some(known) => known.file().is_some(),
            None => false,
        }
    }

    fn length(&mut self, unit: u8, part: Part) -> io::Result<u64> {
        match self.find(unit, part, false)? {
            None => Ok(0),
            Some(opened) => Ok(opened.file.metadata()?.len()),
        }
    }

    fn read_at(&mut self, unit: u8, part: Part, at: u64, into: &mut [u8]) -> io::Result<usize> {
        match self.find(unit, part, false)? {
            None => Ok(0),
            Some(opened) => opened.file.read_at(into, at),
        }
    }

    fn write_at(&mut self, unit: u8, part: Part, at: u64, from: &[u8]) -> io::Result<usize> {
        match self.find(unit, part, true)? {
            None => Err(io::Error::from(ErrorKind::NotFound)),
            Some(opened) => {
                if let Some(error) = opened.locked {
                    return Err(error);
                }
                some_taken(opened.file.write_at(from, at), from.len())
            }
        }
    }
}
