// Scripts of either dialect, by the drives that their lines declare.
ghost use Rattle.std.specs.Prelude.{◌≡◌, ◌<◌, length};
ghost use Rattle.trace_replay.specs.Script.{Script as Meaning};
ghost use Rattle.script_runs.specs.Attaching.{drive_at};

use pack_geometry::DriveKind;
use script_reader::cached::{self, CachedScript};
use script_reader::{Script, Statement};

/// A script some of whose lines declare drives.
pub trait Declaring {
    /// What the script means.
    ghost means: { Self → Meaning };

    /// How many lines say something.
    fn line_count(&self) -> usize
        ensures { result ≡ length (means self.now).lines };

    /// The drive that the line at an index declares, if it declares one.
    fn declared(&self, i: usize) -> Option<(u8, DriveKind)>
        requires { i < length (means self.now).lines }
        ensures { result ≡ drive_at (means self.now).lines i };
}

impl Declaring for Script {
    ghost use Rattle.script_reader.specs.Meaning.{meaning_of};

    ghost means = { λ s. meaning_of s };

    fn line_count(&self) -> usize {
        self.lines().len()
    }

    fn declared(&self, i: usize) -> Option<(u8, DriveKind)> {
        match &self.lines()[i].statement {
            Statement::Unit { unit, kind } => Some((*unit, *kind)),
            _ => None,
        }
    }
}

impl Declaring for CachedScript {
    ghost use Rattle.script_reader.specs.cached.Meaning.{meaning_of};

    ghost means = { λ s. meaning_of s };

    fn line_count(&self) -> usize {
        self.lines().len()
    }

    fn declared(&self, i: usize) -> Option<(u8, DriveKind)> {
        match self.lines()[i].statement {
            cached::Statement::Unit { unit, kind } => Some((unit, kind)),
            _ => None,
        }
    }
}
