//! What is to be formatted, and what is done with each of its sectors.
ghost use Rattle.std.specs.Prelude.{◌≤◌};
ghost use Rattle.pack_format.specs.Tasks.{IsTask};

use pack_geometry::{DriveKind, copy_block, data_limit};

/// What is to be formatted: a unit, the kind of its drive, and the serial number of the new table.
#[derive(Clone, Copy)]
pub struct Job {
    pub unit: u8,
    pub kind: DriveKind,
    pub serial: u32,
}

/// What is done with a sector, unless it is marked.
#[derive(Clone, Copy)]
pub enum Task {
    /// It is tested, and gets zeros.
    Test,
    /// It is a copy of the table, and gets the table's bytes.
    Put,
    /// It is left as it is.
    Leave,
}

/// The task for a sector, if the table uses so many replacements.
pub fn task_of(kind: DriveKind, spares: u32, sector: u32) -> Task
    requires { spares ≤ 126 }
    ensures { IsTask kind spares sector result }
{
    let copies = copy_block(kind, 0);
    if sector < data_limit(kind) {
        return Task::Test;
    }
    if sector < copies - spares {
        return Task::Leave;
    }
    if sector < copies {
        return Task::Test;
    }
    if sector < copies + 10 && (sector - copies) % 2 == 0 {
        return Task::Put;
    }
    Task::Leave
}
