//! A run as a picture shows it.

ghost use Rattle.std.specs.Prelude.{◌≡◌, ◌==◌, IfOk};
ghost use Rattle.run_plan.specs.Window.{no_caption, title_of, column_of, arm_before, kind_of};
ghost use Rattle.run_plan.specs.Units.{has_request, is_drawn, units_shown};

use drive_pictures::{Request, kind_word};
use run_picture::{Column, Note, Run, Window};
use std::alloc::{AllocError, Global};

/// A run as a picture shows it.
#[derive(Clone, Copy)]
pub struct Sheet<'a> {
    /// What stands above the picture; empty if there is nothing.
    pub caption: &'a [u8],
    /// The run, finished.
    pub run: &'a Run,
    /// The events that are shown, as the run has them in columns.
    pub window: Window,
    /// For each column, the text of the script's line at which the column begins; empty if it is not known.
    pub texts: &'a [&'a [u8]],
    /// If a column is one event, the lines that speak of a drive, in the order in which they came; otherwise none.
    pub notes: &'a [Note<'a>],
}

/// Whether some request is of a unit.
fn has_request(requests: &[Request], unit: u8) -> bool
    ensures { result ≡ has_request requests.now unit }
{
    requests.iter().any(|request| request.unit == unit)
}

/// Whether a drive is drawn: something is shown, and some request is of the drive.
pub(crate) fn is_drawn(sheet: &Sheet<'_>, unit: u8) -> bool
    ensures { result ≡ is_drawn sheet.now unit }
{
    !sheet.run.columns().is_empty() && has_request(sheet.run.requests(), unit)
}

impl<'a> Sheet<'a> {
    /// What stands above the picture.
    #[tactic(auto, unfolding(crate::specs::Window::no_caption))]
    pub fn title(&self) -> &'a [u8]
        ensures { result.now ≡ title_of self.now }
    {
        if self.caption.is_empty() {
            b"A run of hpsim"
        } else {
            self.caption
        }
    }

    /// The columns.
    pub fn columns(&self) -> &'a [Column]
        ensures { result.now ≡ self.now.run.now.columns }
    {
        self.run.columns()
    }

    /// The column of an event; for an event before or after those that are shown, the first or the last edge.
    pub fn column_of(&self, event: u64) -> usize
        ensures { result ≡ column_of self.now event }
    {
        let columns = self.columns().len() as u64;
        let column = event.saturating_sub(self.window.first) / self.window.per.max(1);
        column.min(columns) as usize
    }

    /// Whether a column is one event.
    pub fn is_by_event(&self) -> bool
        ensures { result ≡ (self.now.window.per == 1) }
    {
        self.window.per == 1
    }

    /// The units that have requests, if anything is shown.
    pub fn units(&self, alloc: Global) -> Result<Vec<u8>, AllocError>
        ensures { IfOk result (λ units. units.items ≡ units_shown self.now) }
    {
        let mut units = Vec::new(alloc);
        for unit in 0..32u8 {
            if is_drawn(self, unit) {
                units.push(unit)?;
            }
        }
        Ok(units)
    }

    /// Where the arm of a drive is before the first column.
    pub fn arm_before(&self, unit: u8) -> u32
        ensures { result ≡ arm_before self.now unit }
    {
        match self.run.start().get(usize::from(unit)) {
            Some(drive) => drive.arm.cylinder,
            None => 0,
        }
    }

    /// The word of a drive's kind; empty if no script declares the drive.
    pub fn kind_of(&self, unit: u8) -> &'static str
        ensures { result.now ≡ kind_of self.now unit }
    {
        match self.run.drives().get(usize::from(unit)) {
            Some(drive) => kind_word(drive.kind),
            None => "",
        }
    }
}
