// A run is seen, and the lines that name a drive are noted.

use crate::counter::Counter;
use crate::{Seen, Watcher};
use pack_geometry::DriveKind;
use run_picture::{Note, Run, Window};
use std::alloc::{AllocError, Global};
use std::marker::Model;

/// What is known of a run, and the lines noted so far.
#[derive(Drop)]
pub(crate) struct Watch<'a> {
    run: Run,
    counter: Counter,
    window: Window,
    notes: Vec<Note<'a>>,
}

impl<'a> Model for Watch<'a> {
    ghost use Rattle.std.specs.Prelude.{map};
    ghost use Rattle.run_view.specs.Notes.{noted_of};
    ghost use Rattle.run_view.specs.Watched.{Watched};

    ghost Value = { Watched };

    ghost view = { λ w. record { known = w.run; counter = w.counter; window = w.window; notes = map noted_of w.notes.items } };
}

impl<'a> Watch<'a> {
    ghost use Rattle.std.specs.Prelude.{◌≡◌, ◌<◌, ◌++◌, map, OnOk, IfOk};
    ghost use Rattle.run_view.specs.Saids.{said_of};
    ghost use Rattle.run_picture.specs.Fold.{declared, finished};
    ghost use Rattle.run_view.specs.Notes.{noted_of, note_at};
    ghost use Rattle.run_view.specs.Watched.{new_watched};

    /// What is known before the first line; `window` has the events that are shown.
    pub(crate) fn new(alloc: Global, window: Window) -> Watch<'a>
        ensures { result ≡ new_watched window }
    {
        Watch {
            run: Run::new(alloc, window),
            counter: Counter::new(),
            window,
            notes: Vec::new(alloc),
        }
    }

    /// A script declares a drive.
    pub(crate) fn declare(&mut self, unit: u8, kind: DriveKind)
        requires { unit < 32 }
        ensures { self.new ≡ record self.old { known = declared unit kind self.old.known } }
    {
        self.run.declare(unit, kind);
    }

    /// A line that names a drive is noted, in the column of an event.
    fn note(&mut self, event: u64, seen: &Seen<'a>) -> Result<(), AllocError>
        ensures { OnOk result (self.new ≡ record self.old { notes = self.old.notes ++ note_at self.old.window event (said_of seen.now) }) }
    {
        if self.window.per == 1 && self.window.is_inside(event) {
            if let Some(unit) = seen.names {
                self.notes.push(Note {
                    column: event.saturating_sub(self.window.first) as usize,
                    unit,
                    text: seen.text,
                })?;
            }
        }
        Ok(())
    }

    /// What is known of the run after its last line, and the lines noted.
    pub(crate) fn finish(self) -> Result<(Run, Vec<Note<'a>>), AllocError>
        ensures run { IfOk result (λ parts. parts.0 ≡ finished self.entry.known) }
        ensures notes { IfOk result (λ parts. map noted_of parts.1.items ≡ self.entry.notes) }
    {
        let Watch {
            mut run,
            counter: _,
            window: _,
            notes,
        } = self;
        run.finish()?;
        Ok((run, notes))
    }
}

impl<'a> Watcher<'a> for Watch<'a> {
    ghost use Rattle.run_view.specs.Watched.{saw};

    ghost step = { saw };

    fn see(&mut self, seen: &Seen<'a>) -> Result<(), AllocError> {
        self.run.step(&seen.moment)?;
        self.counter.count(&seen.moment);
        let event = self.counter.event;
        self.note(event, seen)
    }
}
