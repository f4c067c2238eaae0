//! The fold: what is known of a run after each moment.

ghost use Rattle.std.specs.Prelude.{◌≡◌, ◌<◌, map, IfOk, OnOk, slice_set};
ghost use Rattle.run_picture.specs.Fold.{new_known, declared, asked, met_at, place_in, told_at, told, heard, step, finished, request_at, column_with, event_shown, event_ended, turned, ended_behind, events_in, IsHeard};
ghost use Rattle.run_picture.specs.Places.{place_of};
ghost use Rattle.drive_pictures.specs.Requests.{left};

use crate::acts::{Glance, act, admit, begin_events, count_events, frames_of, submit};
use crate::columns::{Column, Head, Window, clear_cells};
use crate::places::Places;
use drive_pictures::{Asked, Drive, Moment, Play, Request, Told, begins, is_idle, line_of, plus};
use pack_geometry::DriveKind;
use std::alloc::{AllocError, Global};
use std::marker::Model;

/// What is known of a run after the moments so far. A call that gives `AllocError` had no memory, and the run cannot go on after
/// it.
#[derive(Drop)]
pub struct Run {
    drives: [Drive; 32],
    places: Places,
    requests: Vec<Request>,
    lent: u64,
    event: u64,
    before: Option<Moment>,
    glance: Glance,
    window: Window,
    head: Head,
    start: [Drive; 32],
    columns: Vec<Column>,
}

impl Model for Run {
    ghost use Rattle.run_picture.specs.Fold.{Known};

    ghost Value = { Known };

    ghost view = { λ r. record {
      drives = r.drives;
      ids = r.places;
      requests = r.requests.items;
      lent = r.lent;
      event = r.event;
      before = r.before;
      glance = r.glance;
      window = r.window;
      head = r.head;
      start = r.start;
      columns = r.columns.items;
    } };
}

/// The request at a place.
fn request_at(requests: &[Request], place: usize) -> Request
    ensures { result ≡ request_at requests.now place }
{
    match requests.get(place) {
        Some(request) => *request,
        None => Request::new(0, 0, 0, 0, false),
    }
}

/// A request is put at a place.
fn put_request(requests: &mut [Request], place: usize, request: Request)
    ensures { requests.new ≡ slice_set requests.old place request }
{
    if place < requests.len() {
        requests[place] = request;
    }
}

/// After the last event, each request that has not ended is open.
fn leave_all(requests: &mut [Request], events: u64)
    ensures { requests.new ≡ map (left events) requests.old }
{
    for request in requests.iter_mut() {
        request.leave(events);
    }
}

impl Run {
    /// A run before its first moment, with no drive declared; `window` has the events that are shown.
    pub fn new(alloc: Global, window: Window) -> Run
        ensures { result ≡ new_known window }
    {
        Run {
            drives: [Drive::new(None); 32],
            places: Places::new(alloc),
            requests: Vec::new(alloc),
            lent: 0,
            event: 0,
            before: None,
            glance: Glance::default(),
            window,
            head: Head::new(),
            start: [Drive::new(None); 32],
            columns: Vec::new(alloc),
        }
    }

    /// A script declares a drive.
    pub fn declare(&mut self, unit: u8, kind: DriveKind)
        requires { unit < 32 }
        ensures { self.new ≡ declared unit kind self.old }
    {
        self.drives[usize::from(unit)].kind = Some(kind);
    }

    /// A request is asked for.
    fn ask(&mut self, line: u32, wish: &Asked, write: bool) -> Result<(), AllocError>
        requires { wish.now.unit < 32 }
        ensures { OnOk result (self.new ≡ asked line wish.now write self.old) }
    {
        match self.places.find(wish.id) {
            Some(_) => Ok(()),
            None => {
                let unit = usize::from(wish.unit);
                let mut drive = self.drives[unit];
                let mut request = Request::new(self.event, line, wish.unit, wish.id, write);
                let admitted = admit(drive.kind, wish, self.lent);
                let frames = frames_of(wish);
                self.lent = submit(admitted, frames, self.lent, &mut drive, &mut request);
                self.places.add(wish.id)?;
                self.requests.push(request)?;
                self.drives[unit] = drive;
                Ok(())
            }
        }
    }

    /// The place of a request. If no script asked for it, it is met here.
    fn meet(&mut self, line: u32, unit: u8, id: u32) -> Result<usize, AllocError>
        requires { unit < 32 }
        ensures known { OnOk result (self.new ≡ met_at (place_of self.old.ids id) line unit id self.old) }
        ensures place { IfOk result (λ place. place ≡ place_in (place_of self.old.ids id) self.old.ids) }
    {
        match self.places.find(id) {
            Some(place) => Ok(place),
            None => {
                let at = usize::from(unit);
                let mut drive = self.drives[at];
                drive.meet();
                let mut request = Request::new(self.event, line, unit, id, false);
                request.rank = drive.queue.joined;
                let place = self.places.add(id)?;
                self.requests.push(request)?;
                self.drives[at] = drive;
                Ok(place)
            }
        }
    }

    /// A line of the trace, at the request of a place.
    fn tell_at(&mut self, place: usize, line: u32, unit: u8, deed: &Told)
        requires { unit < 32 }
        ensures { self.new ≡ told_at place line unit deed.now self.old }
    {
        let at = usize::from(unit);
        let mut drive = self.drives[at];
        let mut request = request_at(self.requests.as_slice(), place);
        let back = act(self.event, line, place, deed, &mut drive, &mut request);
        self.drives[at] = drive;
        put_request(self.requests.as_mut_slice(), place, request);
        self.lent = self.lent.saturating_sub(back);
    }

    /// A line of the trace.
    fn tell(&mut self, line: u32, unit: u8, id: u32, deed: &Told) -> Result<(), AllocError>
        requires { unit < 32 }
        ensures { OnOk result (self.new ≡ told line unit id deed.now self.old) }
    {
        let place = self.meet(line, unit, id)?;
        self.tell_at(place, line, unit, deed);
        Ok(())
    }

    /// Adds an event of the window to its column.
    fn add_to_column(&mut self, last: &Moment) -> Result<(), AllocError>
        ensures { OnOk result (self.new ≡ column_with last.now self.old) }
    {
        self.head.add(line_of(last), is_idle(last), &self.drives);
        if self.head.is_full(&self.window, self.event) {
            self.columns.push(Column {
                head: self.head,
                drives: self.drives,
            })?;
            self.head = Head::new();
            clear_cells(&mut self.drives);
        }
        Ok(())
    }

    /// Shows an event that is one of the window; the drives before the window are kept.
    fn show_event(&mut self, last: &Moment) -> Result<(), AllocError>
        ensures { OnOk result (self.new ≡ event_shown last.now self.old) }
    {
        if self.window.is_before(self.event) {
            self.start = self.drives;
            clear_cells(&mut self.drives);
            Ok(())
        } else if self.window.is_inside(self.event) {
            self.add_to_column(last)
        } else {
            Ok(())
        }
    }

    /// An event ends, whose last moment is given.
    fn end_event(&mut self, last: &Moment) -> Result<(), AllocError>
        ensures { OnOk result (self.new ≡ event_ended last.now self.old) }
    {
        self.glance.see(self.event, line_of(last), &self.drives);
        count_events(&mut self.drives);
        self.show_event(last)
    }

    /// If a moment begins another event, the event at hand ends.
    fn turn_for(&mut self, moment: &Moment) -> Result<(), AllocError>
        ensures { OnOk result (self.new ≡ turned moment.now self.old) }
    {
        if !begins(self.before, moment) {
            return Ok(());
        }
        match self.before {
            None => Ok(()),
            Some(last) => {
                self.end_event(&last)?;
                begin_events(&mut self.drives);
                self.event = plus(self.event, 1);
                Ok(())
            }
        }
    }

    /// A moment, within its event.
    fn hear(&mut self, moment: &Moment) -> Result<(), AllocError>
        requires { IsHeard moment.now }
        ensures { OnOk result (self.new ≡ heard moment.now self.old) }
    {
        match moment {
            Moment::Played { line, play } => match play {
                Play::Ask { request, write } => self.ask(*line, request, *write),
                Play::Change { unit, change } => {
                    self.drives[usize::from(*unit)].change(*change);
                    Ok(())
                }
                Play::Other => Ok(()),
            },
            Moment::Told {
                line,
                unit,
                id,
                deed,
            } => self.tell(*line, *unit, *id, deed),
            Moment::Idle { .. } => Ok(()),
        }
    }

    /// Takes in one more moment.
    pub fn step(&mut self, moment: &Moment) -> Result<(), AllocError>
        requires { IsHeard moment.now }
        ensures { OnOk result (self.new ≡ step self.old moment.now) }
    {
        self.turn_for(moment)?;
        self.before = Some(*moment);
        self.hear(moment)
    }

    /// The last event ends.
    fn end_last(&mut self) -> Result<(), AllocError>
        ensures { OnOk result (self.new ≡ ended_behind self.old.before self.old) }
    {
        match self.before {
            None => Ok(()),
            Some(last) => self.end_event(&last),
        }
    }

    /// Ends the run after its last moment.
    pub fn finish(&mut self) -> Result<(), AllocError>
        ensures { OnOk result (self.new ≡ finished self.old) }
    {
        let events = self.events();
        self.end_last()?;
        leave_all(self.requests.as_mut_slice(), events);
        Ok(())
    }

    /// How many events there were.
    pub fn events(&self) -> u64
        ensures { result ≡ events_in self.now.before self.now.event }
    {
        match self.before {
            None => 0,
            Some(_) => plus(self.event, 1),
        }
    }

    /// The drives.
    pub fn drives(&self) -> &[Drive; 32]
        ensures { result.now ≡ self.now.drives }
    {
        &self.drives
    }

    /// The requests, in the order in which they were asked for.
    pub fn requests(&self) -> &[Request]
        ensures { result.now ≡ self.now.requests }
    {
        self.requests.as_slice()
    }

    /// What is seen at a glance.
    pub fn glance(&self) -> Glance
        ensures { result ≡ self.now.glance }
    {
        self.glance
    }

    /// The columns.
    pub fn columns(&self) -> &[Column]
        ensures { result.now ≡ self.now.columns }
    {
        self.columns.as_slice()
    }

    /// The drives before the first column.
    pub fn start(&self) -> &[Drive; 32]
        ensures { result.now ≡ self.now.start }
    {
        &self.start
    }
}
