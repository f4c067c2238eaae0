//! The columns of a picture: the events of a window, equally many in each column.

ghost use Rattle.std.specs.Prelude.{◌≡◌, ◌<◌, map};
ghost use Rattle.drive_pictures.specs.Drives.{cleared};
ghost use Rattle.run_picture.specs.Columns.{window_of, edge_of, new_head, headed, adapter_drives, together, is_inside, is_full, is_before};

use crate::acts::positioning;
use drive_pictures::{Drive, plus};

/// The most columns of a picture.
const WIDEST: u64 = 216;

/// The events that a picture shows: from `first` up to `last`, `per` of them to a column.
#[derive(Clone, Copy)]
pub struct Window {
    pub first: u64,
    pub last: u64,
    pub per: u64,
}

/// The head of a column: the lines of its first and its last event, how many events it has, whether its first event found nothing
/// to do, and the most drives of each adapter that positioned after one of its events.
#[derive(Clone, Copy)]
pub struct Head {
    pub line: u32,
    pub last_line: u32,
    pub events: u64,
    pub idle: bool,
    pub together: [usize; 4],
}

/// A column: its head, and the drives after its last event, with what was seen of each drive in the column.
#[derive(Clone, Copy)]
pub struct Column {
    pub head: Head,
    pub drives: [Drive; 32],
}

/// A line of the script or of the trace that speaks of a drive, in a column of one event.
#[derive(Clone, Copy)]
pub struct Note<'a> {
    /// Its column, from 0.
    pub column: usize,
    /// The drive.
    pub unit: u8,
    /// Its text, without its end.
    pub text: &'a [u8],
}

impl Window {
    /// The events from `first` up to `last` of a run of `events` events, in at most 216 columns.
    pub fn new(events: u64, first: u64, last: u64) -> Window
        ensures { result ≡ window_of events first last }
    {
        let last = last.min(events);
        let first = first.min(last);
        let shown = last - first;
        Window {
            first,
            last,
            per: (shown / WIDEST + (shown % WIDEST).min(1)).max(1),
        }
    }

    /// The event at which a column begins, and at which the column before it ends.
    pub fn edge(&self, column: usize) -> u64
        ensures { result ≡ edge_of self.now column }
    {
        let events = self.per.saturating_mul(column as u64);
        self.first.saturating_add(events).min(self.last)
    }

    /// Whether an event is one of the window's.
    pub fn is_inside(&self, event: u64) -> bool
        ensures { result ≡ is_inside self.now event }
    {
        self.first <= event && event < self.last
    }

    /// Whether an event is the last one before the window.
    pub fn is_before(&self, event: u64) -> bool
        ensures { result ≡ is_before self.now event }
    {
        plus(event, 1) == self.first
    }
}

/// The drives of an adapter.
fn adapter_drives(drives: &[Drive; 32], adapter: usize) -> &[Drive]
    requires { adapter < 4 }
    ensures { result.now ≡ adapter_drives adapter drives.now }
{
    &drives[8 * adapter..8 * adapter + 8]
}

/// The drives of an adapter that position.
fn together(drives: &[Drive; 32], adapter: usize) -> usize
    requires { adapter < 4 }
    ensures { result ≡ together drives.now adapter }
{
    positioning(adapter_drives(drives, adapter))
}

impl Head {
    /// A head of no event.
    pub fn new() -> Head
        ensures { result ≡ new_head }
    {
        Head {
            line: 0,
            last_line: 0,
            events: 0,
            idle: false,
            together: [0; 4],
        }
    }

    /// Takes in one more event, at a line.
    pub fn add(&mut self, line: u32, idle: bool, drives: &[Drive; 32])
        ensures { self.new ≡ headed line idle drives.now self.old }
    {
        if self.events == 0 {
            self.line = line;
            self.idle = idle;
        }
        self.last_line = line;
        self.events = plus(self.events, 1);
        self.together = [
            self.together[0].max(together(drives, 0)),
            self.together[1].max(together(drives, 1)),
            self.together[2].max(together(drives, 2)),
            self.together[3].max(together(drives, 3)),
        ];
    }

    /// Whether no further event belongs to the column: it has as many events as a column has, or the window ends.
    pub fn is_full(&self, window: &Window, event: u64) -> bool
        ensures { result ≡ is_full self.now window.now event }
    {
        window.per <= self.events || plus(event, 1) == window.last
    }
}

/// Another column begins for each drive.
pub(crate) fn clear_cells(drives: &mut [Drive])
    ensures { drives.new ≡ map cleared drives.old }
{
    for drive in drives.iter_mut() {
        drive.clear();
    }
}
