//! What is known of a drive after a moment, and what each moment does to the drive.

ghost use Rattle.std.specs.Prelude.{◌≡◌, ◌<◌};
ghost use Rattle.drive_pictures.specs.Arms.{sent};
ghost use Rattle.trace_lines.specs.declared.telling.Told.TheVariants.{Sector};
ghost use Rattle.drive_pictures.specs.Drives.{new_drive, counted, offset_mark, offset_hundreds, cylinder_blocks, verdict_arm, said, tells, changed, joined, met, marked, freed, event_counted, unseen, cleared};

use crate::arms::{Arm, join_paths};
use crate::cells::Cell;
use crate::counts::plus;
use crate::letters::Letter;
use crate::marks::{Mark, mark_of};
use crate::trials::{Trial, verdict_letter};
use drive_registers::OffsetCode;
use hardware_table::Moved;
use pack_geometry::{DriveKind, geometry_of};
use trace_lines::Told;

/// What is seen of a drive in the event at hand: the gravest mark, the signal, the offset that was set, in hundreds, and the
/// number of the try that failed.
#[derive(Clone, Copy, Default)]
pub struct Seen {
    pub mark: Mark,
    pub signal: Mark,
    pub code: u32,
    pub tried: u32,
}

/// Events, counted by what a drive did after them: it was on its way, was ready and waited for its adapter, or held its adapter.
#[derive(Clone, Copy, Default)]
pub struct Times {
    pub way: u64,
    pub ready: u64,
    pub trans: u64,
}

/// The requests of a drive: how many joined, were served, and wait; the event of the last end; the cylinder of the last that
/// joined, and how far the arm would have moved from request to request in the order asked.
#[derive(Clone, Copy, Default)]
pub struct Queue {
    pub joined: u64,
    pub served: u64,
    pub waiting: u64,
    pub free: u64,
    pub last: u32,
    pub as_asked: u64,
}

/// A drive.
#[derive(Clone, Copy, Default)]
pub struct Drive {
    /// Its kind, if a script declares the drive.
    pub kind: Option<DriveKind>,
    /// What it does.
    pub letter: Letter,
    /// Its arm.
    pub arm: Arm,
    /// What is seen of it in the event at hand.
    pub seen: Seen,
    /// The request in hand.
    pub trial: Trial,
    /// Its requests.
    pub queue: Queue,
    /// The events since the last end.
    pub since: Times,
    /// All events.
    pub all: Times,
    /// Whether it is offline.
    pub offline: bool,
    /// Whether it is locked against writing.
    pub locked: bool,
    /// What was seen of it in the column at hand.
    pub cell: Cell,
}

/// What a line of the script changes at a drive.
#[derive(Clone, Copy)]
pub enum Change {
    /// Noise is armed.
    Noise,
    /// A fault is armed.
    Fault,
    /// The pack is turned.
    Turn,
    Offline,
    Online,
    Lock,
    Unlock,
}

impl Times {
    /// Counts one more event, after which a letter stands.
    fn count(&mut self, letter: Letter)
        ensures { self.new ≡ counted letter self.old }
    {
        match letter {
            Letter::Seeks
            | Letter::Turns
            | Letter::Recalibrates
            | Letter::Offsets
            | Letter::Arrived => self.way = plus(self.way, 1),
            Letter::Ready => self.ready = plus(self.ready, 1),
            Letter::Moves | Letter::Retries | Letter::Replaces | Letter::Moved => {
                self.trans = plus(self.trans, 1)
            }
            Letter::Idle => {}
        }
    }
}

/// The mark of an offset, and its hundreds.
fn offset_seen(code: OffsetCode) -> (Mark, u32)
    ensures mark { result.0 ≡ offset_mark code }
    ensures hundreds { result.1 ≡ offset_hundreds code }
{
    match code {
        OffsetCode::Plus400 => (Mark::OffsetPlus, 4),
        OffsetCode::Minus400 => (Mark::OffsetMinus, 4),
        OffsetCode::Plus800 => (Mark::OffsetPlus, 8),
        OffsetCode::Minus800 => (Mark::OffsetMinus, 8),
        OffsetCode::Plus1200 => (Mark::OffsetPlus, 12),
        OffsetCode::Minus1200 => (Mark::OffsetMinus, 12),
    }
}

/// The blocks of a cylinder.
pub fn cylinder_blocks(kind: DriveKind) -> u32
    ensures size { result ≡ cylinder_blocks kind }
    ensures some { 0 < result }
{
    let geometry = geometry_of(kind);
    geometry.tracks * geometry.sectors
}

impl Drive {
    /// A drive before the run, with its kind if a script declares one.
    pub fn new(kind: Option<DriveKind>) -> Drive
        ensures { result ≡ new_drive kind }
    {
        Drive {
            kind,
            ..Drive::default()
        }
    }

    /// Shows a mark, unless a graver one is shown.
    pub fn mark(&mut self, mark: Mark)
        ensures { self.new ≡ marked mark self.old }
    {
        self.seen.mark = self.seen.mark.later(mark);
    }

    /// If the drive was there, its arm is at the block's cylinder.
    fn reach_block(&mut self, verdict: Moved, block: u32)
        ensures { self.new ≡ record self.old { arm = verdict_arm verdict self.old.kind block self.old.arm } }
    {
        if let Moved::Offline = verdict {
            return;
        }
        if let Some(kind) = self.kind {
            self.arm.reach(block / cylinder_blocks(kind));
        }
    }

    /// A sector was tried.
    fn try_sector(&mut self, block: u32, verdict: Moved)
        ensures { self.new ≡ said (Sector block verdict) self.old }
    {
        self.reach_block(verdict, block);
        self.seen.mark = self.seen.mark.later(mark_of(verdict));
        self.trial.move_sector(verdict);
        self.letter = verdict_letter(verdict, self.trial.left);
    }

    /// The arm goes to a cylinder.
    fn go(&mut self, letter: Letter, cylinder: u32)
        ensures { self.new ≡ record self.old { letter = letter; arm = sent cylinder self.old.arm } }
    {
        self.letter = letter;
        self.arm.send(cylinder);
    }

    /// A signal is seen, and a letter stands.
    fn signal(&mut self, letter: Letter, signal: Mark)
        ensures { self.new ≡ record self.old { letter = letter; seen = record self.old.seen { signal = signal } } }
    {
        self.letter = letter;
        self.seen.signal = signal;
    }

    /// What a line of the trace says, but an end.
    fn say(&mut self, deed: &Told)
        ensures { self.new ≡ said deed.now self.old }
    {
        match *deed {
            Told::Search { cylinder, .. } if cylinder == self.arm.cylinder => {
                self.go(Letter::Turns, cylinder)
            }
            Told::Search { cylinder, .. } | Told::Seek { cylinder } => {
                self.go(Letter::Seeks, cylinder)
            }
            Told::Recal => self.go(Letter::Recalibrates, 0),
            Told::Offset { code } => {
                let (mark, hundreds) = offset_seen(code);
                let here = self.arm.cylinder;
                self.go(Letter::Offsets, here);
                self.mark(mark);
                self.seen.code = hundreds;
            }
            Told::Centre | Told::Clear | Told::End => {}
            Told::Pack => self.mark(Mark::Acknowledged),
            Told::Transfer { count, .. } => {
                let letter = self.trial.transfer_letter();
                let target = self.arm.target;
                self.go(letter, target);
                self.trial.begin(count);
            }
            Told::Arrive => {
                let target = self.arm.target;
                self.arm.reach(target);
                self.signal(Letter::Arrived, Mark::AttentionUp);
            }
            Told::Sector { block, verdict } => self.try_sector(block, verdict),
            Told::Intr => self.signal(Letter::Ready, Mark::InterruptTaken),
            Told::Try { failures, .. } => {
                self.trial.fails = failures;
                self.seen.tried = failures;
                self.seen.signal = Mark::TryFailed;
            }
            Told::Attn => self.signal(Letter::Ready, Mark::AttentionTaken),
        }
    }

    /// Takes in a line of the trace, except an end, for the request at a place.
    pub fn tell(&mut self, place: usize, deed: &Told)
        ensures { self.new ≡ tells place deed.now self.old }
    {
        self.trial.take(place);
        self.say(deed);
    }

    /// Changes the drive as a line of the script says.
    pub fn change(&mut self, change: Change)
        ensures { self.new ≡ changed change self.old }
    {
        let mark = match change {
            Change::Noise => Mark::NoiseArmed,
            Change::Fault => Mark::FaultArmed,
            Change::Turn => Mark::Turned,
            Change::Offline => {
                self.offline = true;
                Mark::Offline
            }
            Change::Online => {
                self.offline = false;
                Mark::Online
            }
            Change::Lock => {
                self.locked = true;
                Mark::Locked
            }
            Change::Unlock => {
                self.locked = false;
                Mark::Unlocked
            }
        };
        self.mark(mark);
    }

    /// A request joins, with the cylinder of its first block.
    pub fn join(&mut self, cylinder: u32)
        ensures { self.new ≡ joined cylinder self.old }
    {
        self.meet();
        let apart = u64::from(cylinder.abs_diff(self.queue.last));
        self.queue.as_asked = plus(self.queue.as_asked, apart);
        self.queue.last = cylinder;
        if self.letter == Letter::Idle {
            self.letter = Letter::Ready;
        }
    }

    /// A request for which no script asked is seen for the first time.
    pub fn meet(&mut self)
        ensures { self.new ≡ met self.old }
    {
        self.queue.joined = plus(self.queue.joined, 1);
        self.queue.waiting = plus(self.queue.waiting, 1);
    }

    /// The request in hand is answered at an event.
    pub fn free(&mut self, event: u64)
        ensures { self.new ≡ freed event self.old }
    {
        self.trial = Trial {
            left: self.trial.left,
            ..Trial::default()
        };
        self.queue.served = plus(self.queue.served, 1);
        self.queue.waiting = self.queue.waiting.saturating_sub(1);
        self.queue.free = event;
        self.since = Times::default();
        self.letter = if self.queue.waiting > 0 {
            Letter::Ready
        } else {
            Letter::Idle
        };
    }

    /// Another column begins.
    pub fn clear(&mut self)
        ensures { self.new ≡ cleared self.old }
    {
        self.cell = Cell::default();
    }

    /// An event ends.
    pub fn count_event(&mut self)
        ensures { self.new ≡ event_counted self.old }
    {
        let letter = self.letter;
        let cell = self.cell;
        let mut tally = cell.tally;
        tally.count(letter);
        self.cell = Cell {
            tally,
            path: join_paths(cell.path, self.arm.path),
            cylinder: self.arm.cylinder,
            waiting: cell.waiting.max(self.queue.waiting),
            mark: cell.mark.later(self.seen.mark),
            signal: cell.signal.later(self.seen.signal),
            code: cell.code.max(self.seen.code),
            tried: cell.tried.max(self.seen.tried),
            offline: cell.offline || self.offline,
            locked: cell.locked || self.locked,
        };
        self.since.count(letter);
        self.all.count(letter);
    }

    /// Another event begins.
    pub fn begin_event(&mut self)
        ensures { self.new ≡ unseen self.old }
    {
        self.arm.path = None;
        self.seen = Seen::default();
    }
}
