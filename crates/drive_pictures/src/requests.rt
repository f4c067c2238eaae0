//! What becomes of a request.

ghost use Rattle.std.specs.Prelude.{◌≡◌};
ghost use Rattle.drive_pictures.specs.Requests.{new_request, queued, is_out_of_order, started, heard, tells, stopped_by, answer, is_refused, refused, ended, left};

use crate::counts::plus;
use crate::drives::{Drive, Times};
use crate::marks::mark_of;
use hardware_table::Moved;
use trace_lines::Told;

/// How a request was answered, as far as the trace tells.
#[derive(Clone, Copy, Default, PartialEq, Eq)]
pub enum Outcome {
    /// It is not answered yet.
    #[default]
    Open,
    /// All of its blocks are done.
    Ok,
    /// It began at the very end of its partition.
    Eof,
    /// It reached beyond its partition.
    Partition,
    /// There were too few frames for it.
    Frames,
    /// It was refused when it was submitted, and no script says why.
    Refused,
    /// A block is marked and has no replacement, or the replacement is marked.
    Unforwarded,
    /// The drive was offline.
    Offline,
    /// All tries at a block failed.
    Fault,
    /// The drive was locked.
    Locked,
    /// It was stopped, and the trace does not tell what stopped it.
    Stopped,
}

/// A request, and what became of it.
#[derive(Clone, Copy, Default)]
pub struct Request {
    pub id: u32,
    pub unit: u8,
    /// Whether it writes.
    pub write: bool,
    /// The line of the script at which it was asked for.
    pub line: u32,
    /// The cylinder of its first block, if it joined.
    pub cylinder: Option<u32>,
    /// Why it was refused when it was submitted, if it was.
    pub why: Option<Outcome>,
    /// How many frames it was lent.
    pub needed: u64,
    /// The event in which it was asked for.
    pub asked: u64,
    /// The event from which on it was in hand.
    pub in_hand: Option<u64>,
    /// The event and the line of its end.
    pub ended: Option<u64>,
    pub ended_line: u32,
    /// Its number among the requests of its unit that joined, and among those that were served, from 1; 0 if it did not.
    pub rank: u64,
    pub turn: u64,
    /// The events while it was in hand.
    pub times: Times,
    /// How many of its sectors moved.
    pub done: u64,
    /// The verdict of its last sector.
    pub verdict: Option<Moved>,
    /// Its answer.
    pub outcome: Outcome,
    /// Whether a sector of it could not be moved as it was, a try failed, or the request was stopped.
    pub trouble: bool,
}

impl Request {
    /// A request when it is asked for, at an event and a line.
    pub fn new(event: u64, line: u32, unit: u8, id: u32, write: bool) -> Request
        ensures { result ≡ new_request event line unit id write }
    {
        Request {
            id,
            unit,
            write,
            line,
            asked: event,
            ..Request::default()
        }
    }

    /// How many events it waited.
    pub fn queued(&self) -> u64
        ensures { result ≡ queued self.now }
    {
        match self.in_hand {
            Some(event) => event.saturating_sub(self.asked),
            None => 0,
        }
    }

    /// Whether it was served, and its number among those served is not its number among those that joined.
    pub fn is_out_of_order(&self) -> bool
        ensures { result ≡ is_out_of_order self.now }
    {
        self.turn != 0 && self.turn != self.rank
    }

    /// It is in hand from the event that asks for it, or from the end of the request before it.
    fn start(&mut self, free: u64)
        ensures { self.new ≡ started free self.old }
    {
        self.in_hand = Some(self.asked.max(free));
    }

    /// Takes in what a line of the trace says of it.
    fn hear(&mut self, deed: &Told)
        ensures { self.new ≡ heard deed.now self.old }
    {
        match *deed {
            Told::Transfer { write, .. } => self.write = write,
            Told::Sector { verdict, .. } => {
                if matches!(verdict, Moved::Clean | Moved::Burst { .. }) {
                    self.done = plus(self.done, 1);
                }
                self.verdict = Some(verdict);
                self.trouble = self.trouble || mark_of(verdict).is_trouble();
            }
            Told::Try { .. } => self.trouble = true,
            _ => {}
        }
    }

    /// Takes in a line of the trace, except an end, with its drive as that was before the line.
    pub fn tell(&mut self, place: usize, drive: &Drive, deed: &Told)
        ensures { self.new ≡ tells place drive.now deed.now self.old }
    {
        if !drive.trial.is_at(place) {
            self.start(drive.queue.free);
        }
        self.hear(deed);
    }

    /// What stopped it, by the verdict of its last sector and its drive.
    fn stopped_by(&self, drive: &Drive) -> Outcome
        ensures { result ≡ stopped_by self.now.verdict drive.now self.now }
    {
        match self.verdict {
            Some(Moved::Marked) => {
                if drive.trial.marks < 2 && (drive.offline || (self.write && drive.locked)) {
                    Outcome::Stopped
                } else {
                    Outcome::Unforwarded
                }
            }
            Some(Moved::Offline) => Outcome::Offline,
            _ if drive.trial.fails == 28 => Outcome::Fault,
            _ if drive.offline => Outcome::Offline,
            _ if drive.locked => Outcome::Locked,
            _ => Outcome::Stopped,
        }
    }

    /// Its answer, judged by its drive as that is before the end.
    pub fn answer(&self, drive: &Drive) -> Outcome
        ensures { result ≡ answer drive.now self.now }
    {
        if drive.trial.want > 0 && self.done == u64::from(drive.trial.want) {
            Outcome::Ok
        } else {
            self.stopped_by(drive)
        }
    }

    /// Whether it was refused when it was submitted, or another request is in hand.
    pub fn is_refused(&self, place: usize, drive: &Drive) -> bool
        ensures { result ≡ is_refused place drive.now self.now }
    {
        self.why.is_some() || (drive.trial.hand.is_some() && !drive.trial.is_at(place))
    }

    /// Ends it, at an event and a line, as a request that was refused.
    pub fn refuse(&mut self, event: u64, line: u32)
        ensures { self.new ≡ refused event line self.old }
    {
        self.in_hand = Some(event);
        self.ended = Some(event);
        self.ended_line = line;
        self.outcome = self.why.unwrap_or(Outcome::Refused);
        self.trouble = true;
    }

    /// Ends it, at an event and a line, while it is in hand at its drive, with the drive as that was before.
    pub fn end(&mut self, event: u64, line: u32, drive: &Drive)
        ensures { self.new ≡ ended event line drive.now self.old }
    {
        let outcome = self.answer(drive);
        if drive.trial.hand.is_none() {
            self.start(drive.queue.free);
        }
        self.ended = Some(event);
        self.ended_line = line;
        self.outcome = outcome;
        self.trouble = self.trouble || outcome != Outcome::Ok;
        self.times = drive.since;
        self.turn = plus(drive.queue.served, 1);
    }

    /// After the last event, a request that has not ended is open.
    pub fn leave(&mut self, events: u64)
        ensures { self.new ≡ left events self.old }
    {
        if self.ended.is_none() {
            if self.in_hand.is_none() {
                self.in_hand = Some(events);
            }
            self.ended = Some(events);
        }
    }
}
