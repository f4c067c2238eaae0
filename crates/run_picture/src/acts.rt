//! What each moment and the end of each event do to drives and requests.

ghost use Rattle.std.specs.Prelude.{◌≡◌, nat_lt, if◌then◌else◌, map};
ghost use Rattle.drive_pictures.specs.Counts.{plus};
ghost use Rattle.run_picture.specs.Positioning.{positions, moves, positioning, moving};
ghost use Rattle.drive_pictures.specs.Told.TheVariants.{End};
ghost use Rattle.drive_pictures.specs.Drives.{event_counted, unseen};
ghost use Rattle.run_picture.specs.Fold.{admitted, frames_of, request_asked, drive_asked, lent_asked, drive_after, request_after, back_after, end_mark, glance_after};

use drive_pictures::{Asked, Drive, Mark, Outcome, Request, Told, cylinder_blocks, plus};
use pack_geometry::DriveKind;
use partitions::part_range;

/// The frames of main memory.
const FRAMES: u64 = 16_384;

/// What is seen of a whole run at a glance: the most drives that positioned after one event, and the line of the first such
/// event; the events after which sectors moved, and those of them after which a drive positioned.
#[derive(Clone, Copy, Default)]
pub struct Glance {
    pub most: usize,
    pub most_line: u32,
    pub moving: u64,
    pub both: u64,
}

/// The frames that a request's bytes lie in.
pub fn frames_of(asked: &Asked) -> u64
    ensures { result ≡ frames_of asked.now }
{
    let blocks = u64::from(asked.count).saturating_sub(1);
    (u64::from(asked.offset) + 512 * blocks + u64::from(asked.last) + 511) / 512
}

/// The cylinder of a request's first block, with `lent` frames lent before; or why the request is refused.
fn admit_frames(cylinder: u32, asked: &Asked, lent: u64) -> Result<u32, Outcome>
    ensures { result ≡ (if nat_lt 16384 (plus lent (frames_of asked.now)) then Err Outcome.Frames else Ok cylinder) }
{
    if plus(lent, frames_of(asked)) > FRAMES {
        Err(Outcome::Frames)
    } else {
        Ok(cylinder)
    }
}

/// Whether a request is admitted: the cylinder of its first block, or why it is refused.
pub fn admit(kind: Option<DriveKind>, asked: &Asked, lent: u64) -> Result<u32, Outcome>
    ensures { result ≡ admitted kind asked.now lent }
{
    let kind = kind.ok_or(Outcome::Partition)?;
    let range = part_range(kind, asked.part);
    let count = u32::from(asked.count);
    if asked.block == range.size {
        Err(Outcome::Eof)
    } else if asked.block > range.size || count > range.size - asked.block {
        Err(Outcome::Partition)
    } else {
        admit_frames(
            (range.first + asked.block) / cylinder_blocks(kind),
            asked,
            lent,
        )
    }
}

/// A request is asked for at its drive, with `lent` frames lent before. The result is how many frames are lent then.
pub fn submit(
    admitted: Result<u32, Outcome>,
    frames: u64,
    lent: u64,
    drive: &mut Drive,
    request: &mut Request,
) -> u64
    ensures drive { drive.new ≡ drive_asked admitted drive.old }
    ensures request { request.new ≡ request_asked admitted frames drive.old.queue.joined request.old }
    ensures lent { result ≡ lent_asked admitted frames lent }
{
    drive.mark(Mark::Asked);
    match admitted {
        Ok(cylinder) => {
            drive.join(cylinder);
            request.cylinder = Some(cylinder);
            request.needed = frames;
            request.rank = drive.queue.joined;
            plus(lent, frames)
        }
        Err(why) => {
            request.why = Some(why);
            lent
        }
    }
}

/// The mark of an answer.
fn end_mark(outcome: Outcome) -> Mark
    ensures { result ≡ end_mark outcome }
{
    match outcome {
        Outcome::Ok => Mark::Answered,
        _ => Mark::Stopped,
    }
}

/// Takes in an end, at a drive and at the request of a place. The result is how many frames come back.
fn end(event: u64, line: u32, place: usize, drive: &mut Drive, request: &mut Request) -> u64
    ensures drive { drive.new ≡ drive_after event place End drive.old request.old }
    ensures request { request.new ≡ request_after event line place End drive.old request.old }
    ensures back { result ≡ back_after place End drive.old request.old }
{
    if request.is_refused(place, drive) {
        request.refuse(event, line);
        drive.mark(Mark::Stopped);
        return 0;
    }
    let mark = end_mark(request.answer(drive));
    request.end(event, line, drive);
    drive.free(event);
    drive.mark(mark);
    request.needed
}

/// Takes in a line of the trace, at a drive and at the request of a place. The result is how many frames come back.
pub fn act(
    event: u64,
    line: u32,
    place: usize,
    deed: &Told,
    drive: &mut Drive,
    request: &mut Request,
) -> u64
    ensures drive { drive.new ≡ drive_after event place deed.now drive.old request.old }
    ensures request { request.new ≡ request_after event line place deed.now drive.old request.old }
    ensures back { result ≡ back_after place deed.now drive.old request.old }
{
    match deed {
        Told::End => end(event, line, place, drive, request),
        _ => {
            request.tell(place, drive, deed);
            drive.tell(place, deed);
            0
        }
    }
}

/// Whether a drive positions.
#[tactic(auto, unfolding(crate::specs::Positioning::positions))]
fn positions(drive: &Drive) -> bool
    ensures { result ≡ positions drive.now }
{
    drive.letter.is_positioning()
}

/// Whether its sectors move.
#[tactic(auto, unfolding(crate::specs::Positioning::moves))]
fn moves(drive: &Drive) -> bool
    ensures { result ≡ moves drive.now }
{
    drive.letter.is_moving()
}

/// How many drives position.
pub fn positioning(drives: &[Drive]) -> usize
    ensures { result ≡ positioning drives.now }
{
    drives.iter().filter(|drive| positions(drive)).count()
}

/// Whether sectors move.
fn moving(drives: &[Drive]) -> bool
    ensures { result ≡ moving drives.now }
{
    drives.iter().any(|drive| moves(drive))
}

impl Glance {
    /// An event ends: takes in how many drives position then, and whether sectors move.
    pub fn see(&mut self, event: u64, line: u32, drives: &[Drive])
        ensures { self.new ≡ glance_after event line drives.now self.old }
    {
        let here = positioning(drives);
        if event == 0 || here > self.most {
            self.most = here;
            self.most_line = line;
        }
        if moving(drives) {
            self.moving = plus(self.moving, 1);
            if here > 0 {
                self.both = plus(self.both, 1);
            }
        }
    }
}

/// An event ends for each drive.
pub(crate) fn count_events(drives: &mut [Drive])
    ensures { drives.new ≡ map event_counted drives.old }
{
    for drive in drives.iter_mut() {
        drive.count_event();
    }
}

/// Another event begins for each drive.
pub(crate) fn begin_events(drives: &mut [Drive])
    ensures { drives.new ≡ map unseen drives.old }
{
    for drive in drives.iter_mut() {
        drive.begin_event();
    }
}
