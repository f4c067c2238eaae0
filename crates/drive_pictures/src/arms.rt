//! Where the arm of a drive is and goes, and where it was seen.

ghost use Rattle.std.specs.Prelude.{◌≡◌};
ghost use Rattle.drive_pictures.specs.Arms.{paths_joined, seen_at, sent, reached};

use crate::counts::plus;

/// The cylinders where an arm was seen: the first, the lowest, the highest and the last.
#[derive(Clone, Copy)]
pub struct Path {
    pub first: u32,
    pub lowest: u32,
    pub highest: u32,
    pub last: u32,
}

/// An arm: the cylinder where it is, the one to which it goes, how many cylinders it has moved over, and where it was seen
/// in the event at hand.
#[derive(Clone, Copy, Default)]
pub struct Arm {
    pub cylinder: u32,
    pub target: u32,
    pub travel: u64,
    pub path: Option<Path>,
}

/// A path, and another one after it.
pub(crate) fn join_paths(path: Option<Path>, behind: Option<Path>) -> Option<Path>
    ensures { result ≡ paths_joined path behind }
{
    match path {
        None => behind,
        Some(before) => match behind {
            None => Some(before),
            Some(after) => Some(Path {
                first: before.first,
                lowest: before.lowest.min(after.lowest),
                highest: before.highest.max(after.highest),
                last: after.last,
            }),
        },
    }
}

impl Arm {
    /// Notes where the arm is.
    fn see(&mut self)
        ensures { self.new ≡ seen_at self.old }
    {
        let here = Path {
            first: self.cylinder,
            lowest: self.cylinder,
            highest: self.cylinder,
            last: self.cylinder,
        };
        self.path = join_paths(self.path, Some(here));
    }

    /// Notes the arm where it is, and sends it to a cylinder.
    pub(crate) fn send(&mut self, target: u32)
        ensures { self.new ≡ sent target self.old }
    {
        self.see();
        self.target = target;
    }

    /// Brings the arm to a cylinder; it has moved over those between.
    pub(crate) fn reach(&mut self, cylinder: u32)
        ensures { self.new ≡ reached cylinder self.old }
    {
        self.travel = plus(self.travel, u64::from(cylinder.abs_diff(self.cylinder)));
        self.cylinder = cylinder;
        self.see();
    }
}
