use drive_pictures::Moment;
use std::alloc::AllocError;

/// A line of a run: what is seen at it, the drive that it names, 0 to 31, and its text.
#[derive(Clone, Copy)]
pub struct Seen<'a> {
    pub moment: Moment,
    pub names: Option<u8>,
    pub text: &'a [u8],
}

/// Who watches a run, a line at a time.
pub trait Watcher<'a> {
    ghost use Rattle.std.specs.Prelude.{◌≡◌, OnOk};
    ghost use Rattle.run_view.specs.Saids.{Said, said_of, IsHeardAt};

    /// What the watcher knows after one more line.
    ghost step: { Self → Said → Self };

    /// Sees a line. `AllocError` says only that there was no memory.
    fn see(&mut self, seen: &Seen<'a>) -> Result<(), AllocError>
        requires { IsHeardAt (said_of seen.now) }
        ensures { OnOk result (self.new ≡ step self.old (said_of seen.now)) };
}
