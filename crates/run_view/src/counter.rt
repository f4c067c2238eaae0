// The events of a run are counted.
use crate::{Seen, Watcher};
use drive_pictures::{Moment, begins, plus};
use std::alloc::AllocError;

/// The last moment so far, and the number of its event.
#[derive(Clone, Copy)]
pub(crate) struct Counter {
    before: Option<Moment>,
    pub(crate) event: u64,
}

impl Counter {
    ghost use Rattle.std.specs.Prelude.{◌≡◌};
    ghost use Rattle.run_view.specs.Events.{new_counter, counted};
    ghost use Rattle.run_picture.specs.Fold.{events_in};

    /// Before the first moment.
    pub(crate) fn new() -> Counter
        ensures { result ≡ new_counter }
    {
        Counter {
            before: None,
            event: 0,
        }
    }

    /// How many events there were.
    pub(crate) fn events(&self) -> u64
        ensures { result ≡ events_in self.now.before self.now.event }
    {
        match self.before {
            None => 0,
            Some(_) => plus(self.event, 1),
        }
    }

    /// Takes in one more moment.
    pub(crate) fn count(&mut self, moment: &Moment)
        ensures { self.new ≡ counted self.old moment.now }
    {
        if self.before.is_some() && begins(self.before, moment) {
            self.event = plus(self.event, 1);
        }
        self.before = Some(*moment);
    }
}

impl<'a> Watcher<'a> for Counter {
    ghost use Rattle.run_view.specs.Events.{counted};

    ghost step = { λ counter said. counted counter said.moment };

    fn see(&mut self, seen: &Seen<'a>) -> Result<(), AllocError> {
        self.count(&seen.moment);
        Ok(())
    }
}
