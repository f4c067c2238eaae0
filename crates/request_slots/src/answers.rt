// The answers that wait to be taken.
ghost use Rattle.std.specs.Prelude.{◌≡◌, ◌<◌, ◌≤◌, [], ◌∷◌, ◌++◌, length, drop, IfOk, IfSome, IfNone};

use driver_machine::Made;
use outside_traits::traits::NoMemory;
use std::alloc::Global;
use std::collections::VecDeque;
use std::marker::Model;

/// The answers that wait, oldest first. Room is reserved for as many as there may be.
#[derive(Drop)]
pub struct Answers {
    waiting: VecDeque<Made>,
    most: u32,
}

impl Model for Answers {
    ghost use Rattle.std.specs.Prelude.{◌≤◌};
    ghost use Rattle.std.specs.VecDeque.{deque_capacity};
    ghost use Rattle.request_slots.specs.Queues.{AnswerQueue};

    ghost Value = { AnswerQueue };

    ghost view = { λ a. record { made = a.waiting.items; most = a.most } };

    ghost invariant = { λ a. a.most ≤ deque_capacity a.waiting };
}

impl Answers {
    /// An empty queue, which reserves room for `most` answers. `NoMemory` if the room is not available.
    pub fn new(alloc: Global, most: u32) -> Result<Answers, NoMemory>
        ensures { IfOk result (λ a. a ≡ record { made = []; most = most }) }
    {
        let waiting = VecDeque::with_capacity(alloc, most as usize)?;
        Ok(Answers { waiting, most })
    }

    /// The oldest answer. None if no answer waits.
    pub fn first(&self) -> Option<Made>
        ensures some { IfSome result (λ made. self.now.made ≡ made ∷ drop 1 self.now.made) }
        ensures none { IfNone result (self.now.made ≡ []) }
    {
        self.waiting.front().copied()
    }

    /// Puts an answer behind those that wait.
    pub fn push(&mut self, made: Made)
        requires { length self.old.made < self.old.most }
        ensures { self.new ≡ record self.old { made = self.old.made ++ made ∷ [] } }
    {
        self.waiting.push_back_reserved(made);
    }

    /// Takes out the oldest answer.
    pub fn leave(&mut self)
        requires { 0 < length self.old.made }
        ensures { self.new ≡ record self.old { made = drop 1 self.old.made } }
    {
        let _first = self.waiting.pop_front();
    }
}
