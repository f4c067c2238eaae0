// One adapter, with the units that wait for it.
ghost use Rattle.std.specs.Prelude.{◌≡◌, ◌<◌, ◌∷◌, [], length, drop, IfSome, IfNone};
ghost use Rattle.driver_machine.specs.World.{new_adapter_view};
ghost use Rattle.driver_machine.specs.Acts.{waits_too, no_more_waits, with_state};
ghost use Rattle.hardware_table.specs.Adapter.{attention_raised, attention_lowered};

use arrayvec::ArrayVec;
use mba_adapter::Adapter;
use std::marker::Model;

/// An adapter: its state, and the units that wait for it in the order in which they became ready.
#[derive(Drop)]
pub struct Channel {
    queue: ArrayVec<u8, 32>,
    pub adapter: Adapter,
}

impl Model for Channel {
    ghost use Rattle.driver_machine.specs.World.{AdapterView};

    ghost Value = { AdapterView };

    ghost view = { λ c. record { queue = c.queue.items; state = c.adapter } };
}

impl Channel {
    /// A free adapter, for which no unit waits.
    pub fn new() -> Channel
        ensures { result ≡ new_adapter_view }
    {
        Channel {
            queue: ArrayVec::new(),
            adapter: Adapter::new(),
        }
    }

    /// The unit that has waited longest. None if no unit waits.
    pub fn first(&self) -> Option<u8>
        ensures some { IfSome result (λ u. self.now.queue ≡ u ∷ drop 1 self.now.queue) }
        ensures none { IfNone result (self.now.queue ≡ []) }
    {
        self.queue.first().copied()
    }

    /// Puts a unit behind those that wait.
    pub fn wait(&mut self, unit: u8)
        requires room { length self.old.queue < 32 }
        ensures { self.new ≡ waits_too unit self.old }
    {
        self.queue.push(unit);
    }

    /// Takes a unit out of those that wait, if it waits.
    pub fn leave(&mut self, unit: u8)
        ensures { self.new ≡ no_more_waits unit self.old }
    {
        self.queue.retain(|waiting| *waiting != unit);
    }

    /// Raises the attention of a drive.
    pub fn raise(&mut self, drive: u8)
        requires { drive < 8 }
        ensures { self.new ≡ with_state (attention_raised drive) self.old }
    {
        self.adapter.raise_attention(drive);
    }

    /// Clears the attention of a drive.
    pub fn lower(&mut self, drive: u8)
        requires { drive < 8 }
        ensures { self.new ≡ with_state (attention_lowered drive) self.old }
    {
        self.adapter.clear_attention(drive);
    }
}
