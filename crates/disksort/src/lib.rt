//! The sorted queue of a unit: the arm sweeps from low cylinders to high ones, and then begins again. The queue is kept
//! in buckets of cylinders, so that a request joins or leaves at the same cost however many requests wait.
//!
//! What is proved: contracts see `SortQueue` as the list of waiters in the service order, which is a sort of the whole
//! list by sweep, cylinder and order of joining; `insert`, `head`, `take_head`, `nth` and `len` are exact. The two runs
//! of a queue lie in buckets by cylinder, and the invariant says that these spell the list.
//!
//! Only tested, in `drive_rows`: worked values, beside their proofs.
#![tactic(auto)]

ghost use Rattle.std.specs.Prelude.{◌≡◌, ◌≢◌, ◌<◌, ◌≤◌, ◌⊎◌, ℕ, false, IsTrue, [], length, drop, All, IfOk, slice_get};
ghost use Rattle.trace_replay.specs.requests.ServiceOrder.{queue_with, IsInOrder};
ghost use Rattle.disksort.specs.Buckets.{IsLowest};
ghost use Rattle.disksort.specs.Runs.{seen};
ghost use Rattle.disksort.specs.SortQueue.{cylinder_of};

mod row;
mod run;

use crate::run::{Run, zeros};
use no_memory::NoMemory;
use std::alloc::Global;
use std::marker::Model;

/// A request that waits: its number, and the cylinder of its first block.
#[derive(Clone, Copy)]
pub struct Waiter {
    pub number: u32,
    pub cylinder: u32,
}

/// The requests that wait at a unit, in the order in which it serves them, after 4.3BSD's `disksort`.
///
/// Each of its two runs has, for every cylinder, the first and the last number that waits there, and a bit that says
/// whether one does; each number has the one behind it. A request joins behind the last one of its cylinder, and the
/// queue finds the next cylinder by its bit.
#[derive(Drop)]
pub struct SortQueue {
    first: Run,
    second: Run,
    behind: Vec<u32>,
    count: u32,
    capacity: u32,
    cylinders: u32,
}

impl Model for SortQueue {
    ghost use Rattle.disksort.specs.SortQueue.{Queue, IsKept, waiting_in};
    ghost use Rattle.disksort.specs.Runs.{seen};

    ghost Value = { Queue };

    ghost view = { λ q. record {
      waiting = waiting_in (seen q.first) (seen q.second) q.behind.items q.capacity q.cylinders;
      capacity = q.capacity;
      cylinders = q.cylinders;
    } };

    ghost invariant = { λ q. IsKept (seen q.first) (seen q.second) q.behind.items q.count q.capacity q.cylinders };
}

/// Whether a request that joins at a cylinder goes into the second run: one waits already, and the head's cylinder is higher.
fn joins_second(first: &Run, cylinder: u32) -> bool
    ensures second { IsTrue result → (h : ℕ) × IsLowest (seen first.now).marked h × (cylinder < h) }
    ensures first { result ≡ false → ((c : ℕ) → (seen first.now).marked c ≡ false) ⊎ ((h : ℕ) × IsLowest (seen first.now).marked h × (h ≤ cylinder)) }
{
    match first.lowest() {
        Some(head) => cylinder < head,
        None => false,
    }
}

impl SortQueue {
    /// An empty queue, which reserves room for `capacity` requests at cylinders below `cylinders`. `NoMemory` if the room is not available.
    pub fn new(alloc: Global, capacity: u32, cylinders: u32) -> Result<SortQueue, NoMemory>
        requires capacity { capacity ≤ 65536 }
        requires cylinders { cylinders ≤ 1024 }
        ensures { IfOk result (λ q. q ≡ record { waiting = []; capacity = capacity; cylinders = cylinders }) }
    {
        let first = Run::new(alloc, cylinders)?;
        let second = Run::new(alloc, cylinders)?;
        let behind = zeros(alloc, capacity)?;
        Ok(SortQueue {
            first,
            second,
            behind,
            count: 0,
            capacity,
            cylinders,
        })
    }

    /// How many requests wait.
    pub fn len(&self) -> u32
        ensures len { result ≡ length self.now.waiting }
        ensures fits { result ≤ self.now.capacity }
    {
        self.count
    }

    /// The request that is served first. None if no request waits.
    pub fn head(&self) -> Option<Waiter>
        ensures { result ≡ slice_get self.now.waiting 0 }
    {
        let cylinder = self.first.lowest()?;
        let number = self.first.first(cylinder);
        Some(Waiter { number, cylinder })
    }

    /// The request that is served after `i` others. None if at most `i` requests wait.
    pub fn nth(&self, i: u32) -> Option<Waiter>
        ensures waiter { result ≡ slice_get self.now.waiting i }
        ensures order { IsInOrder cylinder_of self.now.waiting }
    {
        let behind = self.behind.as_slice();
        match self.first.nth(behind, i) {
            Ok(waiter) => Some(waiter),
            Err(rest) => self.second.nth(behind, rest).ok(),
        }
    }

    /// Takes out the request that is served first. None if no request waits.
    pub fn take_head(&mut self) -> Option<Waiter>
        ensures head { result ≡ slice_get self.old.waiting 0 }
        ensures rest { self.new ≡ record self.old { waiting = drop 1 self.old.waiting } }
    {
        let cylinder = self.first.lowest()?;
        let number = self.first.take_first(self.behind.as_slice(), cylinder);
        self.count -= 1;
        if self.first.is_empty() {
            self.first.swap(&mut self.second);
        }
        Some(Waiter { number, cylinder })
    }

    /// A request that does not wait yet joins the queue.
    pub fn insert(&mut self, number: u32, cylinder: u32)
        requires room { length self.old.waiting < self.old.capacity }
        requires number { number < self.old.capacity }
        requires absent { All (λ w. w.number ≢ number) self.old.waiting }
        requires cylinder { cylinder < self.old.cylinders }
        ensures { self.new ≡ record self.old {
          waiting = queue_with cylinder_of (record { number = number; cylinder = cylinder }) self.old.waiting;
        } }
    {
        self.count += 1;
        if joins_second(&self.first, cylinder) {
            self.second.append(&mut self.behind, number, cylinder);
            return;
        }
        self.first.append(&mut self.behind, number, cylinder);
    }
}
