//! What is asked of the subsystem and how it is answered, and the order in which a unit serves the requests that wait at
//! it. The types of requests, answers and causes are defined here once: the driver takes requests and gives answers, and
//! the answer text says them.
//!
//! Defined in `specs/`: requests with their answers and causes, which the reader, the rules, the driver and the player
//! share; which answer has which kind; and the service order.

ghost use Rattle.std.specs.Prelude.{ℕ, List, ◌∷◌, drop};
ghost use Rattle.std.specs.List.Sorted.{IsPermutation};
ghost use Rattle.trace_replay.specs.requests.ServiceOrder.{IsInOrder, queue_with};

mod answers;
mod request;

pub use answers::{Answer, AnswerKind, Cause};
pub use request::Request;

/// The law of the service order, stated for numbers that wait. If a number joins a queue, the queue stays in order and
/// holds the numbers that waited and the new one. If the head leaves, the rest stays in order.
pub fn order_law()
    ensures joins { (cylinder_of : ℕ → ℕ) → (x : ℕ) → (queue : List ℕ) → IsInOrder cylinder_of queue → IsInOrder cylinder_of (queue_with cylinder_of x queue) }
    ensures holds { (cylinder_of : ℕ → ℕ) → (x : ℕ) → (queue : List ℕ) → IsPermutation (x ∷ queue) (queue_with cylinder_of x queue) }
    ensures leaves { (cylinder_of : ℕ → ℕ) → (queue : List ℕ) → IsInOrder cylinder_of queue → IsInOrder cylinder_of (drop 1 queue) }
{}
