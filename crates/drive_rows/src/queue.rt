ghost use Rattle.std.specs.Prelude.{◌<◌};

use disksort::*;
use outside_traits::traits::NoMemory;
use std::alloc::Global;

/// How many join, at which cylinders, as the numbers 0, 1, 2 .. in this order, and in which order they are served.
type Order = (u32, [u32; 6], [u32; 6]);

static ORDERS: [Order; 5] = [
    (5, [10, 50, 20, 5, 20, 0], [0, 2, 4, 1, 3, 0]),
    (6, [10, 50, 20, 5, 20, 10], [0, 5, 2, 4, 1, 3]),
    (6, [7, 7, 7, 7, 7, 7], [0, 1, 2, 3, 4, 5]),
    (6, [814, 0, 63, 64, 0, 128], [0, 1, 4, 2, 3, 5]),
    (0, [0, 0, 0, 0, 0, 0], [0, 0, 0, 0, 0, 0]),
];

/// A queue with 8 places and 815 cylinders, which the first `count` of these joined.
fn queue_with_all(alloc: Global, count: u32, cylinders: &[u32; 6]) -> Result<SortQueue, NoMemory> {
    let mut queue = SortQueue::new(alloc, 8, 815)?;
    for number in 0..count.min(6) {
        queue.insert(number, cylinders[number as usize].min(814));
    }
    Ok(queue)
}

/// Whether a queue gives those of a row in their order, and none after them.
fn serves(queue: &mut SortQueue, row: &Order) -> bool {
    for i in 0..6u32 {
        let is_next = match queue.take_head() {
            Some(waiter) => i < row.0 && waiter.number == row.2[i as usize],
            None => i >= row.0,
        };
        if !is_next {
            return false;
        }
    }
    queue.len() == 0
}

#[test]
fn two_sweeps(rt: HostRuntime) {
    for row in &ORDERS {
        let queue = queue_with_all(rt.alloc(), row.0, &row.1);
        assert!(rt; queue.is_ok_and(|mut queue| serves(&mut queue, row)));
    }
}
