// One of the two runs of a queue, by buckets of cylinders.
ghost use Rattle.std.specs.Prelude.{◌≡◌, ◌+◌, ◌<◌, ◌≤◌, ℕ, true, false, length, slice_get, slice_index, IfOk, IfErr, IfSome, IfNone, Some};
ghost use Rattle.std.specs.List.{AllByRecursion};
ghost use Rattle.disksort.specs.Runs.{seen};
ghost use Rattle.disksort.specs.Buckets.{IsRun, IsLinked, IsLowest, chain, bucket, spelled, appended, behind_appended, without_first};

use crate::Waiter;
use crate::row::{clear_bit, is_on, lowest, set_bit};
use no_memory::NoMemory;
use std::alloc::Global;
use std::mem::swap;

/// For each cylinder, the first and the last number that waits there, and a bit that says whether a number waits there.
#[derive(Drop)]
pub(crate) struct Run {
    firsts: Vec<u32>,
    lasts: Vec<u32>,
    words: [u64; 16],
}

/// A list of this many zeros. `NoMemory` if there is no room for it.
pub(crate) fn zeros(alloc: Global, count: u32) -> Result<Vec<u32>, NoMemory>
    ensures { IfOk result (λ numbers. length numbers.items ≡ count) }
{
    Ok(vec![in alloc; 0u32; count as usize]?)
}

/// The number that has `i` others of its bucket in front of it, or how many are missing.
fn nth_in(behind: &[u32], first: u32, last: u32, i: u32) -> Result<u32, u32>
    requires linked { IsLinked behind.now (chain behind.now (length behind.now) first last) first last }
    requires inside { AllByRecursion (λ n. n < length behind.now) (chain behind.now (length behind.now) first last) }
    ensures number { IfOk result (λ n. slice_get (chain behind.now (length behind.now) first last) i ≡ Some n) }
    ensures missing { IfErr result (λ rest. i ≡ length (chain behind.now (length behind.now) first last) + rest) }
{
    let mut number = first;
    for done in 0..i {
        if number == last {
            return Err(i - done - 1);
        }
        number = behind[number as usize];
    }
    Ok(number)
}

impl Run {
    /// A run in which no number waits.
    pub(crate) fn new(alloc: Global, cylinders: u32) -> Result<Run, NoMemory>
        ensures firsts { IfOk result (λ run. length (seen run).firsts ≡ cylinders) }
        ensures lasts { IfOk result (λ run. length (seen run).lasts ≡ cylinders) }
        ensures none { IfOk result (λ run. (c : ℕ) → (seen run).marked c ≡ false) }
    {
        let firsts = zeros(alloc, cylinders)?;
        let lasts = zeros(alloc, cylinders)?;
        Ok(Run {
            firsts,
            lasts,
            words: [0; 16],
        })
    }

    /// The lowest cylinder at which a number waits. None if no number waits.
    pub(crate) fn lowest(&self) -> Option<u32>
        ensures lowest { IfSome result (λ c. IsLowest (seen self.now).marked c) }
        ensures none { IfNone result ((c : ℕ) → (seen self.now).marked c ≡ false) }
    {
        lowest(&self.words)
    }

    /// Whether no number waits.
    pub(crate) fn is_empty(&self) -> bool
        ensures none { result ≡ true → (c : ℕ) → (seen self.now).marked c ≡ false }
        ensures some { result ≡ false → (c : ℕ) × ((seen self.now).marked c ≡ true) }
    {
        self.lowest().is_none()
    }

    /// The first number that waits at a cylinder.
    pub(crate) fn first(&self, cylinder: u32) -> u32
        requires { cylinder < length (seen self.now).firsts }
        ensures { result ≡ slice_index (seen self.now).firsts cylinder }
    {
        self.firsts[cylinder as usize]
    }

    /// Puts a number behind the last one of its cylinder.
    pub(crate) fn append(&mut self, behind: &mut Vec<u32>, number: u32, cylinder: u32)
        requires firsts { cylinder < length (seen self.old).firsts }
        requires lasts { length (seen self.old).lasts ≡ length (seen self.old).firsts }
        requires few { length (seen self.old).firsts ≤ 1024 }
        requires inside { (seen self.old).marked cylinder ≡ true → slice_index (seen self.old).lasts cylinder < length behind.old.items }
        ensures run { (seen self.new) ≡ appended (seen self.old) number cylinder }
        ensures behind { behind.new.items ≡ behind_appended (seen self.old) behind.old.items number cylinder }
    {
        let at = cylinder as usize;
        if is_on(&self.words, cylinder) {
            let last = self.lasts[at];
            behind[last as usize] = number;
            self.lasts[at] = number;
            return;
        }
        self.firsts[at] = number;
        self.lasts[at] = number;
        set_bit(&mut self.words, cylinder);
    }

    /// Takes out the first number of a cylinder at which a number waits.
    pub(crate) fn take_first(&mut self, behind: &[u32], cylinder: u32) -> u32
        requires firsts { cylinder < length (seen self.old).firsts }
        requires lasts { length (seen self.old).lasts ≡ length (seen self.old).firsts }
        requires few { length (seen self.old).firsts ≤ 1024 }
        requires inside { slice_index (seen self.old).firsts cylinder < length behind.now }
        ensures number { result ≡ slice_index (seen self.old).firsts cylinder }
        ensures run { (seen self.new) ≡ without_first (seen self.old) behind.now cylinder }
    {
        let at = cylinder as usize;
        let number = self.firsts[at];
        if number == self.lasts[at] {
            clear_bit(&mut self.words, cylinder);
            return number;
        }
        self.firsts[at] = behind[number as usize];
        number
    }

    /// Exchanges two runs.
    pub(crate) fn swap(&mut self, other: &mut Run)
        ensures here { (seen self.new) ≡ (seen other.old) }
        ensures there { (seen other.new) ≡ (seen self.old) }
    {
        swap(&mut self.firsts, &mut other.firsts);
        swap(&mut self.lasts, &mut other.lasts);
        swap(&mut self.words, &mut other.words);
    }

    /// The last number that waits at a cylinder.
    fn last(&self, cylinder: u32) -> u32
        requires { cylinder < length (seen self.now).lasts }
        ensures { result ≡ slice_index (seen self.now).lasts cylinder }
    {
        self.lasts[cylinder as usize]
    }

    /// The number that has `i` others of its cylinder in front of it, or how many are missing.
    fn nth_at(&self, behind: &[u32], cylinder: u32, i: u32) -> Result<u32, u32>
        requires run { IsRun (length behind.now) (seen self.now) behind.now (length (seen self.now).firsts) }
        requires few { length (seen self.now).firsts ≤ 1024 }
        requires inside { AllByRecursion (λ w. w.number < length behind.now) (spelled (length behind.now) (seen self.now) behind.now (length (seen self.now).firsts)) }
        requires cylinder { cylinder < length (seen self.now).firsts }
        ensures number { IfOk result (λ n. slice_get (bucket (length behind.now) (seen self.now) behind.now cylinder) i ≡ Some n) }
        ensures missing { IfErr result (λ rest. i ≡ length (bucket (length behind.now) (seen self.now) behind.now cylinder) + rest) }
    {
        if !is_on(&self.words, cylinder) {
            return Err(i);
        }
        nth_in(behind, self.first(cylinder), self.last(cylinder), i)
    }

    /// The waiter of the run that has `i` others in front of it, or how many are missing.
    pub(crate) fn nth(&self, behind: &[u32], i: u32) -> Result<Waiter, u32>
        requires run { IsRun (length behind.now) (seen self.now) behind.now (length (seen self.now).firsts) }
        requires few { length (seen self.now).firsts ≤ 1024 }
        requires inside { AllByRecursion (λ w. w.number < length behind.now) (spelled (length behind.now) (seen self.now) behind.now (length (seen self.now).firsts)) }
        ensures waiter { IfOk result (λ w. slice_get (spelled (length behind.now) (seen self.now) behind.now (length (seen self.now).firsts)) i ≡ Some w) }
        ensures missing { IfErr result (λ rest. i ≡ length (spelled (length behind.now) (seen self.now) behind.now (length (seen self.now).firsts)) + rest) }
    {
        let mut left = i;
        for cylinder in 0..self.firsts.len() as u32 {
            match self.nth_at(behind, cylinder, left) {
                Ok(number) => return Ok(Waiter { number, cylinder }),
                Err(rest) => left = rest,
            }
        }
        Err(left)
    }
}
