// Which requests of a trace have ended.
ghost use Rattle.std.specs.Prelude.{◌≡◌, ◌<◌, ◌+◌, ◌*◌, ◌==◌, ◌&&◌, ◌||◌, ℕ, [], IfErr, OnOk};
ghost use Rattle.std.specs.BTreeSet.{contains};
ghost use Rattle.std.specs.Ordering.{nat_cmp};
ghost use Rattle.trace_reader.specs.declared.fault.TraceFault.TheVariants.{Memory};
ghost use Rattle.trace_reader.specs.Ended.{is_end, is_open, KeepsEnd, KeepsEnds};

use crate::asked::key;
use crate::fault::TraceFault;
use crate::line::TraceLine;
use std::alloc::{AllocFailed, Global};
use std::collections::BTreeSet;
use trace_lines::Told;

/// The requests that the lines so far have ended.
#[derive(Drop)]
pub struct Ended {
    requests: BTreeSet<u64>,
}

/// Whether what is told of a request is its end.
fn is_end(told: Told) -> bool
    ensures { result ≡ is_end told }
{
    match told {
        Told::End => true,
        _ => false,
    }
}

impl Ended {
    /// No request has ended.
    pub(crate) fn new(alloc: Global) -> Ended
        ensures { KeepsEnds result [] }
    {
        Ended {
            requests: BTreeSet::new(alloc),
        }
    }

    /// A request has ended.
    fn keep(&mut self, unit: u8, id: u32) -> Result<(), AllocFailed<u64>>
        ensures { OnOk result ((key : ℕ) → contains nat_cmp self.new.requests key ≡ (contains nat_cmp self.old.requests key || id * 256 + unit == key)) }
    {
        self.requests.insert(key(unit, id))?;
        Ok(())
    }

    /// Keeps the request that a line ends.
    pub(crate) fn learn(&mut self, line: &TraceLine) -> Result<(), TraceFault>
        ensures keeps { OnOk result (KeepsEnd self.old self.new line.now) }
        ensures err { IfErr result (λ fault. fault ≡ Memory) }
    {
        match *line {
            TraceLine::Deed { unit, id, told, .. } => {
                if is_end(told) {
                    self.keep(unit, id)?;
                }
                Ok(())
            }
            TraceLine::Idle { .. } => Ok(()),
        }
    }

    /// Whether the request that a line names is under way, beside a script of `count` lines.
    pub(crate) fn is_open(&self, count: u32, line: &TraceLine) -> bool
        ensures { result ≡ is_open self.now count line.now }
    {
        match *line {
            TraceLine::Deed { unit, id, .. } => {
                count == 0 || !self.requests.contains(&key(unit, id))
            }
            TraceLine::Idle { .. } => true,
        }
    }
}
