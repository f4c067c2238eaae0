// Which requests a script asks for.
ghost use Rattle.std.specs.Prelude.{◌≡◌, ◌<◌, ◌+◌, ◌*◌, ◌==◌, ◌&&◌, ◌||◌, ℕ, nat_le, IfOk, IfErr, OnOk};
ghost use Rattle.trace_reader.specs.declared.fault.TraceFault.TheVariants.{Memory};
ghost use Rattle.trace_reader.specs.Asked.{is_asked, is_of_script};
ghost use Rattle.trace_reader.specs.Knowing.{knows, Learns, Knows};

use crate::fault::TraceFault;
use crate::line::TraceLine;
use script_reader::{Script, Statement, Stored};
use std::alloc::{AllocFailed, Global};
use std::collections::BTreeMap;

/// The requests for which lines ask: for each id and unit, the first line that asks for it.
#[derive(Drop)]
pub(crate) struct Asked {
    lines: BTreeMap<u64, u32>,
}

/// An id and a unit as one number.
pub(crate) fn key(unit: u8, id: u32) -> u64
    ensures { result ≡ id * 256 + unit }
{
    u64::from(id) * 256 + u64::from(unit)
}

impl Asked {
    /// The first line that asks for a request, if line `line` asks for it too.
    fn earliest(&self, key: u64, line: u32) -> u32
        ensures { (l : ℕ) → nat_le result l ≡ (knows self.now key l || nat_le line l) }
    {
        match self.lines.get(&key) {
            Some(first) => { if *first < line { *first } else { line } }
            None => line,
        }
    }

    /// Learns that a line asks for a request.
    fn learn_request(&mut self, line: u32, unit: u8, id: u32) -> Result<(), AllocFailed<(u64, u32)>>
        ensures { OnOk result ((l key : ℕ) → knows self.new key l ≡ (knows self.old key l || (id * 256 + unit == key && nat_le line l))) }
    {
        let key = key(unit, id);
        let earliest = self.earliest(key, line);
        self.lines.insert(key, earliest)?;
        Ok(())
    }

    /// Learns what a line asks for.
    fn learn(&mut self, line: &Stored) -> Result<(), TraceFault>
        ensures learns { OnOk result (Learns self.old self.new line.now) }
        ensures err { IfErr result (λ fault. fault ≡ Memory) }
    {
        match &line.statement {
            Statement::Read { request } => {
                self.learn_request(line.number, request.unit, request.id)?;
                Ok(())
            }
            Statement::Write { request, .. } => {
                self.learn_request(line.number, request.unit, request.id)?;
                Ok(())
            }
            _ => Ok(()),
        }
    }

    /// The requests for which a script asks.
    pub(crate) fn new(alloc: Global, script: &Script) -> Result<Asked, TraceFault>
        ensures ok { IfOk result (λ asked. Knows asked script.now.lines) }
        ensures err { IfErr result (λ fault. fault ≡ Memory) }
    {
        let mut asked = Asked {
            lines: BTreeMap::new(alloc),
        };
        let lines = script.lines();
        for line in lines {
            asked.learn(line)?;
        }
        Ok(asked)
    }

    /// Whether a line of the script up to number `line` asks for a request.
    fn is_asked(&self, script: &Script, line: u32, unit: u8, id: u32) -> bool
        requires { Knows self.now script.now.lines }
        ensures { result ≡ is_asked script.now.lines line unit id }
    {
        match self.lines.get(&key(unit, id)) {
            Some(first) => *first <= line,
            None => false,
        }
    }

    /// Whether a line belongs to a run of the script.
    pub(crate) fn is_of_script(&self, script: &Script, line: &TraceLine) -> bool
        requires { Knows self.now script.now.lines }
        ensures { result ≡ is_of_script script.now.lines script.now.count line.now }
    {
        if script.count() == 0 {
            return true;
        }
        if u64::from(line.line()) > u64::from(script.count()) + 1 {
            return false;
        }
        match *line {
            TraceLine::Deed { line, unit, id, .. } => self.is_asked(script, line, unit, id),
            TraceLine::Idle { .. } => true,
        }
    }
}
