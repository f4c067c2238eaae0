//! Rows through the top call, as text: `stdin` has scripts and commands over packs, one row after another, and `stdout` gets the result
//! of each row. `rows.py` builds both from `rows/`, and says how a row is written. Only tested.
#![tactic(auto)]

use hpsim_run::run;
use row_stage::{MemPacks, MemSink, MemSource, Program, Stage};
use std::alloc::Global;
use std::io;
use std::io::Write;

/// The program whose rows these are.
#[derive(Drop)]
struct Simulator;

impl Program for Simulator {
    fn run(
        &self,
        alloc: Global,
        words: &[String],
        source: &mut MemSource,
        packs: &mut MemPacks,
        out: &mut MemSink,
        trace: &mut MemSink,
    ) -> u8 {
        run(alloc, words, source, packs, out, trace)
    }
}

fn main(rt: HostRuntime) -> anyhow::Result<()> {
    let text = io::read_to_string(rt.alloc(), rt.reader())?;
    let mut stage = Stage::new(rt.alloc(), Simulator)?;
    for line in text.as_str().lines() {
        io::writer(&rt).write_all(stage.perform(line)?)?;
    }
    Ok(())
}
