// The stage on which a row is played, and runs of commands on it.
use crate::stops::Watch;
use crate::texts::Outcome;
use mass_outside::mem_packs::{FailCall, MemPacks, PackOp};
use mass_outside::mem_streams::{MemSink, MemSource};
use outside_traits::traits::NoMemory;
use std::alloc::Global;

/// A program that runs the words of a command over packs, source and sinks, and answers its status.
pub trait Program: Drop {
    fn run(
        &self,
        alloc: Global,
        words: &[String],
        source: &mut MemSource,
        packs: &mut MemPacks,
        out: &mut MemSink,
        trace: &mut MemSink,
    ) -> u8;
}

/// The operations that can be made to fail, each with the status of a run in which it does.
pub(crate) static OPERATIONS: [(&str, u8); 8] = [
    ("source", 4),
    ("out", 5),
    ("trace", 5),
    ("length", 6),
    ("write", 6),
    ("read", 6),
    ("marked", 6),
    ("setmark", 6),
];

/// The operations of the packs, which come last above.
static OF_PACKS: [PackOp; 5] = [
    PackOp::Length,
    PackOp::Write,
    PackOp::Read,
    PackOp::Marked,
    PackOp::SetMark,
];

/// The number of the call of each operation that fails, from 1, or 0 for none; and the room of each sink.
#[derive(Clone, Copy)]
pub(crate) struct Faults {
    fails: [u64; 8],
    pub(crate) out_room: usize,
    pub(crate) trace_room: usize,
}

/// No call fails, and few runs have more to say.
pub(crate) const NONE: Faults = Faults {
    fails: [0; 8],
    out_room: 20_000,
    trace_room: 40_000,
};

impl Faults {
    /// From now on this call of an operation fails.
    pub(crate) fn set(&mut self, name: &str, number: u64) {
        for i in 0..8usize {
            if OPERATIONS[i].0 == name {
                self.fails[i] = number;
            }
        }
    }
}

/// A command: its words and its source.
#[derive(Drop)]
pub(crate) struct Command {
    pub(crate) alloc: Global,
    words: Vec<String>,
    pub(crate) source: Vec<u8>,
}

impl Command {
    /// Takes the words from a line, in which `""` stands for an empty word.
    pub(crate) fn set_words(&mut self, line: &str) -> Outcome {
        self.words.clear();
        if line.is_empty() {
            return Ok(());
        }
        for word in line.split(' ') {
            let mut kept = String::new(self.alloc);
            kept.push_str(if word == "\"\"" { "" } else { word })?;
            self.words.push(kept)?;
        }
        Ok(())
    }
}

/// Packs, and what the last run over them came to.
#[derive(Drop)]
pub(crate) struct Scene {
    pub(crate) packs: MemPacks,
    /// What was printed.
    pub(crate) out: MemSink,
    pub(crate) trace: MemSink,
    pub(crate) status: u8,
}

impl Scene {
    /// Packs that hold nothing, before the first run.
    fn new(alloc: Global) -> Result<Scene, NoMemory> {
        Ok(Scene {
            packs: MemPacks::new(alloc, Vec::new(alloc), Vec::new(alloc))?,
            out: MemSink::new(alloc, 0, Vec::new(alloc))?,
            trace: MemSink::new(alloc, 0, Vec::new(alloc))?,
            status: 0,
        })
    }

    /// Runs a command.
    pub(crate) fn run<P: Program>(
        &mut self,
        program: &P,
        command: &Command,
        faults: &Faults,
    ) -> Outcome {
        let (alloc, fails) = (command.alloc, faults.fails);
        let mut calls = Vec::new(alloc);
        for i in 0..5usize {
            let (op, number) = (OF_PACKS[i], fails[i + 3]);
            calls.push(FailCall { op, number })?;
        }
        self.packs.fail(calls);
        self.out = MemSink::new(alloc, faults.out_room, Vec::from_slice(alloc, &[fails[1]])?)?;
        self.trace = MemSink::new(
            alloc,
            faults.trace_room,
            Vec::from_slice(alloc, &[fails[2]])?,
        )?;
        let bytes = Vec::from_slice(alloc, command.source.as_slice())?;
        let mut source = MemSource::new(bytes, Vec::from_slice(alloc, &[fails[0]])?);
        let words = command.words.as_slice();
        let (packs, out, trace) = (&mut self.packs, &mut self.out, &mut self.trace);
        self.status = program.run(alloc, words, &mut source, packs, out, trace);
        Ok(())
    }
}

/// What is kept for the next steps of a row.
#[derive(Drop)]
pub(crate) struct Row {
    pub(crate) command: Command,
    pub(crate) faults: Faults,
    /// What the commands of the row run over.
    pub(crate) scene: Scene,
    /// A run over a copy of the packs.
    pub(crate) whole: Scene,
    /// Another one, that stops.
    pub(crate) left: Scene,
    pub(crate) watches: Vec<Watch>,
    /// What is printed once the sync has ended.
    pub(crate) answer: Vec<u8>,
}

impl Row {
    /// A row of which nothing is done.
    pub(crate) fn new(alloc: Global) -> Result<Row, NoMemory> {
        Ok(Row {
            command: Command {
                alloc,
                words: Vec::new(alloc),
                source: Vec::new(alloc),
            },
            faults: NONE,
            scene: Scene::new(alloc)?,
            whole: Scene::new(alloc)?,
            left: Scene::new(alloc)?,
            watches: Vec::new(alloc),
            answer: Vec::new(alloc),
        })
    }

    /// The text with a name: the source, what is printed, or the trace.
    pub(crate) fn text(&self, name: &str) -> &[u8] {
        match name {
            "source" => self.command.source.as_slice(),
            "out" => self.scene.out.taken(),
            _ => self.scene.trace.taken(),
        }
    }
}

/// The stage of a program, on which rows are played one after another.
#[derive(Drop)]
pub struct Stage<P: Program> {
    pub(crate) program: P,
    pub(crate) row: Row,
    /// What a line shows.
    pub(crate) page: Vec<u8>,
}

impl<P: Program> Stage<P> {
    /// Creates an empty stage.
    pub fn new(alloc: Global, program: P) -> Result<Stage<P>, NoMemory> {
        Ok(Stage {
            program,
            row: Row::new(alloc)?,
            page: Vec::new(alloc),
        })
    }

    /// Runs the command of the row.
    pub(crate) fn run(&mut self) -> Outcome {
        let row = &mut self.row;
        row.scene.run(&self.program, &row.command, &row.faults)
    }

    /// Runs the command over a copy of the packs, with one call of an operation failing.
    pub(crate) fn run_left(&mut self, name: &str, number: u64) -> Outcome {
        let row = &mut self.row;
        let mut faults = NONE;
        faults.set(name, number);
        row.left.packs = row.scene.packs.copy(row.command.alloc)?;
        row.left.run(&self.program, &row.command, &faults)
    }
}
