use trace_lines::Told;

/// A line of a trace.
#[derive(Clone, Copy)]
pub enum TraceLine {
    /// What was done at a unit, 0 to 31, for the request of an id, when line number `line` of the script was played. `line` is 1
    /// to 1,000,001; the number after that of the script's last line is the number of the last drain.
    Deed {
        line: u32,
        unit: u8,
        id: u32,
        told: Told,
    },
    /// An event of line number `line` of the script found nothing to do.
    Idle {
        line: u32,
    },
}

impl TraceLine {
    ghost use Rattle.std.specs.Prelude.{◌≡◌};
    ghost use Rattle.trace_reader.specs.Lines.{line_number};

    /// The number of the script's line.
    pub fn line(&self) -> u32
        ensures { result ≡ line_number self.now }
    {
        match *self {
            TraceLine::Deed { line, .. } => line,
            TraceLine::Idle { line } => line,
        }
    }
}

/// A line of a trace, with its text, without LF.
#[derive(Clone, Copy)]
pub struct ReadLine<'a> {
    pub line: TraceLine,
    pub text: &'a [u8],
}
