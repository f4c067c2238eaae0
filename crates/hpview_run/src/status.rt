ghost use Rattle.std.specs.Prelude.{◌≡◌};
ghost use Rattle.hpview_run.specs.Statuses.{status_code};

/// How a run of the program ends.
#[derive(Clone, Copy, PartialEq, Eq)]
pub enum Status {
    /// The picture is drawn.
    Done,
    /// The words are no command.
    Usage,
    /// The bytes of the script are no script, or those of the trace are no trace of the script.
    Refused,
    /// A call of the source of the script or of the source of the trace failed.
    SourceFailed,
    /// A call of the sink failed.
    SinkFailed,
    /// There was no memory.
    OutOfMemory,
    /// The run has none of the events that the words name.
    NoEvent,
}

impl Status {
    /// The number that the program ends with.
    pub fn code(self) -> u8
        ensures { result ≡ status_code self }
    {
        match self {
            Status::Done => 0,
            Status::Usage => 2,
            Status::Refused => 3,
            Status::SourceFailed => 4,
            Status::SinkFailed => 5,
            Status::OutOfMemory => 9,
            Status::NoEvent => 10,
        }
    }
}
