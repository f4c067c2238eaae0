ghost use Rattle.std.specs.Prelude.{◌≡◌};
ghost use Rattle.command_parts.specs.Statuses.{status_code};

/// How a run of the program ends.
#[derive(Clone, Copy)]
pub enum Status {
    /// The command is done.
    Done,
    /// The words are no command.
    Usage,
    /// The bytes of the source spell no script.
    Refused,
    /// A call of the source failed.
    SourceFailed,
    /// A call of a sink failed.
    SinkFailed,
    /// A call of the packs failed.
    PacksFailed,
    /// An image is longer than its pack.
    TooLong,
    /// The tool for bad-sector tables refused the command.
    ToolRefused,
    /// There was no memory.
    OutOfMemory,
    /// A transfer was refused: its range reaches beyond the partition, or touches a block that can't be used.
    TransferRefused,
    /// The formatter refused the pack.
    FormatRefused,
}

impl Status {
    /// The number that the program ends with.
    pub fn code(self) -> u8
        ensures { result ≡ status_code self }
    {
        match self {
            Status::Done => 0,
            Status::Usage => 2,
            Status::Refused => 3,
            Status::SourceFailed => 4,
            Status::SinkFailed => 5,
            Status::PacksFailed => 6,
            Status::TooLong => 7,
            Status::ToolRefused => 8,
            Status::OutOfMemory => 9,
            Status::TransferRefused => 10,
            Status::FormatRefused => 11,
        }
    }
}
