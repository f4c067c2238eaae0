// How a request is answered.
/// Why a request ended with an error.
#[derive(Clone, Copy)]
pub enum Cause {
    /// The request reaches beyond its partition.
    Partition,
    /// Fewer frames are free than the request needs.
    Frames,
    /// The unit was offline when a command was due or a sector was tried.
    Offline,
    /// The request writes, and the unit was locked when its transfer command was due.
    Locked,
    /// A sector is marked bad, and no replacement stands for it.
    Unforwarded,
    /// All tries at one sector failed; `attempts` is 28.
    Fault { attempts: u32 },
}

/// How a request ended.
#[derive(Clone, Copy)]
pub enum AnswerKind {
    /// All blocks of the request, `count` of them, were read. The last one has `last` bytes.
    ReadOk { count: u32, last: u32 },
    /// All blocks of the request were written.
    WriteOk,
    /// The request begins exactly at the end of its partition.
    Eof,
    /// The request ended with an error after its first `done` blocks were done. `done` is below the request's count.
    Error { cause: Cause, done: u32 },
}

/// The answer to a request: the id of the request, the number of the script's line at which it ended, and how it ended.
#[derive(Clone, Copy)]
pub struct Answer {
    pub id: u32,
    pub at: u64,
    pub kind: AnswerKind,
}
