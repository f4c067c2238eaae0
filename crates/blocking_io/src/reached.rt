// How far a blocking request came.
ghost use Rattle.std.specs.Prelude.{◌≡◌, ℕ, List};
ghost use Rattle.driver_machine.specs.Lines.{answer_told};
ghost use Rattle.blocking_io.specs.Given.{reached_by};

use hp_driver::{AnswerKind, Cause};

/// How far a blocking request came.
#[derive(Clone, Copy)]
pub enum Reached {
    /// All blocks of the request were read or written.
    All,
    /// Only the first `done` blocks were read or written: the next one can't be used.
    Before { done: u32 },
    /// No block was read or written: the request reaches beyond its partition.
    Outside,
    /// No block was read or written: the request begins at the very end of its partition.
    AtEnd,
}

/// How far an answer says that its request came.
pub(crate) fn reached_by(kind: AnswerKind) -> Reached
    ensures { (blocks : List (List ℕ)) → result ≡ reached_by (answer_told kind blocks) }
{
    match kind {
        AnswerKind::ReadOk { .. } | AnswerKind::WriteOk => Reached::All,
        AnswerKind::Eof => Reached::AtEnd,
        AnswerKind::Error { cause, done } => match cause {
            Cause::Partition => Reached::Outside,
            Cause::Frames => Reached::Before { done: 0 },
            Cause::Offline | Cause::Locked | Cause::Unforwarded | Cause::Fault { .. } => {
                Reached::Before { done }
            }
        },
    }
}
