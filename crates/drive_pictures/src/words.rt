//! The words and signs of a picture, as tables.

ghost use Rattle.std.specs.Prelude.{◌≡◌};
ghost use Rattle.drive_pictures.specs.Words.{kind_word, outcome_word, letter_sign, letter_word};

use crate::letters::Letter;
use crate::marks::Mark;
use crate::requests::Outcome;
use pack_geometry::DriveKind;

/// The word of a drive's kind; empty if no script declares the drive.
pub fn kind_word(kind: Option<DriveKind>) -> &'static str
    ensures { result.now ≡ kind_word kind }
{
    match kind {
        Some(DriveKind::Rp06) => "rp06",
        Some(DriveKind::Rm03) => "rm03",
        Some(DriveKind::Rm05) => "rm05",
        None => "",
    }
}

/// The word of an answer.
pub fn outcome_word(outcome: Outcome) -> &'static str
    ensures { result.now ≡ outcome_word outcome }
{
    match outcome {
        Outcome::Open => "open",
        Outcome::Ok => "ok",
        Outcome::Eof => "eof",
        Outcome::Partition => "partition",
        Outcome::Frames => "frames",
        Outcome::Refused => "refused",
        Outcome::Unforwarded => "unforwarded",
        Outcome::Offline => "offline",
        Outcome::Fault => "fault",
        Outcome::Locked => "locked",
        Outcome::Stopped => "stopped",
    }
}

/// The sign of a letter.
pub fn letter_sign(letter: Letter) -> &'static str
    ensures { result.now ≡ letter_sign letter }
{
    match letter {
        Letter::Idle => ".",
        Letter::Seeks => "S",
        Letter::Turns => "s",
        Letter::Recalibrates => "C",
        Letter::Offsets => "O",
        Letter::Arrived => "!",
        Letter::Ready => ":",
        Letter::Moves => "#",
        Letter::Retries => "T",
        Letter::Replaces => "R",
        Letter::Moved => "^",
    }
}

/// What a letter says that a drive does.
pub fn letter_word(letter: Letter) -> &'static str
    ensures { result.now ≡ letter_word letter }
{
    match letter {
        Letter::Idle => "idle",
        Letter::Seeks => "arm moves",
        Letter::Turns => "turns to its sector",
        Letter::Recalibrates => "recalibrates",
        Letter::Offsets => "sets an offset",
        Letter::Arrived => "arrived, attention up",
        Letter::Ready => "ready, adapter busy",
        Letter::Moves => "sectors move",
        Letter::Retries => "tries again",
        Letter::Replaces => "at a replacement",
        Letter::Moved => "moved, interrupt up",
    }
}

/// The signs of the marks, in their order.
static SIGNS: [&'static str; 24] = [
    " ", "'", "a", "i", "q", "o", "v", "@", "f", "n", "P", "k", "l", "u", "d", "t", "+", "-", "B",
    "M", "F", "E", "x", "X",
];

/// The sign of a mark.
pub fn mark_sign(mark: Mark) -> &'static str {
    SIGNS[mark.weight() as usize]
}
