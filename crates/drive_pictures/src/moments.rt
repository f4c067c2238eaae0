//! What is seen of a run, in order: the lines of the script as they are played, and the lines of the trace.

ghost use Rattle.std.specs.Prelude.{◌≡◌};
ghost use Rattle.drive_pictures.specs.Events.{line_of, begins, begins_at, begins_by, is_end_of_wait, is_idle};

use crate::drives::Change;
use script_lines::Request;
use trace_lines::Told;

/// What a line of the script does that can be seen in the picture.
#[derive(Clone, Copy)]
pub enum Play {
    /// Blocks are asked for, to be written or to be read.
    Ask { request: Request, write: bool },
    /// A drive is changed.
    Change { unit: u8, change: Change },
    /// Events come.
    Other,
}

/// A line of the script is played, a line of the trace tells a deed at a unit for the request of an id, or an event found nothing
/// to do. Each moment has the number of the script's line.
#[derive(Clone, Copy)]
pub enum Moment {
    Played {
        line: u32,
        play: Play,
    },
    Told {
        line: u32,
        unit: u8,
        id: u32,
        deed: Told,
    },
    Idle {
        line: u32,
    },
}

/// The number of the script's line to which a moment belongs.
pub fn line_of(moment: &Moment) -> u32
    ensures { result ≡ line_of moment.now }
{
    match *moment {
        Moment::Played { line, .. } | Moment::Told { line, .. } | Moment::Idle { line } => line,
    }
}

/// Whether a positioning ended, or a sector was tried.
fn is_end_of_wait(deed: &Told) -> bool
    ensures { result ≡ is_end_of_wait deed.now }
{
    matches!(deed, Told::Arrive | Told::Sector { .. })
}

/// Whether a deed begins an event after another on the same line: a positioning ends, a sector is tried, or an adapter is attended.
fn begins_by(before: &Told, deed: &Told, same_adapter: bool) -> bool
    ensures { result ≡ begins_by before.now deed.now same_adapter }
{
    match deed {
        Told::Arrive | Told::Sector { .. } => true,
        Told::Intr | Told::Attn => is_end_of_wait(before) || !same_adapter,
        _ => false,
    }
}

/// Whether a moment begins an event after another moment of the same line.
fn begins_at(before: &Moment, moment: &Moment) -> bool
    ensures { result ≡ begins_at before.now moment.now }
{
    match *moment {
        Moment::Played { .. } => true,
        Moment::Idle { .. } => false,
        Moment::Told { unit, deed, .. } => match *before {
            Moment::Told {
                unit: other,
                deed: last,
                ..
            } => begins_by(&last, &deed, other / 8 == unit / 8),
            _ => false,
        },
    }
}

/// Whether a moment begins an event, after another moment or after none.
pub fn begins(before: Option<Moment>, moment: &Moment) -> bool
    ensures { result ≡ begins before moment.now }
{
    match before {
        None => true,
        Some(last) => line_of(&last) != line_of(moment) || begins_at(&last, moment),
    }
}

/// Whether a moment finds nothing to do.
pub fn is_idle(moment: &Moment) -> bool
    ensures { result ≡ is_idle moment.now }
{
    matches!(moment, Moment::Idle { .. })
}
