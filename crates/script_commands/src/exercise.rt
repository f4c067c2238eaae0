// The script of a number is played, and its tally is printed.
ghost use Rattle.std.specs.Prelude.{◌≡◌, ◌⊎◌, IfOk, OnOk, IsErrOf};
ghost use Rattle.outside_traits.specs.Causes.{Rose};
ghost use Rattle.command_parts.specs.Statuses.{status_code};
ghost use Rattle.script_commands.specs.Exercises.{Exercised, IsCutShort, IsDone, IsStopped, RunsExercise};

use command_parts::Status;
use driver_laws::rules::promises::promises_law;
use event_player::play::{PlayFault, play};
use hp_exercise::{ExercisePacks, SureSink, bounds_law, exercise_lines, script_of, spelling_law};
use outside_traits::traits::{Sink, SinkFailed};
use outside_traits::whole::write_all;
use script_reader::meaning::meaning_law;
use script_reader::{ReadFault, grammar_law, read_script};
use std::alloc::Global;
use thiserror::Error;
use trace_lines::answers::Tally;

/// Why an exercise was not played, or not printed.
#[derive(Clone, Copy, Debug, Error)]
enum ExerciseFault {
    /// There was no memory. Nothing was played.
    #[error("there is no memory")]
    Memory,
    /// A call of a sink failed.
    #[error("a sink failed")]
    Sink,
}

impl From<SinkFailed> for ExerciseFault {
    ghost use Rattle.std.specs.Prelude.{◌≡◌};
    ghost use Rattle.script_commands.specs.declared.exercise.ExerciseFault.TheVariants.{Sink};

    ghost from_gives = { λ _ e. e ≡ Sink };

    fn from(_: SinkFailed) -> ExerciseFault {
        ExerciseFault::Sink
    }
}

/// Plays the script of a number over empty packs in memory, and answers its tally.
fn play_exercise<T: Sink>(alloc: Global, number: u64, trace: &mut T) -> Result<Tally, ExerciseFault>
    ensures done { IfOk result (λ tally. Exercised number (T.tells trace.new) (T.taken trace.old) (T.taken trace.new) tally) }
    ensures stopped { IsErrOf result ExerciseFault.Sink → IsCutShort number (T.tells trace.new) (T.taken trace.old) (T.taken trace.new) }
    ensures sink { IsErrOf result ExerciseFault.Sink → Rose (T.faults trace.old) (T.faults trace.new) }
    ensures untraced { IsErrOf result ExerciseFault.Memory → trace.new ≡ trace.old }
{
    promises_law();
    meaning_law();
    grammar_law();
    spelling_law();
    bounds_law();
    let Ok(text) = script_of(alloc, number) else {
        return Err(ExerciseFault::Memory);
    };
    let script = match read_script(alloc, text) {
        Ok(script) => script,
        Err(ReadFault::Memory) => return Err(ExerciseFault::Memory),
        Err(ReadFault::Refused { .. }) => unreachable!(),
    };
    let Ok(mut packs) = ExercisePacks::new(alloc) else {
        return Err(ExerciseFault::Memory);
    };
    let mut answers = SureSink::new();
    match play(alloc, &script, &mut packs, &mut answers, trace) {
        Ok(tally) => Ok(tally),
        Err(PlayFault::Memory) => Err(ExerciseFault::Memory),
        Err(PlayFault::Sink) => Err(ExerciseFault::Sink),
        // An empty image is not too long.
        Err(PlayFault::TooLong { .. }) => unreachable!(),
        // No request reaches beyond the room.
        Err(PlayFault::Store) => {
            packs.outside_law();
            unreachable!()
        }
    }
}

/// Plays the script of a number over empty packs in memory, and prints its tally.
fn play_and_print<O: Sink, T: Sink>(
    alloc: Global,
    number: u64,
    out: &mut O,
    trace: &mut T,
) -> Result<(), ExerciseFault>
    ensures done { OnOk result (IsDone number (O.tells out.new) (O.taken out.old) (O.taken out.new) (T.tells trace.new) (T.taken trace.old) (T.taken trace.new)) }
    ensures stopped { IsErrOf result ExerciseFault.Sink → IsStopped number (O.tells out.new) (O.taken out.old) (O.taken out.new) (O.faults out.old) (O.faults out.new)
        (T.tells trace.new) (T.taken trace.old) (T.taken trace.new) (T.faults trace.old) (T.faults trace.new) }
    ensures sink { IsErrOf result ExerciseFault.Sink → Rose (O.faults out.old) (O.faults out.new) ⊎ Rose (T.faults trace.old) (T.faults trace.new) }
    ensures silent { IsErrOf result ExerciseFault.Memory → out.new ≡ out.old }
    ensures untraced { IsErrOf result ExerciseFault.Memory → trace.new ≡ trace.old }
{
    let tally = play_exercise(alloc, number, trace)?;
    write_all(out, exercise_lines(number, tally).as_bytes())?;
    Ok(())
}

/// The command `exercise`: plays the script of a number over empty packs in memory, and prints its tally on `out`. The lines of the run
/// go to `trace`; its answers are not printed.
///
/// `OutOfMemory` comes only before the first line is played, with both sinks as they were. `SinkFailed` comes only if the count of
/// faults of `out` or of `trace` rose.
pub fn run_exercise<O: Sink, T: Sink>(
    alloc: Global,
    number: u64,
    out: &mut O,
    trace: &mut T,
) -> Status
    ensures runs { RunsExercise number (status_code result) (O.tells out.new) (O.taken out.old) (O.taken out.new) (O.faults out.old) (O.faults out.new)
        (T.tells trace.new) (T.taken trace.old) (T.taken trace.new) (T.faults trace.old) (T.faults trace.new) }
    ensures sink { result ≡ Status.SinkFailed → Rose (O.faults out.old) (O.faults out.new) ⊎ Rose (T.faults trace.old) (T.faults trace.new) }
    ensures silent { result ≡ Status.OutOfMemory → out.new ≡ out.old }
    ensures untraced { result ≡ Status.OutOfMemory → trace.new ≡ trace.old }
{
    match play_and_print(alloc, number, out, trace) {
        Ok(()) => Status::Done,
        Err(ExerciseFault::Memory) => Status::OutOfMemory,
        Err(ExerciseFault::Sink) => Status::SinkFailed,
    }
}
