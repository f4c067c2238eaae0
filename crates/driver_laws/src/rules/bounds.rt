//! What a request costs, over legal traces; `specs/` says too what a drain costs. The function here does nothing: it
//! stands for a law.

ghost use Rattle.driver_laws.specs.rules.Commands.{AreToldAsCommands, CommandsAreBounded, EndsAreBounded};
ghost use Rattle.driver_laws.specs.rules.Runs.{RunCommandsAreBounded};

/// A request has at most 300 commands for each of its blocks, both at any time and when its end comes. The commands are
/// the lines that a trace tells as `cmd`.
pub fn commands_law()
    ensures told { AreToldAsCommands }
    ensures reached { CommandsAreBounded }
    ensures ended { EndsAreBounded }
    ensures run { RunCommandsAreBounded }
{}
