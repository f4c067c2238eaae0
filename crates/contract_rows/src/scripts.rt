//! A worked script beside its text.

ghost use Rattle.trace_replay.specs.Script.{IsScript};
ghost use Rattle.trace_rows.specs.Rows1.{first_read};
ghost use Rattle.contract_rows.specs.OneRead.{MeansOneRead};

/// The text of one read means the script of that row, which therefore is a script.
pub fn script_law()
    ensures meaning { MeansOneRead }
    ensures script { IsScript first_read.script }
{}
