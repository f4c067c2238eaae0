//! What scripts mean: the bytes of a script, as the reader reads them, give the script that traces are legal for. The definitions are
//! in `specs/`. The function here does nothing: it stands for a law.
//!
//! What is proved: `meaning_law`: whatever bytes spell means a script of `trace_replay`: its lines are numbered upwards, its drives
//! come first, no id occurs twice, and each input names units that are there. Its drives are those of the `unit` lines, and the bytes
//! of its writes are those that `script_reader` gives. Lines that say the same mean the same.

ghost use Rattle.script_reader.specs.Promises.{MeansScript, ReadMeansScript, DeclaresUnits, MeansTheSame, MeansItsBytes};

/// Whatever bytes spell means a script, with the drives of its `unit` lines and the bytes of its writes. Lines that say the same mean
/// the same.
pub fn meaning_law()
    ensures script { MeansScript }
    ensures read { ReadMeansScript }
    ensures drives { DeclaresUnits }
    ensures same { MeansTheSame }
    ensures bytes { MeansItsBytes }
{}
