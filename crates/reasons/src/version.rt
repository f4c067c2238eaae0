/// The version of both programs. It is written only here: the script `hpsim` reads it from this line.
pub const VERSION: &str = "1.0.0";
