// Prints on standard error.
use crate::ending::{Ending, Program, reason};
use crate::usage::{HPSIM, HPVIEW, help_of};
use crate::version::VERSION;
use std::alloc::Global;
use std::io;
use std::io::Write;

/// Prints why a run did not end with 0. If it ended with 0, nothing is printed. If the words are no command but ask for help or the
/// version, that is printed instead. If they ask for neither, the usage follows the reason. An error if `errors` fails.
pub fn tell<W: Write>(alloc: Global, ending: &Ending, errors: &mut W) -> io::Result<()> {
    let (name, usage) = match ending.program {
        Program::Hpsim => ("hpsim", HPSIM),
        Program::Hpview => ("hpview", HPVIEW),
    };
    match (ending.status, ending.words) {
        (0, _) => Ok(()),
        (2, [b"--version"]) => writeln!(errors, "{name} {VERSION}"),
        (2, [b"help" | b"--help" | b"-h"]) => errors.write_all(usage.as_bytes()),
        (2, [b"help", command, ..]) => {
            errors.write_all(help_of(command).unwrap_or(usage).as_bytes())
        }
        (2, _) => {
            writeln!(errors, "{name}: {}", reason(alloc, ending))?;
            errors.write_all(usage.as_bytes())
        }
        _ => writeln!(errors, "{name}: {}", reason(alloc, ending)),
    }
}
