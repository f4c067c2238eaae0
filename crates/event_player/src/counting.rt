// How much a script's lines bring.
ghost use Rattle.std.specs.Prelude.{◌≡◌, ◌≤◌, ℕ, List};
ghost use Rattle.script_reader.specs.Grammar.{Spells};
ghost use Rattle.script_reader.specs.Stored.{lines_in, seen};
ghost use Rattle.script_lines.specs.Words.{all_verbs};
ghost use Rattle.script_reader.specs.Meaning.{meaning_of, statement_of};
ghost use Rattle.event_player.specs.Playing.{counted, one_request, one_noise};

use script_reader::{Script, Statement, Stored, read_back_law};

/// How many requests a line brings.
fn requests_of(line: &Stored) -> u32
    ensures count { (text : List ℕ) → result ≡ one_request (statement_of (seen text line.now).statement) }
    ensures one { result ≤ 1 }
{
    match &line.statement {
        Statement::Read { .. } | Statement::Write { .. } => 1,
        _ => 0,
    }
}

/// How many noises a line arms.
fn noises_of(line: &Stored) -> u32
    ensures count { (text : List ℕ) → result ≡ one_noise (statement_of (seen text line.now).statement) }
    ensures one { result ≤ 1 }
{
    match &line.statement {
        Statement::Noise { .. } => 1,
        _ => 0,
    }
}

/// How many requests a script has: 65,536 at the most.
pub(crate) fn count_requests(script: &Script) -> u32
    requires good { Spells all_verbs script.now.text (lines_in script.now) script.now.count }
    ensures count { result ≡ counted one_request (meaning_of script.now).lines }
    ensures few { result ≤ 65536 }
{
    read_back_law();
    let mut count = 0;
    for line in script.lines() {
        count += requests_of(line);
    }
    count
}

/// How many noises a script arms: 4,096 at the most.
pub(crate) fn count_noises(script: &Script) -> u32
    requires good { Spells all_verbs script.now.text (lines_in script.now) script.now.count }
    ensures count { result ≡ counted one_noise (meaning_of script.now).lines }
    ensures few { result ≤ 4096 }
{
    read_back_law();
    let mut count = 0;
    for line in script.lines() {
        count += noises_of(line);
    }
    count
}
