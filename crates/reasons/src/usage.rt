// What the programs say about their commands. The script `hpsim` reads these texts from this file: each text begins after a line
// that ends in "\ and ends before the line `";`.

/// The commands of `hpsim`.
pub const HPSIM: &str = "\
usage:
  hpsim play < SCRIPT                           plays a script over the packs of this folder
  hpsim cached N < SCRIPT                       plays a script through a cache of N blocks (1 to 4096)
  hpsim bad144 list U KIND                      prints a pack's bad-sector table
  hpsim bad144 add U KIND BLOCK [copy] [mark]   lists a block
  hpsim bad144 fresh U KIND SERIAL              writes an empty table
  hpsim bad144 mark U KIND                      marks the blocks that the table lists
  hpsim format U KIND SERIAL                    tests and empties a pack, and writes its table
  hpsim raw read U KIND PART AT LEN > BYTES     prints bytes of a partition
  hpsim raw write U KIND PART AT < BYTES        writes bytes to a partition (at most 16777216)
  hpsim dump U KIND < BYTES                     writes bytes to the end of partition b (at most 8388608)
  hpsim exercise N                              plays the script of a number (0 to 18446744073709551615)
  hpsim help [COMMAND]                          prints this, or what a command does
  hpsim --version                               prints the version
  U      a unit, 0 to 31; its files are hpU.dsk (image) and hpU.bad (marks)
  KIND   rp06, rm03 or rm05
  BLOCK  0 to 340669 (rp06), 131679 (rm03) or 500383 (rm05)
  SERIAL 0 to 4294967295
  PART   a to h
  AT     a byte of the partition, 0 to 1099511627775
  LEN    bytes, 0 to 16777216
";

/// What `play` does.
pub const PLAY: &str = "\
usage:
  hpsim play < SCRIPT
    Plays a script of requests and drive events over the packs hpU.dsk and hpU.bad of this folder. The answers go to standard
    output, and the trace to hp.trace, from which hpview draws the run. A missing file is an empty pack.
    Lines: unit U KIND; read ID U PART BLOCK COUNT [off N] [last M]; write ID U PART BLOCK COUNT (fill HH | seq N | hex DIGITS)
    [off N] [last M]; arrive U; turn U S; move A; attend A; noise U BLOCK (TIMES | until CODE) BITS; fault U WHAT TIMES;
    offline U; online U; lock U; unlock U; drain. They are in docs/formats.md, and examples in examples/.
";

/// What `cached` does.
pub const CACHED: &str = "\
usage:
  hpsim cached N < SCRIPT
    Plays a script through a cache of N blocks, 1 to 4096, with delayed writes.
    Lines: unit U KIND; read ID U BLOCK COUNT; write ID U BLOCK COUNT fill HH; sync.
";

/// What `bad144` does.
pub const BAD144: &str = "\
usage:
  hpsim bad144 list U KIND
    Prints the bad-sector table of a pack, or 'no table'. Changes nothing.
  hpsim bad144 add U KIND BLOCK [copy] [mark]
    Lists a block: with copy its replacement gets the bytes of the block, otherwise zeros; with mark the block is marked.
    Keep a copy of the image: a stop in the middle can leave entries that read the bytes of others.
  hpsim bad144 fresh U KIND SERIAL
    Writes an empty table. What the old one listed is no longer replaced.
  hpsim bad144 mark U KIND
    Marks each data block that the table lists.
";

/// What `format` does.
pub const FORMAT: &str = "\
usage:
  hpsim format U KIND SERIAL
    Tests every block of a pack, empties it, and writes a table of the blocks that are marked. All that the pack held is lost.
";

/// What `raw` does.
pub const RAW: &str = "\
usage:
  hpsim raw read U KIND PART AT LEN > BYTES
    Prints LEN bytes (at most 16777216) of a partition from its byte AT on, through the bad-sector table.
  hpsim raw write U KIND PART AT < BYTES
    Writes standard input (at most 16777216 bytes) to a partition from its byte AT on.
";

/// What `dump` does.
pub const DUMP: &str = "\
usage:
  hpsim dump U KIND < BYTES
    Writes standard input (at most 8388608 bytes) to the end of partition b, filled up with zeros to whole blocks.
";

/// What `exercise` does.
pub const EXERCISE: &str = "\
usage:
  hpsim exercise N
    Plays the script of a number, 0 to 18446744073709551615, over empty packs in memory, and prints a tally of four lines.
";

/// The commands of `hpview`.
pub const HPVIEW: &str = "\
usage:
  hpview svg [FROM TO] < SCRIPT > PICTURE       draws the run of hp.trace for a browser
  hpview text [FROM TO] < SCRIPT                draws it for a terminal of 100 columns
  hpview tsv [FROM TO] < SCRIPT > TABLE         prints a line for each request
  hpview summary < SCRIPT > TABLE               prints a line for each drive, and one for all
  hpview json [FROM TO] < SCRIPT > EVENTS       prints trace events for Perfetto or chrome://tracing
  hpview help                                   prints this
  hpview --version                              prints the version
  FROM TO  the events to be shown, 1 to 4294967295; without them all of them
  SCRIPT   the script that 'hpsim play' made hp.trace from
";

/// What a command does. None if there is no such command.
pub(crate) fn help_of(command: &[u8]) -> Option<&'static str> {
    match command {
        b"play" => Some(PLAY),
        b"cached" => Some(CACHED),
        b"bad144" => Some(BAD144),
        b"format" => Some(FORMAT),
        b"raw" => Some(RAW),
        b"dump" => Some(DUMP),
        b"exercise" => Some(EXERCISE),
        _ => None,
    }
}
