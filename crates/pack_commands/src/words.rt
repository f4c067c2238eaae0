ghost use Rattle.std.specs.Prelude.{◌≡◌, ◌<◌, ◌≤◌, ◌-◌, ◌^◌, map, IfSome, [], ◌∷◌};
ghost use Rattle.std.specs.Option.{option_map};
ghost use Rattle.std.specs.String.{string_bytes};
ghost use Rattle.pack_geometry.specs.Geometry.{block_count};
ghost use Rattle.command_parts.specs.Fields.{kind_named, of_three, of_two, unit_named};
ghost use Rattle.command_parts.specs.Words.{IsInRange};
ghost use Rattle.pack_commands.specs.Commands.{IsValid, add_named, block_named, capacity_named, command_named, format_named, fresh_named, long_named, number_named, serial_named, tool_named, way_named, worded_named};
ghost use Rattle.pack_commands.specs.declared.words.Command.TheVariants.{ListTable as TheList, MarkBlocks as TheMarking, FreshTable as TheFresh, FormatPack as TheFormat, Exercise as TheExercise, Cached as TheCached, TransferBytes as TheTransfer};

use bad144_tool::AddWay;
use command_parts::{Transfer, dump_in, kind_in, raw_in, unit_in};
use mass_text::{Radix, number};
use pack_geometry::{DriveKind, blocks};

/// What the words of the command line ask for.
#[derive(Clone, Copy)]
pub enum Command {
    /// A script is played.
    Play,
    /// The table of a unit's pack is printed.
    ListTable {
        unit: u8,
        kind: DriveKind,
    },
    /// A block is added to the table of a unit's pack.
    AddBlock {
        unit: u8,
        kind: DriveKind,
        block: u32,
        way: AddWay,
    },
    /// A unit's pack gets an empty table.
    FreshTable {
        unit: u8,
        kind: DriveKind,
        serial: u32,
    },
    /// The data blocks that the table of a unit's pack lists are marked.
    MarkBlocks {
        unit: u8,
        kind: DriveKind,
    },
    /// The script that belongs to a number is played, and its tally is printed.
    Exercise {
        number: u64,
    },
    /// A script is played through a cache of `capacity` blocks.
    Cached {
        capacity: u32,
    },
    /// A unit's pack is tested and formatted.
    FormatPack {
        unit: u8,
        kind: DriveKind,
        serial: u32,
    },
    /// Bytes of a partition are transferred.
    TransferBytes {
        transfer: Transfer,
    },
}

/// A block of the drive in decimal.
fn block_in(kind: DriveKind, word: &str) -> Option<u32>
    ensures block { result ≡ block_named kind word.now }
    ensures small { IfSome result (λ block. block < block_count kind) }
{
    let block = number(word.as_bytes(), Radix::Decimal, u64::from(blocks(kind)) - 1).ok()?;
    Some(block as u32)
}

/// A serial number in decimal, below 2^32.
fn serial_in(word: &str) -> Option<u32>
    ensures { result ≡ serial_named word.now }
{
    let serial = number(word.as_bytes(), Radix::Decimal, u64::from(u32::MAX)).ok()?;
    Some(serial as u32)
}

/// The number of an exercise in decimal, below 2^64.
fn number_in(word: &str) -> Option<u64>
    ensures { result ≡ number_named word.now }
{
    number(word.as_bytes(), Radix::Decimal, u64::MAX).ok()
}

/// How many blocks a cache has: 1 to 4,096, in decimal.
fn capacity_in(word: &str) -> Option<u32>
    ensures capacity { result ≡ capacity_named word.now }
    ensures some { IfSome result (λ capacity. 1 ≤ capacity) }
    ensures few { IfSome result (λ capacity. capacity ≤ 4096) }
{
    let capacity = number(word.as_bytes(), Radix::Decimal, 4096).ok()?;
    if capacity == 0 {
        return None;
    }
    Some(capacity as u32)
}

/// `copy` or `mark`.
fn one_way(word: &str) -> Option<AddWay>
    ensures { result ≡ way_named (word.now ∷ []) }
{
    if word == "copy" {
        return Some(AddWay {
            copy: true,
            mark: false,
        });
    }
    if word == "mark" {
        return Some(AddWay {
            copy: false,
            mark: true,
        });
    }
    None
}

/// `copy` and then `mark`.
fn both_ways(first: &str, second: &str) -> Option<AddWay>
    ensures { result ≡ way_named (first.now ∷ second.now ∷ []) }
{
    if first == "copy" && second == "mark" {
        return Some(AddWay {
            copy: true,
            mark: true,
        });
    }
    None
}

/// How a block is added, by the words that follow it: none, `copy`, `mark`, or `copy mark`.
fn way_in(words: &[String]) -> Option<AddWay>
    ensures { result ≡ way_named (map string_bytes words.now) }
{
    match words {
        [] => Some(AddWay {
            copy: false,
            mark: false,
        }),
        [word] => one_way(word.as_str()),
        [first, second] => both_ways(first.as_str(), second.as_str()),
        _ => None,
    }
}

fn list_command(unit: &str, kind: &str) -> Option<Command>
    ensures named { result ≡ of_two TheList (unit_named unit.now) (kind_named kind.now) }
    ensures valid { IfSome result IsValid }
{
    let unit = unit_in(unit)?;
    let kind = kind_in(kind)?;
    Some(Command::ListTable { unit, kind })
}

fn mark_command(unit: &str, kind: &str) -> Option<Command>
    ensures named { result ≡ of_two TheMarking (unit_named unit.now) (kind_named kind.now) }
    ensures valid { IfSome result IsValid }
{
    let unit = unit_in(unit)?;
    let kind = kind_in(kind)?;
    Some(Command::MarkBlocks { unit, kind })
}

fn add_command(unit: &str, kind: &str, block: &str, rest: &[String]) -> Option<Command>
    ensures named { result ≡ add_named (unit_named unit.now) (kind_named kind.now) block.now (way_named (map string_bytes rest.now)) }
    ensures valid { IfSome result IsValid }
{
    let unit = unit_in(unit)?;
    let kind = kind_in(kind)?;
    let block = block_in(kind, block)?;
    let way = way_in(rest)?;
    Some(Command::AddBlock {
        unit,
        kind,
        block,
        way,
    })
}

fn fresh_command(unit: &str, kind: &str, serial: &str) -> Option<Command>
    ensures named { result ≡ of_three TheFresh (unit_named unit.now) (kind_named kind.now) (serial_named serial.now) }
    ensures valid { IfSome result IsValid }
{
    let unit = unit_in(unit)?;
    let kind = kind_in(kind)?;
    let serial = serial_in(serial)?;
    Some(Command::FreshTable { unit, kind, serial })
}

fn exercise_command(number: &str) -> Option<Command>
    ensures named { result ≡ option_map TheExercise (number_named number.now) }
    ensures valid { IfSome result IsValid }
{
    let number = number_in(number)?;
    Some(Command::Exercise { number })
}

fn cached_command(capacity: &str) -> Option<Command>
    ensures named { result ≡ option_map TheCached (capacity_named capacity.now) }
    ensures valid { IfSome result IsValid }
{
    let capacity = capacity_in(capacity)?;
    Some(Command::Cached { capacity })
}

/// A command that a number follows: `exercise` or `cached`.
fn numbered_command(word: &str, number: &str) -> Option<Command>
    ensures named { result ≡ command_named (word.now ∷ number.now ∷ []) }
    ensures valid { IfSome result IsValid }
{
    if word == "exercise" {
        return exercise_command(number);
    }
    if word == "cached" {
        return cached_command(number);
    }
    None
}

/// A command of `bad144` that no word follows: `list` or `mark`.
fn bare_command(verb: &str, unit: &str, kind: &str) -> Option<Command>
    ensures named { result ≡ tool_named verb.now unit.now kind.now [] }
    ensures valid { IfSome result IsValid }
{
    if verb == "list" {
        return list_command(unit, kind);
    }
    if verb == "mark" {
        return mark_command(unit, kind);
    }
    None
}

/// A command of `bad144` that one word follows, and is not `add`: `fresh`.
fn serial_command(verb: &str, unit: &str, kind: &str, serial: &str) -> Option<Command>
    ensures named { result ≡ fresh_named verb.now unit.now kind.now serial.now [] }
    ensures valid { IfSome result IsValid }
{
    if verb == "fresh" {
        return fresh_command(unit, kind, serial);
    }
    None
}

/// A command of `bad144` that words follow: `add`, or `fresh` with one word.
fn worded_command(
    verb: &str,
    unit: &str,
    kind: &str,
    word: &str,
    more: &[String],
) -> Option<Command>
    ensures named { result ≡ worded_named verb.now unit.now kind.now word.now (map string_bytes more.now) }
    ensures valid { IfSome result IsValid }
{
    if verb == "add" {
        return add_command(unit, kind, word, more);
    }
    match more {
        [] => serial_command(verb, unit, kind, word),
        [_, ..] => None,
    }
}

/// A command of `bad144`, by its verb, a unit, a kind, and the words after them.
fn tool_command(verb: &str, unit: &str, kind: &str, rest: &[String]) -> Option<Command>
    ensures named { result ≡ tool_named verb.now unit.now kind.now (map string_bytes rest.now) }
    ensures valid { IfSome result IsValid }
{
    match rest {
        [] => bare_command(verb, unit, kind),
        [word, more @ ..] => worded_command(verb, unit, kind, word.as_str(), more),
    }
}

fn format_command(unit: &str, kind: &str, serial: &str) -> Option<Command>
    ensures named { result ≡ of_three TheFormat (unit_named unit.now) (kind_named kind.now) (serial_named serial.now) }
    ensures valid { IfSome result IsValid }
{
    let unit = unit_in(unit)?;
    let kind = kind_in(kind)?;
    let serial = serial_in(serial)?;
    Some(Command::FormatPack { unit, kind, serial })
}

/// The command `format`, by the words after it.
fn pack_command(unit: &str, kind: &str, serial: &str, rest: &[String]) -> Option<Command>
    ensures named { result ≡ format_named unit.now kind.now serial.now (map string_bytes rest.now) }
    ensures valid { IfSome result IsValid }
{
    match rest {
        [] => format_command(unit, kind, serial),
        [_, ..] => None,
    }
}

/// The command that transfers these bytes, if there are any.
fn transfer_command(transfer: Option<Transfer>) -> Option<Command>
    requires { IfSome transfer IsInRange }
    ensures named { result ≡ option_map TheTransfer transfer }
    ensures valid { IfSome result IsValid }
{
    let transfer = transfer?;
    Some(Command::TransferBytes { transfer })
}

/// The command of one word: `play`.
fn lone_command(word: &str) -> Option<Command>
    ensures named { result ≡ command_named (word.now ∷ []) }
    ensures valid { IfSome result IsValid }
{
    if word == "play" {
        return Some(Command::Play);
    }
    None
}

/// The command of three words: `dump`, a unit and a kind.
fn dump_command(word: &str, unit: &str, kind: &str) -> Option<Command>
    ensures named { result ≡ command_named (word.now ∷ unit.now ∷ kind.now ∷ []) }
    ensures valid { IfSome result IsValid }
{
    if word == "dump" {
        return transfer_command(dump_in(unit, kind));
    }
    None
}

/// The command of four words or more: one of `bad144`, `format`, or `raw`.
fn long_command(tool: &str, verb: &str, unit: &str, kind: &str, rest: &[String]) -> Option<Command>
    ensures named { result ≡ long_named tool.now verb.now unit.now kind.now (map string_bytes rest.now) }
    ensures valid { IfSome result IsValid }
{
    if tool == "bad144" {
        return tool_command(verb, unit, kind, rest);
    }
    if tool == "format" {
        return pack_command(verb, unit, kind, rest);
    }
    if tool == "raw" {
        return transfer_command(raw_in(verb, unit, kind, rest));
    }
    None
}

/// The command that the words of the command line name. None if they name none.
pub fn command_of(words: &[String]) -> Option<Command>
    ensures named { result ≡ command_named (map string_bytes words.now) }
    ensures valid { IfSome result IsValid }
{
    match words {
        [word] => lone_command(word.as_str()),
        [tool, verb, unit, kind, rest @ ..] => long_command(
            tool.as_str(),
            verb.as_str(),
            unit.as_str(),
            kind.as_str(),
            rest,
        ),
        [word, number] => numbered_command(word.as_str(), number.as_str()),
        [word, unit, kind] => dump_command(word.as_str(), unit.as_str(), kind.as_str()),
        [] => None,
    }
}
