// The texts of errors. The program prints none of them.
use bad144_table::{InsertFault, TableFault};
use bad144_tool::ToolFault;
use callers::{RawFault, Stop};
use command_parts::load::LoadFault;
use main_memory::NoFrames;
use mass_text::NumberFault;
use mba_autoconf::{AttachFault, ProbeFault};
use outside_traits::traits::{NoMemory, SinkFailed, SourceFailed, StoreFailed};
use outside_traits::whole::ReadAllFault;
use pack_format::FormatFault;
use script_lines::ScriptKind;
use script_reader::ReadFault;
use script_reader::cached::{CachedKind, CachedRefusal};
use script_runs::PlayFault;
use std::alloc::Global;
use std::fmt::Display;
use trace_reader::{TraceFault, TraceKind};
use transfer_engine::{Exhausted, Unforwarded};

// Whether an error has this text.
fn has_text<E: Display>(alloc: Global, error: &E, text: &str) -> bool {
    format!(in alloc; "{error}").is_ok_and(|said| said.as_str() == text)
}

// Asserts that each of these errors has its text.
macro_rules! assert_texts {
    ($rt:ident; $($error:expr => $text:literal,)*) => {
        $(assert!($rt; has_text($rt.alloc(), &$error, $text));)*
    };
}

#[test]
fn texts_of_errors(rt: HostRuntime) {
    assert_texts!(rt;
        NumberFault::Empty => "no digit",
        NumberFault::Digit(1) => "no digit at 1",
        NumberFault::Large => "too large",
        TableFault::Zero => "zero",
        TableFault::Flag => "flag",
        TableFault::Range(0) => "range at 0",
        TableFault::Order(1) => "order at 1",
        TableFault::AfterEnd(125) => "after the end at 125",
        InsertFault::Reserved => "reserved",
        InsertFault::Listed(3) => "listed at 3",
        InsertFault::Full => "full",
        ProbeFault::Unknown(0o023) => "unknown drive type 23",
        AttachFault::TooLong { length: 513 } => "the image has 513 bytes",
        AttachFault::Store => "the packs failed",
        FormatFault::Memory => "there is no memory",
        FormatFault::TooLong { length: 513 } => "513 bytes are too many",
        FormatFault::TooMany { found: 127 } => "127 marked blocks are too many",
        FormatFault::Spare(2) => "replacement 2 is marked",
        FormatFault::NoCopy => "no copy is unmarked",
        FormatFault::Differs { block: 5, at: 511, wrote: 165, read: 0 } => "byte 511 of block 5 was written as 165 and read as 0",
        FormatFault::Store => "the packs failed",
    );
}

#[test]
fn texts_of_stops(rt: HostRuntime) {
    assert_texts!(rt;
        RawFault::Outside => "the range reaches beyond the partition",
        RawFault::Unusable { done: 536 } => "a block can't be used, after 536 bytes",
        RawFault::Store => "the packs failed",
        RawFault::Sink => "the trace failed",
        ReadAllFault::Memory => "there is no memory",
        ReadAllFault::Failed => "the source failed",
        Stop::Store => "the packs failed",
        Stop::Sink => "the trace failed",
        ToolFault::NoTable => "no table",
        ToolFault::Reserved => "reserved",
        ToolFault::Listed(3) => "listed at 3",
        ToolFault::Full => "full",
        ToolFault::Spare(2) => "replacement 2 is marked",
        ToolFault::TooLong { length: 513 } => "513 bytes are too many",
        ToolFault::Store => "the packs failed",
        ToolFault::Sink => "the sink failed",
        NoMemory => "there is no memory",
        SourceFailed => "the source failed",
        SinkFailed => "the sink failed",
        StoreFailed => "the packs failed",
        NoFrames { free: 1 } => "no frames: 1 are free",
        Unforwarded { done: 2 } => "unforwarded after 2 blocks",
        Exhausted { done: 3 } => "exhausted after 3 blocks",
    );
}

#[test]
fn texts_of_refusals(rt: HostRuntime) {
    assert_texts!(rt;
        ReadFault::Memory => "there is no memory",
        ReadFault::Refused { line: 2, kind: ScriptKind::Word } => "line 2 is refused",
        CachedRefusal::Memory => "there is no memory",
        CachedRefusal::Refused { line: 2, kind: CachedKind::Word } => "line 2 is refused",
        LoadFault::Memory => "there is no memory",
        LoadFault::Failed => "the source failed",
        LoadFault::Refused { line: 2, kind: ScriptKind::Word } => "line 2 is refused",
        PlayFault::Memory => "there is no memory",
        PlayFault::TooLong { unit: 8, length: 513 } => "the image of unit 8 has 513 bytes",
        PlayFault::Store => "the packs failed",
        PlayFault::Sink => "a sink failed",
        TraceFault::Memory => "there is no memory",
        TraceFault::Refused { line: 2, kind: TraceKind::Word } => "line 2 of the trace is refused",
    );
}
