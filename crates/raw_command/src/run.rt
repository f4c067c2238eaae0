// Transfers from a source, or to a sink.
ghost use Rattle.std.specs.Prelude.{◌≡◌, ◌↔◌, ◌⊎◌, ◌+◌, ◌*◌, ◌≤◌, ◌<◌, ◌++◌, ℕ, Bool, false, IsTrue, List, [], IfOk, length, vec_len};
ghost use Rattle.partitions.specs.Partitions.{size_of};
ghost use Rattle.command_parts.specs.Lines.{Told};
ghost use Rattle.command_parts.specs.Outside.{HasItsCause, outside};
ghost use Rattle.raw_command.specs.Endings.{Ends, IsBeyond, ReadEnds, Stays, WriteEnds, fault_text, limit_of, target_for};
ghost use Rattle.raw_command.specs.Faults.{IsSilent, IsTransferCode, code_of};
ghost use Rattle.command_parts.specs.Words.{IsInRange, IsPlaced, IsTarget, reads_source};

use crate::fault::TransferFault;
use crate::lines::{done_line, fault_line};
use crate::units::{put, read_unit};
use command_parts::{Target, Transfer, Writing};
use outside_traits::traits::{Packs, Sink, Source};
use outside_traits::whole::{read_all, write_all};
use raw_io::is_outside;
use std::alloc::{AllocError, Global};

/// The most bytes that `raw write` takes from its source.
const MOST_WRITTEN: usize = 16_777_216;

/// The most bytes that `dump` takes.
const MOST_DUMPED: usize = 8_388_608;

/// So many zeros.
fn zeros(alloc: Global, size: usize) -> Result<Vec<u8>, AllocError>
    ensures { IfOk result (λ bytes. vec_len bytes ≡ size) }
{
    vec![in alloc; 0; size]
}

/// Prints why bytes were not transferred, if there is a text for that.
fn refuse<O: Sink>(out: &mut O, unit: u8, fault: TransferFault) -> TransferFault
    ensures same { result ≡ fault }
    ensures never_again { IsTrue (O.tells out.new) → IsTrue (O.tells out.old) }
    ensures told { IsTrue (O.tells out.new) → Told (O.taken out.old) (O.taken out.new) (fault_text unit fault) (O.faults out.old) (O.faults out.new) }
    ensures silent { IsSilent fault → out.new ≡ out.old }
    ensures later { O.faults out.old ≤ O.faults out.new }
{
    match fault {
        TransferFault::Memory
        | TransferFault::Source
        | TransferFault::Store
        | TransferFault::Sink => fault,
        TransferFault::Outside | TransferFault::TooLong { .. } | TransferFault::Unusable { .. } => {
            let _ = write_all(out, fault_line(unit, fault).as_bytes());
            fault
        }
    }
}

/// The most bytes that are taken from the source of a write.
fn limit(writing: Writing) -> usize
    ensures limit { result ≡ limit_of writing }
    ensures few { result ≤ 16777216 }
{
    match writing {
        Writing::Raw { .. } => MOST_WRITTEN,
        Writing::Dump { .. } => MOST_DUMPED,
    }
}

/// The unit that is written to.
fn unit(writing: Writing) -> u8
    ensures { (from : List ℕ) → result ≡ (target_for writing from).unit }
{
    match writing {
        Writing::Raw { target } => target.unit,
        Writing::Dump { unit, .. } => unit,
    }
}

/// Whether `size` bytes are refused: they are too many, or reach beyond the partition.
fn is_beyond(writing: Writing, size: usize) -> bool
    requires { IsPlaced writing }
    ensures { IsTrue result ↔ IsBeyond writing size }
{
    match writing {
        Writing::Raw { target } => {
            size > MOST_WRITTEN || is_outside(target.kind, target.part, target.at, size)
        }
        Writing::Dump { .. } => size > MOST_DUMPED,
    }
}

/// Reads as many bytes of a partition as the buffer has, and gives the sink those before the first block that can't be used.
fn read_to<P: Packs, O: Sink, T: Sink>(
    alloc: Global,
    target: Target,
    bytes: &mut [u8],
    packs: &mut P,
    out: &mut O,
    trace: &mut T,
) -> Result<(), TransferFault>
    requires target { IsTarget target }
    requires inside { target.at + length bytes.old ≤ 512 * size_of target.kind target.part }
    ensures ends { (source_tells : Bool) → (left : List ℕ) → (source_faults : ℕ) → ReadEnds target (length bytes.old) result
        (outside (λ (_ : Unit {0}). source_tells) (λ _. left) (λ _. source_faults) P.tells P.held P.faults P.failed_at O.tells O.taken O.faults T.tells T.taken T.faults tt packs.old out.old trace.old)
        (outside (λ (_ : Unit {0}). source_tells) (λ _. left) (λ _. source_faults) P.tells P.held P.faults P.failed_at O.tells O.taken O.faults T.tells T.taken T.faults tt packs.new out.new trace.new) }
    ensures stays { Stays (code_of result) packs.old packs.new out.old out.new trace.old trace.new }
{
    match read_unit(alloc, target, bytes, packs, trace) {
        Ok(()) => match write_all(out, bytes) {
            Ok(()) => Ok(()),
            Err(_) => Err(TransferFault::Sink),
        },
        Err(TransferFault::Unusable { done }) => {
            let _ = write_all(out, &bytes[..done as usize]);
            Err(TransferFault::Unusable { done })
        }
        Err(fault) => Err(refuse(out, target.unit, fault)),
    }
}

/// Reads `size` bytes of a partition, and gives the sink those before the first block that can't be used.
fn run_read<P: Packs, O: Sink, T: Sink>(
    alloc: Global,
    target: Target,
    size: u32,
    packs: &mut P,
    out: &mut O,
    trace: &mut T,
) -> Result<(), TransferFault>
    requires target { IsTarget target }
    requires few { size ≤ 16777216 }
    ensures ends { (source_tells : Bool) → (left : List ℕ) → (source_faults : ℕ) → ReadEnds target size result
        (outside (λ (_ : Unit {0}). source_tells) (λ _. left) (λ _. source_faults) P.tells P.held P.faults P.failed_at O.tells O.taken O.faults T.tells T.taken T.faults tt packs.old out.old trace.old)
        (outside (λ (_ : Unit {0}). source_tells) (λ _. left) (λ _. source_faults) P.tells P.held P.faults P.failed_at O.tells O.taken O.faults T.tells T.taken T.faults tt packs.new out.new trace.new) }
    ensures stays { Stays (code_of result) packs.old packs.new out.old out.new trace.old trace.new }
{
    if is_outside(target.kind, target.part, target.at, size as usize) {
        return Err(refuse(out, target.unit, TransferFault::Outside));
    }
    let mut bytes = zeros(alloc, size as usize)?;
    read_to(alloc, target, bytes.as_mut_slice(), packs, out, trace)
}

/// Writes the bytes that were read of a source to a unit, and tells how many they are.
fn write_from<P: Packs, O: Sink, T: Sink>(
    alloc: Global,
    writing: Writing,
    from: &[u8],
    packs: &mut P,
    out: &mut O,
    trace: &mut T,
) -> Result<(), TransferFault>
    requires placed { IsPlaced writing }
    ensures ends { (tells tells' : Bool) → (left left' : List ℕ) → (faults faults' : ℕ) → (IsTrue tells' → left ≡ from.now ++ left')
        → (IsTrue tells' → (left' ≡ []) ⊎ (limit_of writing < length from.now)) → WriteEnds writing result
        (outside (λ (_ : Unit {0}). tells) (λ _. left) (λ _. faults) P.tells P.held P.faults P.failed_at O.tells O.taken O.faults T.tells T.taken T.faults tt packs.old out.old trace.old)
        (outside (λ (_ : Unit {0}). tells') (λ _. left') (λ _. faults') P.tells P.held P.faults P.failed_at O.tells O.taken O.faults T.tells T.taken T.faults tt packs.new out.new trace.new) }
    ensures stays { Stays (code_of result) packs.old packs.new out.old out.new trace.old trace.new }
{
    if is_beyond(writing, from.len()) {
        return Err(refuse(out, unit(writing), TransferFault::Outside));
    }
    match put(alloc, writing, from, packs, trace) {
        Ok(()) => {
            match write_all(out, done_line(writing, from.len()).as_bytes()) {
                Ok(()) => Ok(()),
                Err(_) => Err(TransferFault::Sink),
            }
        }
        Err(fault) => Err(refuse(out, unit(writing), fault)),
    }
}

/// Reads the source to its end, or to one byte more than may be written, and writes its bytes to a unit.
fn run_write<S: Source, P: Packs, O: Sink, T: Sink>(
    alloc: Global,
    writing: Writing,
    source: &mut S,
    packs: &mut P,
    out: &mut O,
    trace: &mut T,
) -> Result<(), TransferFault>
    requires placed { IsPlaced writing }
    ensures ends { WriteEnds writing result
        (outside S.tells S.left S.faults P.tells P.held P.faults P.failed_at O.tells O.taken O.faults T.tells T.taken T.faults source.old packs.old out.old trace.old)
        (outside S.tells S.left S.faults P.tells P.held P.faults P.failed_at O.tells O.taken O.faults T.tells T.taken T.faults source.new packs.new out.new trace.new) }
    ensures taken { IsTrue (S.tells source.new) → length (S.left source.old) ≤ length (S.left source.new) + limit_of writing + 1 }
    ensures stays { Stays (code_of result) packs.old packs.new out.old out.new trace.old trace.new }
{
    let from = read_all(alloc, source, limit(writing))?;
    write_from(alloc, writing, from.as_slice(), packs, out, trace)
}

/// Transfers bytes of a partition. A read gives them to `out`; a write takes those of the source, and then tells how many they are. The
/// lines of the requests go to `trace`.
///
/// The steps come in this order. A write first reads its source, to the end or to one byte more than there may be. Then `Outside` is
/// checked, the unit is attached, and the bytes are transferred. Each answer says what the call has done (`Ends`). `Memory` comes only
/// before anything is transferred. `Source`, `Store` and `Sink` come only if the count of faults of that object rose.
pub fn run_transfer<S: Source, P: Packs, O: Sink, T: Sink>(
    alloc: Global,
    transfer: Transfer,
    source: &mut S,
    packs: &mut P,
    out: &mut O,
    trace: &mut T,
) -> Result<(), TransferFault>
    requires { IsInRange transfer }
    ensures ends { Ends transfer result
        (outside S.tells S.left S.faults P.tells P.held P.faults P.failed_at O.tells O.taken O.faults T.tells T.taken T.faults source.old packs.old out.old trace.old)
        (outside S.tells S.left S.faults P.tells P.held P.faults P.failed_at O.tells O.taken O.faults T.tells T.taken T.faults source.new packs.new out.new trace.new) }
    ensures statuses { IsTransferCode transfer (code_of result) }
    ensures causes { HasItsCause (code_of result)
        (outside S.tells S.left S.faults P.tells P.held P.faults P.failed_at O.tells O.taken O.faults T.tells T.taken T.faults source.old packs.old out.old trace.old)
        (outside S.tells S.left S.faults P.tells P.held P.faults P.failed_at O.tells O.taken O.faults T.tells T.taken T.faults source.new packs.new out.new trace.new) }
    ensures stays { Stays (code_of result) packs.old packs.new out.old out.new trace.old trace.new }
    ensures unread { reads_source transfer ≡ false → source.new ≡ source.old }
{
    match transfer {
        Transfer::Read { target, size } => run_read(alloc, target, size, packs, out, trace),
        Transfer::Write { writing } => run_write(alloc, writing, source, packs, out, trace),
    }
}
