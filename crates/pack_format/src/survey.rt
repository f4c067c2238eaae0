//! The first reading of all blocks.
ghost use Rattle.std.specs.Prelude.{◌≡◌, ◌<◌, ◌+◌, ℕ, true, IsTrue, IfErr, IfOk, IfSome, OnOk};
ghost use Rattle.pack_geometry.specs.Geometry.{block_count, limit_of, replacement_at};
ghost use Rattle.pack_geometry.specs.Pack.{Pack, is_marked};
ghost use Rattle.pack_format.specs.Faults.{IsReason, IsWhy};
ghost use Rattle.pack_format.specs.Formatted.{CanBeFormatted, IsTooLong};
ghost use Rattle.pack_format.specs.testing.Polls.{answer_for};
ghost use Rattle.pack_format.specs.Steps.{IsReady, IsStore, Step, seen};
ghost use Rattle.pack_format.specs.Surveys.{IsFirst, IsHeaded, IsJudged, IsListed, IsRefusal, IsSurvey, all_marked, used_of};
ghost use Rattle.pack_geometry.specs.declared.DriveKind.{DriveKind};

use crate::fault::FormatFault;
use crate::job::Job;
use crate::testing::{Polled, Station};
use bad144_table::{BadTable, empty_table, insert};
use outside_traits::traits::Packs;
use pack_geometry::{DriveKind, copy_block, data_limit, place_of, replacement};

/// The marked data blocks so far: how many they are, and, if they are at most 126, the table that lists them.
#[derive(Drop)]
struct Survey {
    found: u32,
    table: BadTable,
}

/// Whether a poll says that the block is marked.
fn is_mark(polled: Polled) -> bool
    ensures { polled ≡ answer_for result }
{
    match polled {
        Polled::Marked => true,
        Polled::Clean => false,
    }
}

/// Reads a block. True if it is marked.
fn poll_mark<P: Packs>(
    station: &mut Station,
    packs: &mut P,
    job: Job,
    block: u32,
) -> Result<bool, FormatFault>
    requires ready { IsReady job station.old }
    requires block { block < block_count job.kind }
    ensures answer { IfOk result (λ marked. IsTrue (P.tells packs.new) → marked ≡ is_marked (P.held packs.old job.unit) block) }
    ensures same { IsTrue (P.tells packs.new) → P.held packs.new ≡ P.held packs.old }
    ensures step { Step (IsReady job station.new) IsStore (seen P.tells P.held P.faults packs.old) (seen P.tells P.held P.faults packs.new) result }
{
    let mut bytes = [0u8; 512];
    let polled = station.poll_read(packs, job.unit, job.kind, block, &mut bytes)?;
    Ok(is_mark(polled))
}

/// Lists a marked data block above all that are listed, which are fewer than 126, so that it is not refused.
fn list(table: &mut BadTable, kind: DriveKind, block: u32)
    requires data_block { block < limit_of kind }
    requires kind { table.old.kind ≡ kind }
    ensures survey { (serial number : ℕ) → (pack : Pack) → IsSurvey kind serial pack block number table.old → is_marked pack block ≡ true → number < 126
        → IsSurvey kind serial pack (block + 1) (number + 1) table.new }
    ensures kind { table.new.kind ≡ kind }
    ensures serial { table.new.serial ≡ table.old.serial }
{
    match insert(table, place_of(kind, block)) {
        Ok(_) => {}
        Err(_) => {}
    }
}

/// Takes a data block into the survey of those below it.
fn take(survey: &mut Survey, kind: DriveKind, block: u32, marked: bool)
    requires data_block { block < limit_of kind }
    requires headed { IsHeaded kind survey.old.table.serial block survey.old.found survey.old.table }
    ensures survey { (serial : ℕ) → (pack : Pack) → IsSurvey kind serial pack block survey.old.found survey.old.table → marked ≡ is_marked pack block
        → IsSurvey kind serial pack (block + 1) survey.new.found survey.new.table }
    ensures headed { IsHeaded kind survey.old.table.serial (block + 1) survey.new.found survey.new.table }
{
    if !marked {
        return;
    }
    survey.found += 1;
    if survey.found > 126 {
        return;
    }
    list(&mut survey.table, kind, block);
}

/// Reads the data blocks.
fn read_data<P: Packs>(
    station: &mut Station,
    packs: &mut P,
    job: Job,
) -> Result<Survey, FormatFault>
    requires ready { IsReady job station.old }
    ensures survey { IfOk result (λ survey. IsTrue (P.tells packs.new) →
        IsSurvey job.kind job.serial (P.held packs.old job.unit) (limit_of job.kind) survey.found survey.table) }
    ensures headed { IfOk result (λ survey. IsHeaded job.kind job.serial (limit_of job.kind) survey.found survey.table) }
    ensures same { IsTrue (P.tells packs.new) → P.held packs.new ≡ P.held packs.old }
    ensures step { Step (IsReady job station.new) IsStore (seen P.tells P.held P.faults packs.old) (seen P.tells P.held P.faults packs.new) result }
{
    let mut survey = Survey {
        found: 0,
        table: empty_table(job.kind, job.serial),
    };
    for block in 0..data_limit(job.kind) {
        let marked = poll_mark(station, packs, job, block)?;
        take(&mut survey, job.kind, block, marked);
    }
    Ok(survey)
}

/// The first marked replacement of those so far, and this one.
fn or_this(first: Option<u8>, i: u8, marked: bool) -> Option<u8>
    ensures { (kind : DriveKind) → (pack : Pack) → IsFirst kind pack i first → marked ≡ is_marked pack (replacement_at kind i) → IsFirst kind pack (i + 1) result }
{
    if marked { first.or(Some(i)) } else { first }
}

/// Reads the replacements; gives the first that is marked.
fn read_replacements<P: Packs>(
    station: &mut Station,
    packs: &mut P,
    job: Job,
) -> Result<Option<u8>, FormatFault>
    requires ready { IsReady job station.old }
    ensures first { IfOk result (λ first. IsTrue (P.tells packs.new) → IsFirst job.kind (P.held packs.old job.unit) 126 first) }
    ensures same { IsTrue (P.tells packs.new) → P.held packs.new ≡ P.held packs.old }
    ensures step { Step (IsReady job station.new) IsStore (seen P.tells P.held P.faults packs.old) (seen P.tells P.held P.faults packs.new) result }
{
    let mut first = None;
    for i in 0..126u8 {
        let marked = poll_mark(station, packs, job, replacement(job.kind, u32::from(i)))?;
        first = or_this(first, i, marked);
    }
    Ok(first)
}

/// Reads the copies of the table. True if all five are marked.
fn read_copies<P: Packs>(
    station: &mut Station,
    packs: &mut P,
    job: Job,
) -> Result<bool, FormatFault>
    requires ready { IsReady job station.old }
    ensures all { IfOk result (λ all. IsTrue (P.tells packs.new) → all ≡ all_marked job.kind (P.held packs.old job.unit) 5) }
    ensures same { IsTrue (P.tells packs.new) → P.held packs.new ≡ P.held packs.old }
    ensures step { Step (IsReady job station.new) IsStore (seen P.tells P.held P.faults packs.old) (seen P.tells P.held P.faults packs.new) result }
{
    let mut all = true;
    for k in 0..5u32 {
        let marked = poll_mark(station, packs, job, copy_block(job.kind, k))?;
        all &= marked;
    }
    Ok(all)
}

/// The first marked replacement, if an entry would use it.
fn used(found: u32, spare: Option<u8>) -> Option<u8>
    ensures used { result ≡ used_of found spare }
    ensures below { IfSome result (λ i. i < found) }
{
    match spare {
        Some(i) if u32::from(i) < found => Some(i),
        _ => None,
    }
}

/// Whether nothing is in the way: too many marked blocks, a marked replacement that would be used, or no copy.
fn judge(found: u32, spare: Option<u8>, no_copy: bool) -> Result<(), FormatFault>
    ensures ok { OnOk result ((kind : DriveKind) → (pack : Pack) → IsJudged kind pack found spare no_copy → CanBeFormatted kind pack) }
    ensures why { IfErr result (λ fault. (kind : DriveKind) → (pack : Pack) → IsJudged kind pack found spare no_copy → IsWhy kind pack fault) }
    ensures refusal { IfErr result IsRefusal }
{
    if found > 126 {
        return Err(FormatFault::TooMany { found });
    }
    match used(found, spare) {
        Some(i) => Err(FormatFault::Spare(i)),
        None if no_copy => Err(FormatFault::NoCopy),
        None => Ok(()),
    }
}

/// Reads every data block, replacement and copy. Gives the table of the marked data blocks if nothing is in the way.
pub(crate) fn first_reading<P: Packs>(
    station: &mut Station,
    packs: &mut P,
    job: Job,
) -> Result<BadTable, FormatFault>
    requires ready { IsReady job station.old }
    requires fits { IsTrue (P.tells packs.old) → ¬ (IsTooLong job.kind (P.held packs.old job.unit)) }
    ensures listed { IfOk result (IsListed job.kind job.serial (P.tells packs.new) (P.held packs.old job.unit)) }
    ensures same { IsTrue (P.tells packs.new) → P.held packs.new ≡ P.held packs.old }
    ensures step { Step (IsReady job station.new) (IsReason job.kind job.serial (P.tells packs.new) (P.held packs.old job.unit))
        (seen P.tells P.held P.faults packs.old) (seen P.tells P.held P.faults packs.new) result }
{
    let survey = read_data(station, packs, job)?;
    let spare = read_replacements(station, packs, job)?;
    let no_copy = read_copies(station, packs, job)?;
    judge(survey.found, spare, no_copy)?;
    Ok(survey.table)
}
