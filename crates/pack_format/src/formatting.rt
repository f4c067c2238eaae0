//! Formatting a pack.
ghost use Rattle.std.specs.Prelude.{◌≡◌, ◌≢◌, ℕ, ◌<◌, ◌≤◌, ◌⊎◌, IfOk, IfErr, IsTrue, OnErr, OnOk};
ghost use Rattle.pack_geometry.specs.declared.DriveKind.{DriveKind};
ghost use Rattle.pack_geometry.specs.Geometry.{block_count};
ghost use Rattle.pack_geometry.specs.Pack.{Pack};
ghost use Rattle.pack_format.specs.testing.Stops.{IsStop, Writes};
ghost use Rattle.pack_format.specs.Faults.{Formats, IsCaused, IsEnd, IsFault, IsReason, IsWhy, Leaves};
ghost use Rattle.pack_format.specs.Formatted.{CanBeFormatted, IsFormatted, IsPartly, IsTooLong, found};
ghost use Rattle.pack_format.specs.Steps.{IsReady, Step, seen};
ghost use Rattle.pack_format.specs.Surveys.{IsListed};
ghost use Rattle.pack_format.specs.Tasks.{Did, MayWrite, StopsAt};
ghost use Rattle.pack_format.specs.declared.fault.FormatFault.{FormatFault};
ghost use Rattle.pack_format.specs.declared.fault.FormatFault.TheVariants.{Memory, Store};

use crate::fault::FormatFault;
use crate::job::{Job, Task, task_of};
use crate::survey::first_reading;
use crate::testing::{Station, test_block, write_and_read};
use bad144_table::{BadTable, entries, write_table};
use outside_traits::traits::Packs;
use pack_geometry::{DriveKind, blocks};
use std::alloc::Global;

/// The result of formatting a pack.
#[derive(Clone, Copy)]
pub struct FormatReport {
    /// How many data blocks are marked, and so listed.
    pub bad: u8,
}

/// Looks whether the image is no longer than the pack.
fn check_length<P: Packs>(packs: &mut P, job: Job) -> Result<(), FormatFault>
    requires { job.unit < 32 }
    ensures same { IsTrue (P.tells packs.new) → P.held packs.new ≡ P.held packs.old }
    ensures step { Step (IsTrue (P.tells packs.new) → ¬ (IsTooLong job.kind (P.held packs.old job.unit)))
        (IsReason job.kind job.serial (P.tells packs.new) (P.held packs.old job.unit))
        (seen P.tells P.held P.faults packs.old) (seen P.tells P.held P.faults packs.new) result }
{
    let length = packs.length(job.unit)?;
    if length > 512 * u64::from(blocks(job.kind)) {
        return Err(FormatFault::TooLong { length });
    }
    Ok(())
}

/// Does a task with a sector. `bytes` are those of the table.
fn do_task<P: Packs>(
    station: &mut Station,
    packs: &mut P,
    job: Job,
    task: Task,
    sector: u32,
    bytes: &[u8; 512],
) -> Result<(), FormatFault>
    requires ready { IsReady job station.old }
    requires sector { sector < block_count job.kind }
    ensures did { OnOk result (IsTrue (P.tells packs.new) → Did task job.unit sector bytes.now (P.held packs.old) (P.held packs.new)) }
    ensures stops { OnErr result (IsTrue (P.tells packs.new) → StopsAt task job.unit sector bytes.now (P.held packs.old) (P.held packs.new)) }
    ensures step { Step (IsReady job station.new) (IsStop (P.tells packs.new) (Writes sector (MayWrite task bytes.now)))
        (seen P.tells P.held P.faults packs.old) (seen P.tells P.held P.faults packs.new) result }
{
    match task {
        Task::Test => test_block(station, packs, job, sector),
        Task::Put => write_and_read(station, packs, job, sector, bytes),
        Task::Leave => Ok(()),
    }
}

/// Tests the data blocks and the replacements that a table uses, and writes it to its copies.
fn write_blocks<P: Packs>(
    station: &mut Station,
    packs: &mut P,
    job: Job,
    table: &BadTable,
) -> Result<(), FormatFault>
    requires ready { IsReady job station.old }
    requires listed { IsListed job.kind job.serial (P.tells packs.old) (P.held packs.old job.unit) table.now }
    ensures formatted { OnOk result (IsTrue (P.tells packs.new) → IsFormatted job.kind job.serial (P.held packs.old job.unit) (P.held packs.new job.unit)) }
    ensures partly { OnErr result (IsTrue (P.tells packs.new) → IsPartly job.kind job.serial (P.held packs.old job.unit) (P.held packs.new job.unit)) }
    ensures elsewhere { (other : ℕ) → other ≢ job.unit → IsTrue (P.tells packs.new) → P.held packs.new other ≡ P.held packs.old other }
    ensures step { Step (IsReady job station.new) (IsStop (P.tells packs.new) (Formats job.kind job.serial))
        (seen P.tells P.held P.faults packs.old) (seen P.tells P.held P.faults packs.new) result }
{
    let spares = u32::from(entries(table));
    let mut bytes = [0u8; 512];
    write_table(table, &mut bytes);
    for sector in 0..blocks(job.kind) {
        let task = task_of(job.kind, spares, sector);
        do_task(station, packs, job, task, sector, &bytes)?;
    }
    Ok(())
}

/// Formats a pack whose image is no longer than the pack, through a station.
fn format_through<P: Packs>(
    station: &mut Station,
    packs: &mut P,
    job: Job,
) -> Result<FormatReport, FormatFault>
    requires ready { IsReady job station.old }
    requires fits { IsTrue (P.tells packs.old) → ¬ (IsTooLong job.kind (P.held packs.old job.unit)) }
    ensures formatted { IfOk result (λ report. IsTrue (P.tells packs.new) →
        IsFormatted job.kind job.serial (P.held packs.old job.unit) (P.held packs.new job.unit) × (report.bad ≡ found job.kind (P.held packs.old job.unit))) }
    ensures few { IfOk result (λ report. report.bad ≤ 126) }
    ensures elsewhere { (other : ℕ) → other ≢ job.unit → IsTrue (P.tells packs.new) → P.held packs.new other ≡ P.held packs.old other }
    ensures step { Step (IsReady job station.new)
        (IsEnd job.kind job.serial job.unit (seen P.tells P.held P.faults packs.old) (seen P.tells P.held P.faults packs.new))
        (seen P.tells P.held P.faults packs.old) (seen P.tells P.held P.faults packs.new) result }
{
    let table = first_reading(station, packs, job)?;
    write_blocks(station, packs, job, &table)?;
    Ok(FormatReport {
        bad: entries(&table),
    })
}

/// Formats a unit's pack.
///
/// First every data block, replacement and copy of the table is read. Then each data block that is not marked, and each replacement
/// that the table will use, is written with 512 bytes A5, read back, written with zeros and read back, in ascending order of block
/// number. Last, a table with this serial number, which lists the marked data blocks, is written to each copy that is not marked, and
/// read back.
///
/// The refusals come in this order, and change nothing: `TooLong` exactly if the image is longer than the pack; `TooMany` exactly if
/// more than 126 data blocks are marked; `Spare` with the first replacement that would be used and is marked; `NoCopy` exactly if all
/// five copies are marked. `Differs` never comes over packs that tell. Over other packs it names the first byte of a block that did not
/// come back as it was written, with what was written there and what was read. `Store` comes only if the packs' count of faults rose,
/// and leaves a front of what is written: all sectors before one sector are done, that sector has what it had, or A5, zeros or the
/// table, and no later sector was begun. `Memory` comes before any write.
pub fn format<P: Packs>(
    alloc: Global,
    packs: &mut P,
    unit: u8,
    kind: DriveKind,
    serial: u32,
) -> Result<FormatReport, FormatFault>
    requires { unit < 32 }
    ensures formatted { IfOk result (λ report. IsTrue (P.tells packs.new) →
        IsFormatted kind serial (P.held packs.old unit) (P.held packs.new unit) × (report.bad ≡ found kind (P.held packs.old unit))) }
    ensures few { IfOk result (λ report. report.bad ≤ 126) }
    ensures elsewhere { (other : ℕ) → other ≢ unit → IsTrue (P.tells packs.new) → P.held packs.new other ≡ P.held packs.old other }
    ensures why { IfErr result (λ fault. IsTrue (P.tells packs.new) → IsWhy kind (P.held packs.old unit) fault) }
    ensures left { IfErr result (λ fault. IsTrue (P.tells packs.new) → Leaves kind serial unit (P.held packs.old) (P.held packs.new) fault) }
    ensures fault { IfErr result (IsFault kind serial) }
    ensures never_again { IsTrue (P.tells packs.new) → IsTrue (P.tells packs.old) }
    ensures cause { IsCaused (P.faults packs.old) (P.faults packs.new) result }
{
    let job = Job { unit, kind, serial };
    check_length(packs, job)?;
    let mut station = Station::new(alloc, kind)?;
    format_through(&mut station, packs, job)
}

/// The law of refusals. If nothing is in the way on a pack, `format` does not refuse it; so `format` ends well, unless memory runs out
/// or the packs fail. And no pack is refused for two reasons.
pub fn refusals_law()
    ensures none { (kind : DriveKind) → (pack : Pack) → (fault : FormatFault) → CanBeFormatted kind pack → IsWhy kind pack fault
        → (fault ≡ Memory) ⊎ (fault ≡ Store) }
    ensures one { (kind : DriveKind) → (pack : Pack) → (fault other : FormatFault) → IsWhy kind pack fault → IsWhy kind pack other
        → (fault ≡ Memory) ⊎ (fault ≡ Store) ⊎ (other ≡ Memory) ⊎ (other ≡ Store) ⊎ (other ≡ fault) }
{}
