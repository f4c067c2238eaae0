//! What requests come to: how many, how they ended, and how long they waited.

ghost use Rattle.std.specs.Prelude.{◌≡◌, count_by, filter, fold, map, slice_index_or, IfOk};
ghost use Rattle.drive_pictures.specs.Counts.{plus};
ghost use Rattle.drive_pictures.specs.Requests.{queued, is_out_of_order};
ghost use Rattle.run_plan.specs.Fields.{field_text};
ghost use Rattle.run_plan.specs.Figures.{is_of, was_ok, mean_text, median_text, HasFigures};

use crate::fields::Field;
use drive_pictures::{Outcome, Request, plus};
use std::alloc::{AllocError, Global};

/// What some requests come to: how many they are, how many were answered ok, and how many were served out of the order asked; the sum
/// of the events that they waited, twice their median, and the most that one waited.
#[derive(Clone, Copy)]
pub struct Figures {
    pub requests: u64,
    pub ok: u64,
    pub turned: u64,
    pub sum: u64,
    pub two_medians: u64,
    pub greatest: u64,
}

/// The requests of a unit.
pub(crate) fn of_unit(alloc: Global, rows: &[Request], unit: u8) -> Result<Vec<Request>, AllocError>
    ensures { IfOk result (λ requests. requests.items ≡ filter (is_of unit) rows.now) }
{
    rows.iter()
        .copied()
        .filter(|request| request.unit == unit)
        .collect(alloc)
}

/// Whether a request was answered ok.
fn was_ok(request: &Request) -> bool
    ensures { result ≡ was_ok request.now }
{
    matches!(request.outcome, Outcome::Ok)
}

/// How many requests were answered ok.
pub(crate) fn count_ok(rows: &[Request]) -> usize
    ensures { result ≡ count_by was_ok rows.now }
{
    rows.iter().filter(|request| was_ok(request)).count()
}

/// How many requests were served out of the order asked.
pub(crate) fn count_turned(rows: &[Request]) -> usize
    ensures { result ≡ count_by is_out_of_order rows.now }
{
    rows.iter()
        .filter(|request| request.is_out_of_order())
        .count()
}

/// The events that each request waited.
fn waits_of(alloc: Global, rows: &[Request]) -> Result<Vec<u64>, AllocError>
    ensures { IfOk result (λ waits. waits.items ≡ map queued rows.now) }
{
    rows.iter().map(|request| request.queued()).collect(alloc)
}

/// The sum of some numbers, which stops at 2^64 - 1.
fn sum_of(waits: &[u64]) -> u64
    ensures { result ≡ fold plus 0 waits.now }
{
    let mut sum = 0u64;
    for wait in waits.iter() {
        sum = plus(sum, *wait);
    }
    sum
}

/// The number at a place; 0 if there is none.
fn at(waits: &[u64], place: usize) -> u64
    ensures { result ≡ slice_index_or waits.now place 0 }
{
    match waits.get(place) {
        Some(wait) => *wait,
        None => 0,
    }
}

/// What some requests come to.
pub(crate) fn figures_of(alloc: Global, rows: &[Request]) -> Result<Figures, AllocError>
    ensures { IfOk result (λ figures. HasFigures rows.now figures) }
{
    let mut waits = waits_of(alloc, rows)?;
    let sum = sum_of(waits.as_slice());
    waits.sort()?;
    let order = waits.as_slice();
    let count = order.len();
    let last = count.saturating_sub(1);
    Ok(Figures {
        requests: rows.len() as u64,
        ok: count_ok(rows) as u64,
        turned: count_turned(rows) as u64,
        sum,
        two_medians: plus(at(order, last / 2), at(order, count / 2)),
        greatest: at(order, last),
    })
}

impl Figures {
    /// The mean of the waits, rounded down to hundredths.
    pub(crate) fn mean(&self) -> Field
        ensures { field_text result ≡ mean_text self.now.sum self.now.requests }
    {
        let count = self.requests.max(1);
        Field::Hundredths {
            whole: self.sum / count,
            rest: (self.sum % count).saturating_mul(100) / count,
        }
    }

    /// The median of the waits.
    pub(crate) fn median(&self) -> Field
        ensures { field_text result ≡ median_text self.now.two_medians }
    {
        Field::Hundredths {
            whole: self.two_medians / 2,
            rest: self.two_medians % 2 * 50,
        }
    }
}
