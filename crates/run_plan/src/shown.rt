//! The requests that are shown.

ghost use Rattle.std.specs.Prelude.{◌≡◌, ◌-◌, length, IfOk, OnOk};
ghost use Rattle.run_plan.specs.Requests.{is_shown, shown_count, is_few, listed_all, listed, with_column, with_request, top_of, scale_of};

use crate::cells::cell_at;
use crate::sheet::Sheet;
use drive_pictures::Request;
use run_picture::Column;
use std::alloc::{AllocError, Global};

/// The most requests that are listed.
const MOST: usize = 256;

/// The requests that are shown: how many, whether all of them are listed, and those that are.
#[derive(Drop)]
pub struct Shown {
    pub count: usize,
    pub few: bool,
    pub listed: Vec<Request>,
}

/// Whether a request meets the events that are shown.
#[tactic(auto, unfolding(crate::specs::Requests::is_shown))]
pub fn is_shown(sheet: &Sheet<'_>, request: &Request) -> bool
    ensures { result ≡ is_shown sheet.now request.now }
{
    let ended = match request.ended {
        Some(event) => event,
        None => sheet.run.events(),
    };
    !sheet.columns().is_empty() && request.asked < sheet.window.last && ended >= sheet.window.first
}

/// How many requests are shown.
fn count_shown(sheet: &Sheet<'_>) -> usize
    ensures { result ≡ shown_count sheet.now }
{
    let requests = sheet.run.requests();
    requests
        .iter()
        .filter(|request| is_shown(sheet, request))
        .count()
}

/// Puts the requests that are shown, as far as there is room: the first ones, which are those with trouble or, if few are shown, all; or
/// the others.
#[tactic(auto, unfolding(crate::specs::Requests::is_listed, crate::specs::Requests::listed_with))]
fn list_all(
    listed: &mut Vec<Request>,
    sheet: &Sheet<'_>,
    few: bool,
    first: bool,
) -> Result<(), AllocError>
    ensures { OnOk result (listed.new.items ≡ listed_all sheet.now few first listed.old.items) }
{
    for request in sheet.run.requests().iter() {
        let wanted = few || request.trouble;
        if is_shown(sheet, request)
            && (if first { wanted } else { !wanted })
            && listed.len() < MOST
        {
            listed.push(*request)?;
        }
    }
    Ok(())
}

impl Shown {
    /// The requests that a sheet shows. If there are at most 256, all are listed. Otherwise those with trouble are listed first, and
    /// then others, until 256 are listed.
    pub fn new(alloc: Global, sheet: &Sheet<'_>) -> Result<Shown, AllocError>
        ensures count { IfOk result (λ shown. shown.count ≡ shown_count sheet.now) }
        ensures few { IfOk result (λ shown. shown.few ≡ is_few (shown_count sheet.now)) }
        ensures listed { IfOk result (λ shown. shown.listed.items ≡ listed sheet.now (is_few (shown_count sheet.now))) }
    {
        let count = count_shown(sheet);
        let few = count <= MOST;
        let mut listed = Vec::new(alloc);
        list_all(&mut listed, sheet, few, true)?;
        list_all(&mut listed, sheet, few, false)?;
        Ok(Shown { count, few, listed })
    }

    /// How many of the requests that are shown are not listed.
    pub fn left_out(&self) -> u64
        ensures { result ≡ self.now.count - length self.now.listed.items }
    {
        self.count.saturating_sub(self.listed.len()) as u64
    }
}

/// The higher of a cylinder and where a unit's arm was in a column.
#[tactic(auto, unfolding(crate::specs::Requests::with_column))]
fn with_column(unit: u8, top: u32, column: &Column) -> u32
    ensures { result ≡ with_column unit top column.now }
{
    let cell = cell_at(column, unit);
    match cell.path {
        Some(path) => top.max(path.highest.max(cell.cylinder)),
        None => top.max(cell.cylinder),
    }
}

/// The higher of a cylinder and that of a request, if the request is of a unit and is shown.
#[tactic(auto, unfolding(crate::specs::Requests::with_request))]
fn with_request(sheet: &Sheet<'_>, unit: u8, top: u32, request: &Request) -> u32
    ensures { result ≡ with_request sheet.now unit top request.now }
{
    if request.unit == unit && is_shown(sheet, request) {
        top.max(request.cylinder.unwrap_or(0))
    } else {
        top
    }
}

/// The highest cylinder of a unit, of its arm and of its requests.
pub fn top_of(sheet: &Sheet<'_>, unit: u8) -> u32
    ensures { result ≡ top_of sheet.now unit }
{
    let mut top = sheet.arm_before(unit);
    for column in sheet.columns().iter() {
        top = with_column(unit, top, column);
    }
    for request in sheet.run.requests().iter() {
        top = with_request(sheet, unit, top, request);
    }
    top
}

/// The cylinder at the top of the charts of all arms of some units: the highest one that an arm or a request of theirs reaches.
pub fn scale_of(sheet: &Sheet<'_>, units: &[u8]) -> u32
    ensures { result ≡ scale_of sheet.now units.now }
{
    let mut top = 0;
    for unit in units.iter() {
        top = top.max(top_of(sheet, *unit));
    }
    top
}
