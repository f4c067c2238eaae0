//! What is drawn, and where.

ghost use Rattle.std.specs.Prelude.{◌≡◌, ◌≤◌, ◌+◌, ◌*◌, length, decimal, map, IfOk};
ghost use Rattle.run_plan.specs.Units.{units_shown};
ghost use Rattle.picture_svg.specs.Pictures.{unit_of};
ghost use Rattle.picture_svg.specs.Scales.{frame_of, place_of, right_of, beside_of, event_at, width_of, middle_of, part_of, column_at, cell_of};

use drive_pictures::{Cell, Request};
use itoa::Buffer;
use run_picture::{Column, Head};
use run_plan::{Sheet, Shown, cell_at, is_shown, top_of};
use std::alloc::{AllocError, Global};

/// The left edge of the columns.
pub const LEFT: u32 = 160;

/// The right edge of the labels beside the columns.
pub const LABEL: u32 = 150;

/// How wide all columns are together at most, and one of them.
const PLOT: u32 = 864;

const WIDEST: u32 = 40;

/// How many columns there are, and how wide one is.
#[derive(Clone, Copy)]
pub struct Frame {
    count: usize,
    pub column: u32,
}

/// A drive as it is drawn: its unit and its kind, its highest cylinder, where its arm is before the first column, and how high the
/// way of its arm is drawn.
#[derive(Clone, Copy)]
pub struct Lane {
    pub unit: u8,
    pub kind: &'static str,
    pub top: u32,
    pub before: u32,
    pub chart: u8,
}

/// What is drawn: a sheet in a frame, with its drives, the cylinder at the top of the charts of all arms, and the requests.
#[derive(Clone, Copy)]
pub struct Scene<'s, 'a> {
    pub sheet: &'s Sheet<'a>,
    pub frame: Frame,
    pub lanes: &'s [Lane],
    pub scale: u32,
    pub shown: &'s Shown,
    pub alloc: Global,
}

/// A stretch of columns, from one up to another.
#[derive(Clone, Copy)]
pub struct Stretch {
    pub from: usize,
    pub to: usize,
}

impl Frame {
    /// The frame of `columns` columns.
    pub fn new(columns: usize) -> Frame
        ensures { result ≡ frame_of columns }
    {
        let count = columns.min(1_000) as u32;
        Frame {
            count: columns,
            column: WIDEST.min(PLOT / count.max(1)),
        }
    }

    /// The left edge of a column.
    pub fn x(&self, column: usize) -> u32
        ensures place { result ≡ place_of self.now column }
        ensures inside { result ≤ 1024 }
    {
        let before = column.min(1_000) as u32;
        LEFT + before.saturating_mul(self.column).min(PLOT)
    }

    /// The right edge of the columns.
    #[tactic(auto, unfolding(crate::specs::Scales::right_of))]
    pub fn right(&self) -> u32
        ensures place { result ≡ right_of self.now }
        ensures inside { result ≤ 1024 }
    {
        self.x(self.count)
    }

    /// The left edge of what stands beside the columns.
    #[tactic(auto, unfolding(crate::specs::Scales::beside_of))]
    pub fn beside(&self) -> u32
        ensures place { result ≡ beside_of self.now }
        ensures inside { result ≤ 1040 }
    {
        self.right().max(690) + 16
    }
}

/// The part of a height that some events are of all events.
pub fn part_of(height: u32, some: u64, all: u64) -> u32
    ensures part { result ≡ part_of height some all }
    ensures inside { result ≤ height }
{
    let height = u64::from(height);
    let part = height.saturating_mul(some) / all.max(1);
    part.min(height) as u32
}

/// How wide a number is written.
pub fn width_of(number: u64) -> u32
    ensures { result ≡ length (decimal number) * 6 }
{
    let mut buffer = Buffer::new();
    let digits = buffer.format(number).len() as u32;
    digits * 6
}

/// Whether a request is one of a unit that is shown.
fn is_of(sheet: &Sheet<'_>, unit: u8, request: &Request) -> bool {
    request.unit == unit && is_shown(sheet, request)
}

impl Lane {
    /// The drive of a unit.
    fn new(sheet: &Sheet<'_>, unit: u8) -> Lane
        ensures { result.unit ≡ unit }
    {
        let top = top_of(sheet, unit);
        let requests = sheet.run.requests().iter();
        let asked = requests
            .filter(|request| is_of(sheet, unit, request))
            .count();
        let room = 44 + 4 * (asked.min(40) as u8);
        let chart = if top > 0 { room } else { 0 };
        Lane {
            unit,
            kind: sheet.kind_of(unit),
            top,
            before: sheet.arm_before(unit),
            chart,
        }
    }
}

/// The drives of a sheet.
pub fn lanes_of(alloc: Global, sheet: &Sheet<'_>) -> Result<Vec<Lane>, AllocError>
    ensures { IfOk result (λ lanes. map unit_of lanes.items ≡ units_shown sheet.now) }
{
    let units = sheet.units(alloc)?;
    let mut lanes = Vec::new(alloc);
    for unit in units.iter() {
        lanes.push(Lane::new(sheet, *unit))?;
    }
    Ok(lanes)
}

impl<'s, 'a> Scene<'s, 'a> {
    /// The head of a column; after the last column, a head of no event.
    pub fn head(&self, column: usize) -> Head
        ensures { result ≡ (column_at self.now.sheet.now.run.now.columns column).head }
    {
        match self.sheet.columns().get(column) {
            Some(column) => column.head,
            None => Head::new(),
        }
    }

    /// What is seen of a drive in a column.
    pub fn cell(&self, unit: u8, column: usize) -> Cell
        ensures { result ≡ cell_of self.now.sheet.now.run.now.columns unit column }
    {
        match self.sheet.columns().get(column) {
            Some(column) => cell_at(column, unit),
            None => Cell::new(),
        }
    }

    /// Where an event stands.
    #[tactic(auto, unfolding(crate::specs::Scales::event_at))]
    pub fn at(&self, event: u64) -> u32
        ensures place { result ≡ event_at self.now event }
        ensures inside { result ≤ 1024 }
    {
        self.frame.x(self.sheet.column_of(event))
    }

    /// How wide a stretch is.
    #[tactic(auto, unfolding(crate::specs::Scales::width_of))]
    pub fn width(&self, stretch: Stretch) -> u32
        ensures size { result ≡ width_of self.now stretch }
        ensures inside { result ≤ 1024 }
    {
        let from = self.frame.x(stretch.from);
        self.frame.x(stretch.to).saturating_sub(from)
    }

    /// The middle of a stretch.
    #[tactic(auto, unfolding(crate::specs::Scales::middle_of))]
    pub fn middle(&self, stretch: Stretch) -> u32
        ensures place { result ≡ middle_of self.now stretch }
        ensures inside { result ≤ 1536 }
    {
        self.frame.x(stretch.from) + self.width(stretch) / 2
    }
}
