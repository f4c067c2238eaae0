//! Bars over stretches of columns: who holds an adapter, how many drives position, how many requests wait, in which condition a drive
//! is, and what it does.

ghost use Rattle.std.specs.Prelude.{◌≡◌, ◌≤◌, OnOk};

use crate::holders::{held, held_by, is_on};
use crate::markup::{Done, Markup};
use crate::pieces::Piece::{End, Number, Word};
use crate::pieces::{Element, Shape, at};
use crate::scene::{Lane, Scene, Stretch, part_of};
use crate::stretches::{Track, next_stretch, positioning};
use drive_pictures::{Letter, Tally, all_letters, letter_sign, letter_word, plus};
use run_picture::Column;
use run_plan::{count_of, letter_at};
use std::alloc::AllocError;

/// The letters from below, if a column is several events.
static STACK: [Letter; 10] = [
    Letter::Moves,
    Letter::Retries,
    Letter::Replaces,
    Letter::Moved,
    Letter::Arrived,
    Letter::Recalibrates,
    Letter::Seeks,
    Letter::Turns,
    Letter::Offsets,
    Letter::Ready,
];

/// Puts the drives that hold the adapter in a column. The result is the first of them.
fn put_holders(
    out: &mut Markup<'_>,
    lanes: &[Lane],
    column: &Column,
    adapter: u8,
) -> Result<Option<u8>, AllocError>
    ensures { OnOk result (out.new ≡ out.old) }
{
    let mut first = None;
    for lane in lanes.iter() {
        if is_on(lane, adapter) && held_by(column, lane) > 0 {
            let comma = if first.is_some() { ", " } else { "" };
            out.put_all(&[Word(comma), Number(u64::from(lane.unit))])?;
            first = first.or(Some(lane.unit));
        }
    }
    Ok(first)
}

/// Puts what a drive does in a column, in words, and how often if a column is several events.
fn put_letters(out: &mut Markup<'_>, tally: &Tally, events: u64, single: bool) -> Done
    ensures { OnOk result (out.new ≡ out.old) }
{
    let mut first = true;
    for letter in all_letters().iter() {
        let count = count_of(tally, events, *letter);
        if count > 0 {
            let between = if first { ": " } else { ", " };
            out.put_all(&[Word(between), Word(letter_word(*letter))])?;
            first = false;
            if !single {
                out.put_all(&[Word(" "), Number(count)])?;
            }
        }
    }
    Ok(())
}

impl<'s, 'a> Scene<'s, 'a> {
    /// Who holds an adapter, with the unit in the bar if a column is one event and there is room.
    fn draw_held(&self, out: &mut Markup<'_>, stretch: Stretch, adapter: u8, y: u32) -> Done
        requires { y ≤ 19000 }
        ensures { OnOk result (out.new ≡ out.old) }
    {
        let Some(column) = self.sheet.columns().get(stretch.from) else {
            return Ok(());
        };
        let sum = held(column, self.lanes, adapter);
        if sum == 0 {
            return Ok(());
        }
        let (width, height) = (self.width(stretch), part_of(16, sum, column.head.events));
        let corner = at(self.frame.x(stretch.from), y + 17 - height);
        self.begin_span(out, stretch, ": held by unit ")?;
        let first = put_holders(out, self.lanes, column, adapter)?;
        out.put(End(Element::Title))?;
        out.filled(Letter::Moves, corner, at(width, height))?;
        if self.sheet.is_by_event() && width >= 14 {
            let unit = u64::from(first.unwrap_or(0));
            out.text_with("m b c i", at(self.middle(stretch), y + 13), "", unit)?;
        }
        out.put(End(Element::Group))
    }

    /// How many drives of an adapter position, with the number in the bar if there is room.
    fn draw_positioning(&self, out: &mut Markup<'_>, stretch: Stretch, adapter: u8, y: u32) -> Done
        requires { y ≤ 19000 }
        ensures { OnOk result (out.new ≡ out.old) }
    {
        let count = match self.sheet.columns().get(stretch.from) {
            Some(column) => positioning(column, adapter),
            None => 0,
        };
        if count == 0 {
            return Ok(());
        }
        let (width, height) = (self.width(stretch), 2 + 2 * (count.min(8) as u32));
        let corner = at(self.frame.x(stretch.from), y + 40 - height);
        self.begin_span(out, stretch, ": ")?;
        out.put_all(&[Number(count), Word(" positioning"), End(Element::Title)])?;
        out.shape(Shape::Rect, "n", corner, at(width, height))?;
        if width >= 8 {
            out.text_with("m b c", at(self.middle(stretch), y + 39), "", count)?;
        }
        out.put(End(Element::Group))
    }

    /// How many requests of a unit wait, of so many at most.
    fn draw_wait(&self, out: &mut Markup<'_>, stretch: Stretch, unit: u8, most: u64, y: u32) -> Done
        requires { y ≤ 19000 }
        ensures { OnOk result (out.new ≡ out.old) }
    {
        let count = self.cell(unit, stretch.from).waiting;
        if count == 0 {
            return Ok(());
        }
        let height = part_of(10, count, most);
        let corner = at(self.frame.x(stretch.from), y + 11 - height);
        self.begin_span(out, stretch, ": ")?;
        out.put_all(&[Number(count), Word(" asked for"), End(Element::Title)])?;
        out.shape(Shape::Rect, "v", corner, at(self.width(stretch), height))?;
        out.put(End(Element::Group))
    }

    /// That a drive is locked, or else is offline.
    fn draw_condition(&self, out: &mut Markup<'_>, stretch: Stretch, locked: bool, y: u32) -> Done
        requires { y ≤ 19000 }
        ensures { OnOk result (out.new ≡ out.old) }
    {
        let (words, class) = if locked {
            (": locked", "j")
        } else {
            (": offline", "f")
        };
        let from = at(self.frame.x(stretch.from), y);
        let to = at(self.frame.x(stretch.to), y);
        self.begin_span(out, stretch, words)?;
        out.put(End(Element::Title))?;
        out.shape(Shape::Across, class, from, to)?;
        out.put(End(Element::Group))
    }

    /// The letters of a stretch, one on top of another, each as high as it has events, with its sign if a column is one event and
    /// there is room.
    fn draw_parts(&self, out: &mut Markup<'_>, stretch: Stretch, tally: &Tally, y: u32) -> Done
        requires { y ≤ 19000 }
        ensures { OnOk result (out.new ≡ out.old) }
    {
        let events = self.head(stretch.from).events;
        let (x, width) = (self.frame.x(stretch.from), self.width(stretch));
        let middle = at(self.middle(stretch), y + 13);
        let is_signed = self.sheet.is_by_event() && width >= 12;
        let mut below: u64 = 0;
        for letter in STACK.iter() {
            let count = count_of(tally, events, *letter);
            if count > 0 {
                let low = part_of(18, below, events);
                below = plus(below, count);
                let high = part_of(18, below, events);
                let size = at(width, high.saturating_sub(low));
                out.filled(*letter, at(x, y + 18 - high), size)?;
                if is_signed {
                    out.text("m b c l", middle, letter_sign(*letter))?;
                }
            }
        }
        Ok(())
    }

    /// What a drive does, if it is not idle.
    fn draw_letters(&self, out: &mut Markup<'_>, stretch: Stretch, unit: u8, y: u32) -> Done
        requires { y ≤ 19000 }
        ensures { OnOk result (out.new ≡ out.old) }
    {
        let tally = self.cell(unit, stretch.from).tally;
        let events = self.head(stretch.from).events;
        if STACK
            .iter()
            .all(|letter| count_of(&tally, events, *letter) == 0)
        {
            return Ok(());
        }
        self.begin_span(out, stretch, "")?;
        put_letters(out, &tally, events, self.sheet.is_by_event())?;
        out.put(End(Element::Title))?;
        self.draw_parts(out, stretch, &tally, y)?;
        out.put(End(Element::Group))
    }

    /// The bar of a lead in the row of a request, except the idle one.
    fn draw_lead(&self, out: &mut Markup<'_>, stretch: Stretch, unit: u8, y: u32) -> Done
        requires { y ≤ 19000 }
        ensures { OnOk result (out.new ≡ out.old) }
    {
        let Some(column) = self.sheet.columns().get(stretch.from) else {
            return Ok(());
        };
        let letter = letter_at(column, unit);
        if matches!(letter, Letter::Idle) {
            return Ok(());
        }
        let corner = at(self.frame.x(stretch.from), y + 1);
        out.filled(letter, corner, at(self.width(stretch), 10))
    }

    /// The bar of a stretch.
    fn draw_bar(&self, out: &mut Markup<'_>, stretch: Stretch, track: Track, y: u32) -> Done
        requires { y ≤ 19000 }
        ensures { OnOk result (out.new ≡ out.old) }
    {
        match track {
            Track::Script => Ok(()),
            Track::Held(adapter) => self.draw_held(out, stretch, adapter, y),
            Track::Positioning(adapter) => self.draw_positioning(out, stretch, adapter, y),
            Track::Waiting(unit, most) => self.draw_wait(out, stretch, unit, most, y),
            Track::Offline(unit) if self.cell(unit, stretch.from).offline => {
                self.draw_condition(out, stretch, false, y)
            }
            Track::Locked(unit) if self.cell(unit, stretch.from).locked => {
                self.draw_condition(out, stretch, true, y)
            }
            Track::Offline(_) | Track::Locked(_) => Ok(()),
            Track::Letters(unit) => self.draw_letters(out, stretch, unit, y),
            Track::Lead(unit) => self.draw_lead(out, stretch, unit, y),
        }
    }

    /// The bars of a track, over columns from one up to another.
    pub fn draw_bars(
        &self,
        out: &mut Markup<'_>,
        track: Track,
        from: usize,
        to: usize,
        y: u32,
    ) -> Done
        requires { y ≤ 19000 }
        ensures { OnOk result (out.new ≡ out.old) }
    {
        let mut from = from;
        'columns: while from < to {
            let stretch = next_stretch(self, track, from, to);
            self.draw_bar(out, stretch, track, y)?;
            from = stretch.to;
        }
        Ok(())
    }

    /// The bars of a track, over all columns.
    pub fn draw_all_bars(&self, out: &mut Markup<'_>, track: Track, y: u32) -> Done
        requires { y ≤ 19000 }
        ensures { OnOk result (out.new ≡ out.old) }
    {
        self.draw_bars(out, track, 0, self.sheet.columns().len(), y)
    }
}
