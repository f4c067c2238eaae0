//! What happened at a drive: the marks, and the signals below them. A mark that is no trouble is drawn if columns have room for it.

ghost use Rattle.std.specs.Prelude.{◌≡◌, ◌≤◌, ◌||◌, true, length, OnOk};
ghost use Rattle.run_plan.specs.Notes.{is_spoken_of, line_of, lines_of, lines_shown};
ghost use Rattle.picture_svg.specs.Nesting.{is_innermost, told};
ghost use Rattle.picture_svg.specs.declared.pieces.Element.TheVariants.{Title};

use crate::markup::{Done, Markup};
use crate::pieces::Piece::{End, Feed};
use crate::pieces::{Element, Shape, at};
use crate::scene::{Scene, Stretch};
use drive_pictures::Mark::*;
use drive_pictures::{Cell, Mark, mark_sign};
use run_picture::Note;
use std::alloc::AllocError;

/// How a mark or a signal is drawn.
#[derive(Clone, Copy)]
enum Look {
    /// Not at all.
    Nothing,
    /// As a sign, in the colour of trouble or not.
    Trouble,
    Plain,
    /// As a sign with the hundreds of an offset.
    Offset,
    /// As the number of a try.
    Try,
    /// As a shape of a class, so far to the left and below.
    Drawn(&'static str, u8, u8, Shape),
}

/// How a mark or a signal is drawn.
fn look_of(mark: Mark, roomy: bool) -> Look {
    match mark {
        Burst | MarkedSector | Fault | Hard | TriedOffline | Stopped => Look::Trouble,
        OffsetPlus | OffsetMinus => Look::Offset,
        TryFailed => Look::Try,
        Blank | Asked => Look::Nothing,
        SectorMoved if roomy => Look::Drawn("d", 0, 6, Shape::Dot),
        Answered if roomy => Look::Drawn("k", 3, 6, Shape::Tick),
        InterruptTaken if roomy => Look::Drawn("d", 0, 12, Shape::Diamond),
        AttentionTaken if roomy => Look::Drawn("d", 0, 13, Shape::Triangle),
        AttentionUp if roomy => Look::Drawn("u", 0, 13, Shape::Triangle),
        SectorMoved | Answered | InterruptTaken | AttentionTaken | AttentionUp => Look::Nothing,
        _ => Look::Plain,
    }
}

/// A mark or a signal of a column.
fn draw_look(out: &mut Markup<'_>, look: Look, cell: &Cell, wide: bool, x: u32, y: u32) -> Done
    requires across { x ≤ 2000 }
    requires down { y ≤ 19000 }
    ensures { OnOk result (out.new ≡ out.old) }
{
    let (sign, above) = (mark_sign(cell.mark), at(x, y + 9));
    match look {
        Look::Nothing => Ok(()),
        Look::Trouble => out.text("m c x", above, sign),
        Look::Offset if wide => out.text_with("m b", above, sign, u64::from(cell.code)),
        Look::Offset | Look::Plain => out.text("m b c", above, sign),
        Look::Try if !wide => out.text("m c x", at(x, y + 20), mark_sign(TryFailed)),
        Look::Try => out.text_with("m c x", at(x, y + 20), "", u64::from(cell.tried)),
        Look::Drawn(class, left, down, shape) => {
            let from = at(x.saturating_sub(u32::from(left)), y + u32::from(down));
            out.shape(shape, class, from, from)
        }
    }
}

/// Whether something is drawn for a column.
fn has_look(cell: &Cell, roomy: bool) -> bool {
    !matches!(look_of(cell.mark, roomy), Look::Nothing)
        || !matches!(look_of(cell.signal, roomy), Look::Nothing)
}

/// How many of the lines, from the first on, are of a column or of one before it.
fn count_to(notes: &[Note<'_>], column: usize) -> usize
    ensures { result ≤ length notes.now }
{
    match notes.iter().position(|note| column < note.column) {
        Some(count) => count,
        None => notes.len(),
    }
}

/// Whether some of the lines speak of a unit.
fn speaks_of(notes: &[Note<'_>], unit: u8) -> bool
    ensures { result ≡ is_spoken_of unit notes.now }
{
    notes.iter().any(|note| note.unit == unit)
}

/// Another line begins, unless it is the first.
fn put_feed(out: &mut Markup<'_>, first: bool) -> Done
    ensures { OnOk result (out.new ≡ out.old) }
{
    if first { Ok(()) } else { out.put(Feed) }
}

/// Whether a column has a tooltip: it tells lines, or shows marks.
fn has_tip(tells: bool, shows: bool) -> bool
    ensures { result ≡ (tells || shows) }
{
    tells || shows
}

/// A line, if it speaks of the unit, below another one or as the first. The result is whether the next one is the first.
fn tell_note<'a>(
    out: &mut Markup<'a>,
    first: bool,
    note: &Note<'a>,
    unit: u8,
) -> Result<bool, AllocError>
    requires { is_innermost Title out.old.within ≡ true }
    ensures { OnOk result (out.new ≡ told (line_of unit note.now) out.old) }
{
    if note.unit == unit {
        put_feed(out, first)?;
        out.told(note.text)?;
        Ok(false)
    } else {
        Ok(first)
    }
}

/// The lines that speak of a unit, one below another.
fn tell<'a>(out: &mut Markup<'a>, notes: &[Note<'a>], unit: u8) -> Done
    requires { is_innermost Title out.old.within ≡ true }
    ensures { OnOk result (out.new ≡ told (lines_of unit notes.now) out.old) }
{
    let mut first = true;
    for note in notes.iter() {
        first = tell_note(out, first, note, unit)?;
    }
    Ok(())
}

impl<'s, 'a> Scene<'s, 'a> {
    /// The marks of a column, and the area over which its tooltip is shown.
    fn draw_looks(
        &self,
        out: &mut Markup<'_>,
        cell: &Cell,
        column: usize,
        roomy: bool,
        y: u32,
    ) -> Done
        requires { y ≤ 19000 }
        ensures { OnOk result (out.new ≡ out.old) }
    {
        let (x, width) = (self.frame.x(column), self.frame.column.min(40));
        draw_look(out, look_of(cell.mark, roomy), cell, width >= 14, x, y)?;
        draw_look(out, look_of(cell.signal, roomy), cell, width >= 14, x, y)?;
        let corner = at(x.saturating_sub(width / 2), y);
        out.shape(Shape::Rect, "o", corner, at(width, 22))
    }

    /// The marks of an event, with the lines that speak of the drive.
    fn draw_event_marks(
        &self,
        out: &mut Markup<'a>,
        unit: u8,
        column: usize,
        notes: &[Note<'a>],
        y: u32,
    ) -> Done
        requires { y ≤ 19000 }
        ensures { OnOk result (out.new ≡ told (lines_of unit notes.now) out.old) }
    {
        let roomy = self.frame.column >= 6;
        let cell = self.cell(unit, column);
        let tells = speaks_of(notes, unit);
        let shows = has_look(&cell, roomy);
        if has_tip(tells, shows) {
            out.begin_tip()?;
            tell(out, notes, unit)?;
            out.put(End(Element::Title))?;
            self.draw_looks(out, &cell, column, roomy, y)?;
            out.put(End(Element::Group))
        } else {
            Ok(())
        }
    }

    /// The marks of each event. The last has all lines that are left.
    fn draw_by_event(&self, out: &mut Markup<'a>, unit: u8, y: u32) -> Done
        requires { y ≤ 19000 }
        ensures { OnOk result (out.new ≡ told (lines_of unit self.now.sheet.now.notes.now) out.old) }
    {
        let notes = self.sheet.notes;
        let last = self.sheet.columns().len().saturating_sub(1);
        let mut from: usize = 0;
        for column in 0..last {
            let to = from + count_to(&notes[from..], column);
            self.draw_event_marks(out, unit, column, &notes[from..to], y)?;
            from = to;
        }
        self.draw_event_marks(out, unit, last, &notes[from..], y)
    }

    /// The marks of each column of several events that has some.
    fn draw_by_column(&self, out: &mut Markup<'_>, unit: u8, y: u32) -> Done
        requires { y ≤ 19000 }
        ensures { OnOk result (out.new ≡ out.old) }
    {
        for from in 0..self.sheet.columns().len() {
            let cell = self.cell(unit, from);
            if has_look(&cell, false) {
                let to = from.saturating_add(1);
                self.begin_span(out, Stretch { from, to }, "")?;
                out.put(End(Element::Title))?;
                self.draw_looks(out, &cell, from, false, y)?;
                out.put(End(Element::Group))?;
            }
        }
        Ok(())
    }

    /// The marks of a drive.
    pub fn draw_marks(&self, out: &mut Markup<'a>, unit: u8, y: u32) -> Done
        requires { y ≤ 19000 }
        ensures { OnOk result (out.new ≡ told (lines_shown self.now.sheet.now unit) out.old) }
    {
        if self.sheet.is_by_event() {
            self.draw_by_event(out, unit, y)
        } else {
            self.draw_by_column(out, unit, y)
        }
    }
}
