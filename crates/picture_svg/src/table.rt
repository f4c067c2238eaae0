//! The requests, in the order asked.

ghost use Rattle.std.specs.Prelude.{◌≡◌, ◌≤◌, fold, length, OnOk};
ghost use Rattle.picture_svg.specs.Nesting.{with_row};

use crate::markup::{Done, Markup};
use crate::pieces::Piece::{End, Number, Row, Start, Word};
use crate::pieces::{Element, Opening, Shape, at};
use crate::scene::{LABEL, LEFT, Scene};
use crate::stretches::Track;
use drive_pictures::{Outcome, Request, outcome_word};

/// Puts the cylinder of a request, if the request joined.
fn put_cylinder(out: &mut Markup<'_>, cylinder: Option<u32>) -> Done
    ensures { OnOk result (out.new ≡ out.old) }
{
    match cylinder {
        Some(cylinder) => out.put_all(&[Word(" c"), Number(u64::from(cylinder))]),
        None => Ok(()),
    }
}

/// What a request asks.
fn draw_asking(out: &mut Markup<'_>, request: &Request, y: u32) -> Done
    requires { y ≤ 19000 }
    ensures { OnOk result (out.new ≡ out.old) }
{
    let verb = if request.write { " write u" } else { " read u" };
    out.put(Start(Opening::Text, "m e", at(LABEL, y)))?;
    out.put_all(&[Number(u64::from(request.id)), Word(verb)])?;
    out.put(Number(u64::from(request.unit)))?;
    put_cylinder(out, request.cylinder)?;
    out.put(End(Element::Text))
}

impl<'s, 'a> Scene<'s, 'a> {
    /// The names of the table's columns.
    fn draw_names(&self, out: &mut Markup<'_>, y: u32) -> Done
        requires { y ≤ 19000 }
        ensures { OnOk result (out.new ≡ out.old) }
    {
        let beside = self.frame.beside();
        let name = if self.shown.few {
            "requests, as asked"
        } else {
            "those with trouble first"
        };
        out.text("b e", at(LABEL, y), name)?;
        out.text("q", at(beside, y), "answer")?;
        out.text("m q e", at(beside + 84, y), "done")?;
        out.text("m q e", at(beside + 124, y), "queued")?;
        out.text("m q e", at(beside + 164, y), "on way")?;
        out.text("m q e", at(beside + 200, y), "ready")?;
        out.text("m q e", at(beside + 234, y), "trans")?;
        out.text("m q e", at(beside + 262, y), "turn")
    }

    /// The time that a request waits, and the time that it is in hand, with its end if that is one of the events that are shown.
    fn draw_times(&self, out: &mut Markup<'_>, request: &Request, y: u32) -> Done
        requires { y ≤ 19000 }
        ensures { OnOk result (out.new ≡ out.old) }
    {
        let (asked, ended) = (self.at(request.asked), request.ended.unwrap_or(0));
        let in_hand = request.in_hand.unwrap_or(0);
        let width = self.at(in_hand).saturating_sub(asked);
        if width > 0 {
            let class = if request.write { "w y" } else { "w a" };
            out.shape(Shape::Rect, class, at(asked, y + 4), at(width, 4))?;
        }
        let (from, to) = (self.sheet.column_of(in_hand), self.sheet.column_of(ended));
        self.draw_bars(out, Track::Lead(request.unit), from, to, y)?;
        if ended < self.sheet.window.last {
            let from = at(self.at(ended), y);
            out.shape(Shape::Bar, "k", from, from)?;
        }
        Ok(())
    }

    /// The answer of a request, and its numbers.
    fn draw_numbers(&self, out: &mut Markup<'_>, request: &Request, y: u32) -> Done
        requires { y ≤ 19000 }
        ensures { OnOk result (out.new ≡ out.old) }
    {
        let (beside, times) = (self.frame.beside(), request.times);
        let is_ok = matches!(request.outcome, Outcome::Ok);
        let class = if is_ok { "m" } else { "m x" };
        let is_bold = request.is_out_of_order();
        let turn = if is_bold { "m e b" } else { "m e" };
        out.text(class, at(beside, y), outcome_word(request.outcome))?;
        out.text_with("m e", at(beside + 84, y), "", request.done)?;
        out.text_with("m e", at(beside + 124, y), "", request.queued())?;
        out.text_with("m e", at(beside + 164, y), "", times.way)?;
        out.text_with("m e", at(beside + 200, y), "", times.ready)?;
        out.text_with("m e", at(beside + 234, y), "", times.trans)?;
        out.text_with(turn, at(beside + 262, y), "", request.turn)
    }

    /// A request.
    fn draw_request(&self, out: &mut Markup<'_>, request: &Request, y: u32) -> Done
        requires { y ≤ 18900 }
        ensures { OnOk result (out.new ≡ with_row out.old request.now) }
    {
        let (from, to) = (at(LEFT, y + 12), at(self.frame.right(), y + 12));
        out.begin_tip()?;
        out.put_all(&[Row(*request), End(Element::Title)])?;
        out.shape(Shape::Across, "g", from, to)?;
        draw_asking(out, request, y + 9)?;
        self.draw_times(out, request, y)?;
        self.draw_numbers(out, request, y + 9)?;
        out.put(End(Element::Group))
    }

    /// The table of the requests that are listed, each below the one before it, and how many there are if not all are listed.
    pub fn draw_table(&self, out: &mut Markup<'_>, y: u32) -> Done
        requires y { y ≤ 15000 }
        requires few { length self.now.shown.now.listed.items ≤ 256 }
        ensures { OnOk result (out.new ≡ fold with_row out.old self.now.shown.now.listed.items) }
    {
        self.draw_names(out, y + 9)?;
        let (mut y, left_out) = (y, self.shown.left_out());
        for request in self.shown.listed.iter() {
            y += 13;
            self.draw_request(out, request, y)?;
        }
        if left_out > 0 {
            out.text_with("q e", at(LABEL, y + 22), "requests not shown: ", left_out)?;
        }
        Ok(())
    }
}
