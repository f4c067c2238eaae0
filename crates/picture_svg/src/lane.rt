//! A drive over the columns, and its adapter above it.

ghost use Rattle.std.specs.Prelude.{◌≡◌, ◌≤◌, OnOk};
ghost use Rattle.run_plan.specs.Notes.{lines_shown};
ghost use Rattle.picture_svg.specs.Nesting.{started, told};
ghost use Rattle.picture_svg.specs.declared.pieces.Element.TheVariants.{Group};

use crate::holders::all_held;
use crate::markup::{Done, Markup};
use crate::pieces::Piece::{End, Number, Word};
use crate::pieces::{Element, Shape, at};
use crate::scene::{LABEL, LEFT, Lane, Scene, width_of};
use crate::stretches::Track;
use drive_pictures::{Outcome, Request, plus};
use run_plan::is_shown;

/// How many requests of a unit were answered ok, of how many, and how long one of them waited at most.
fn count_answers(requests: &[Request], unit: u8) -> (u64, u64, u64) {
    let (mut ok, mut all, mut longest): (u64, u64, u64) = (0, 0, 0);
    for request in requests.iter() {
        if request.unit == unit {
            all = plus(all, 1);
            longest = longest.max(request.queued());
            if matches!(request.outcome, Outcome::Ok) {
                ok = plus(ok, 1);
            }
        }
    }
    (ok, all, longest)
}

/// The group of a drive begins, with its tooltip and its name.
fn begin_lane(out: &mut Markup<'_>, lane: &Lane, y: u32) -> Done
    requires { y ≤ 18500 }
    ensures { OnOk result (out.new ≡ started Group out.old) }
{
    let unit = u64::from(lane.unit);
    out.begin_tip()?;
    out.put_all(&[Word("unit "), Number(unit), Word(" "), Word(lane.kind)])?;
    out.put(End(Element::Title))?;
    out.text_with("b", at(16, y + 25), "unit ", unit)?;
    out.text("q", at(66, y + 25), lane.kind)
}

impl<'s, 'a> Scene<'s, 'a> {
    /// How many requests of a unit wait in a column, at most.
    fn most_waiting(&self, unit: u8) -> u64 {
        let mut most: u64 = 0;
        for column in 0..self.sheet.columns().len() {
            most = most.max(self.cell(unit, column).waiting);
        }
        most
    }

    /// A number and what it counts, beside a drive.
    fn draw_total(&self, out: &mut Markup<'_>, y: u32, number: u64, word: &'static str) -> Done
        requires { y ≤ 19500 }
        ensures { OnOk result (out.new ≡ out.old) }
    {
        let beside = self.frame.beside();
        out.text_with("m e", at(beside + 36, y), "", number)?;
        out.text("q", at(beside + 44, y), word)
    }

    /// An adapter, above its drives.
    pub fn draw_adapter(&self, out: &mut Markup<'_>, adapter: u8, y: u32) -> Done
        requires { y ≤ 18500 }
        ensures { OnOk result (out.new ≡ out.old) }
    {
        let (from, to) = (at(LEFT, y + 17), at(self.frame.right(), y + 40));
        let held = all_held(self.sheet.columns(), self.lanes, adapter);
        out.text_with("b", at(16, y + 13), "adapter ", u64::from(adapter))?;
        out.text("q e", at(LABEL, y + 13), "held by unit")?;
        out.text("q e", at(LABEL, y + 36), "positioning")?;
        out.shape(Shape::TwoAcross, "g", from, to)?;
        self.draw_total(out, y + 13, held, "events held")?;
        self.draw_all_bars(out, Track::Held(adapter), y)?;
        self.draw_all_bars(out, Track::Positioning(adapter), y)
    }

    /// The requests of a drive: how many wait, or, if a column is one event, the time in hand of each as a bracket, and its id if there
    /// is room.
    fn draw_requests(&self, out: &mut Markup<'_>, unit: u8, y: u32) -> Done
        requires { y ≤ 19000 }
        ensures { OnOk result (out.new ≡ out.old) }
    {
        if !self.sheet.is_by_event() {
            let most = self.most_waiting(unit);
            out.text_with("q e", at(LABEL, y + 8), "asked for, most ", most)?;
            return self.draw_all_bars(out, Track::Waiting(unit, most), y);
        }
        out.text("q e", at(LABEL, y + 8), "in hand")?;
        for request in self.sheet.run.requests().iter() {
            if request.unit == unit && is_shown(self.sheet, request) {
                let x = self.at(request.in_hand.unwrap_or(0));
                let end = self.at(request.ended.unwrap_or(0));
                let (width, id) = (end.saturating_sub(x), u64::from(request.id));
                if width > 0 {
                    let size = at(width.saturating_sub(2), 0);
                    out.shape(Shape::Bracket, "k", at(x, y + 11), size)?;
                }
                if width >= width_of(id).saturating_add(4) {
                    out.text_with("m", at(x + 2, y + 5), "", id)?;
                }
            }
        }
        Ok(())
    }

    /// What a drive did in the whole run, beside it.
    fn draw_totals(&self, out: &mut Markup<'_>, unit: u8, y: u32) -> Done
        requires { y ≤ 18900 }
        ensures { OnOk result (out.new ≡ out.old) }
    {
        let (ok, all, longest) = count_answers(self.sheet.run.requests(), unit);
        let beside = self.frame.beside();
        out.text_with("m e", at(beside + 36, y), "", ok)?;
        out.text_with("q", at(beside + 44, y), "ok, of ", all)?;
        self.draw_total(out, y + 13, longest, "events queued at most")?;
        let Some(drive) = self.sheet.run.drives().get(usize::from(unit)) else {
            return Ok(());
        };
        self.draw_total(out, y + 26, drive.all.way, "events on its way")?;
        self.draw_total(out, y + 39, drive.all.ready, "ready, adapter busy")?;
        self.draw_total(out, y + 52, drive.all.trans, "transferring")?;
        self.draw_total(out, y + 65, drive.arm.travel, "cylinders moved over")?;
        self.draw_total(out, y + 78, drive.queue.as_asked, "in the order asked")
    }

    /// A drive over the columns.
    pub fn draw_lane(&self, out: &mut Markup<'a>, lane: &Lane, y: u32) -> Done
        requires { y ≤ 18500 }
        ensures { OnOk result (out.new ≡ told (lines_shown self.now.sheet.now lane.now.unit) out.old) }
    {
        let (from, to) = (at(LEFT, y + 30), at(self.frame.right(), y + 30));
        begin_lane(out, lane, y)?;
        self.draw_requests(out, lane.unit, y)?;
        out.shape(Shape::Across, "g", from, to)?;
        self.draw_all_bars(out, Track::Letters(lane.unit), y + 12)?;
        self.draw_all_bars(out, Track::Offline(lane.unit), y + 33)?;
        self.draw_all_bars(out, Track::Locked(lane.unit), y + 33)?;
        self.draw_marks(out, lane.unit, y + 35)?;
        self.draw_totals(out, lane.unit, y + 9)?;
        if lane.top > 0 {
            self.draw_arm(out, lane, y + 71)?;
        }
        out.put(End(Element::Group))
    }
}
