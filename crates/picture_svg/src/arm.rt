//! The arm of a drive over the events; the requests that wait, as lines at their cylinders; and, dotted, the order in which they came.

ghost use Rattle.std.specs.Prelude.{◌≡◌, ◌≤◌, ◌+◌, true, unwrap_or, OnOk};
ghost use Rattle.picture_svg.specs.Nesting.{is_innermost};
ghost use Rattle.picture_svg.specs.Places.{is_low};
ghost use Rattle.picture_svg.specs.Scales.{event_at, level_of};
ghost use Rattle.picture_svg.specs.declared.pieces.Element.TheVariants.{Line};

use crate::markup::{Done, Markup};
use crate::pieces::Piece::{End, Start};
use crate::pieces::{Element, Opening, Point, Shape, at};
use crate::scene::{LABEL, LEFT, Lane, Scene, part_of, width_of};
use drive_pictures::Request;
use std::alloc::AllocError;

impl<'s, 'a> Scene<'s, 'a> {
    /// Where a cylinder stands.
    fn level(&self, lane: &Lane, y: u32, cylinder: u32) -> u32
        requires { y ≤ 19000 }
        ensures place { result ≡ level_of lane.now.chart self.now.scale y cylinder }
        ensures inside { result ≤ y + 255 }
    {
        let chart = u32::from(lane.chart);
        y + chart - part_of(chart, u64::from(cylinder), u64::from(self.scale))
    }

    /// The requests of a drive that joined, if few are shown.
    fn known_of(&self, unit: u8) -> Result<Vec<Request>, AllocError> {
        let mut known = Vec::new(self.alloc);
        for request in self.shown.listed.iter() {
            if self.shown.few && request.unit == unit && request.cylinder.is_some() {
                known.push(*request)?;
            }
        }
        Ok(known)
    }

    /// Where a request was asked for.
    #[tactic(auto, unfolding(crate::specs::Places::is_low))]
    fn asked_at(&self, lane: &Lane, request: &Request, y: u32) -> Point
        requires { y ≤ 19000 }
        ensures across { result.x ≡ event_at self.now request.now.asked }
        ensures down { result.y ≡ level_of lane.now.chart self.now.scale y (unwrap_or request.now.cylinder 0) }
        ensures low { is_low result ≡ true }
    {
        Point {
            x: self.at(request.asked),
            y: self.level(lane, y, request.cylinder.unwrap_or(0)),
        }
    }

    /// The order in which requests that wait came: a line from each to the one that came after it, if the later one waits.
    fn draw_order(&self, out: &mut Markup<'_>, lane: &Lane, known: &[Request], y: u32) -> Done
        requires { y ≤ 19000 }
        ensures { OnOk result (out.new ≡ out.old) }
    {
        for place in 1..known.len() {
            let (other, request) = (&known[place - 1], &known[place]);
            if request.queued() > 0 && other.asked >= self.sheet.window.first {
                let from = self.asked_at(lane, other, y);
                out.shape(Shape::Slope, "z", from, self.asked_at(lane, request, y))?;
            }
        }
        Ok(())
    }

    /// The requests that wait, each as a line at its cylinder, with a circle where it was asked for.
    fn draw_waits(&self, out: &mut Markup<'_>, lane: &Lane, known: &[Request], y: u32) -> Done
        requires { y ≤ 19000 }
        ensures { OnOk result (out.new ≡ out.old) }
    {
        for request in known.iter() {
            let from = self.asked_at(lane, request, y);
            if request.queued() > 0 {
                let hand = self.at(request.in_hand.unwrap_or(0));
                out.shape(Shape::Across, "w", from, at(hand, y))?;
            }
            if request.asked >= self.sheet.window.first {
                out.shape(Shape::Dot, "u", from, from)?;
            }
        }
        Ok(())
    }

    /// Puts the points of the arm's way: in each column the first cylinder, and the lowest, the highest and the last if it moved.
    fn put_columns(&self, out: &mut Markup<'_>, lane: &Lane, y: u32) -> Done
        requires down { y ≤ 19000 }
        requires line { is_innermost Line out.old.within ≡ true }
        ensures { OnOk result (out.new ≡ out.old) }
    {
        for column in 0..self.sheet.columns().len() {
            let x = self.frame.x(column);
            if let Some(path) = self.cell(lane.unit, column).path {
                out.corner(at(x, self.level(lane, y, path.first)))?;
                if path.lowest < path.highest {
                    out.corner(at(x, self.level(lane, y, path.lowest)))?;
                    out.corner(at(x, self.level(lane, y, path.highest)))?;
                    out.corner(at(x, self.level(lane, y, path.last)))?;
                }
            }
        }
        Ok(())
    }

    /// The way of the arm.
    fn draw_path(&self, out: &mut Markup<'_>, lane: &Lane, y: u32) -> Done
        requires { y ≤ 19000 }
        ensures { OnOk result (out.new ≡ out.old) }
    {
        let from = at(LEFT, self.level(lane, y, lane.before));
        let last = self.sheet.columns().len().saturating_sub(1);
        let end = self.level(lane, y, self.cell(lane.unit, last).cylinder);
        out.put(Start(Opening::Line, "p", from))?;
        self.put_columns(out, lane, y)?;
        out.corner(at(self.frame.right(), end))?;
        out.put(End(Element::Line))
    }

    /// The ids of the requests that were served, each where it was, in the order of their turns, as far as there is room.
    fn draw_served(&self, out: &mut Markup<'_>, lane: &Lane, served: &[Request], y: u32) -> Done
        requires { y ≤ 19000 }
        ensures { OnOk result (out.new ≡ out.old) }
    {
        let mut free: u32 = 0;
        for request in served.iter() {
            let (ended, id) = (request.ended.unwrap_or(0), u64::from(request.id));
            let x = self.at(ended);
            let is_served = request.turn > 0 && ended < self.sheet.window.last;
            if is_served && x >= free.saturating_add(width_of(id)) {
                let level = self.level(lane, y, request.cylinder.unwrap_or(0));
                out.text_with("m e", at(x, level.saturating_sub(4)), "", id)?;
                free = x + 2;
            }
        }
        Ok(())
    }

    /// The arm of a drive, between the bounds of its drawing with their cylinders.
    pub fn draw_arm(&self, out: &mut Markup<'_>, lane: &Lane, y: u32) -> Done
        requires { y ≤ 19000 }
        ensures { OnOk result (out.new ≡ out.old) }
    {
        let mut known = self.known_of(lane.unit)?;
        let lower = y + u32::from(lane.chart);
        let to = at(self.frame.right(), lower);
        out.shape(Shape::TwoAcross, "g", at(LEFT, y), to)?;
        out.text_with("q e", at(LABEL, y + 4), "cylinder ", u64::from(self.scale))?;
        out.text_with("q e", at(LABEL, lower + 3), "", 0)?;
        self.draw_order(out, lane, known.as_slice(), y)?;
        self.draw_waits(out, lane, known.as_slice(), y)?;
        self.draw_path(out, lane, y)?;
        known.sort_by_key(|request| request.turn)?;
        self.draw_served(out, lane, known.as_slice(), y)
    }
}
