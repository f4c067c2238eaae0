//! The whole picture.

ghost use Rattle.std.specs.Prelude.{◌≡◌, ◌≤◌, ◌+◌, ◌/◌, length, IfOk, OnOk};
ghost use Rattle.picture_svg.specs.Nesting.{captioned, told};
ghost use Rattle.picture_svg.specs.Scales.{is_other, top_of, below_of, bottom_of};
ghost use Rattle.picture_svg.specs.Pictures.{caption_of, lines_of_lane, lines_of_lanes, with_all, IsPicture};

use crate::legend::draw_legend;
use crate::markup::{Done, Markup};
use crate::pieces::Piece::{Caption, End, Start, Style};
use crate::pieces::{Element, Opening, at};
use crate::scene::{Frame, Lane, Scene, lanes_of};
use crate::tips::{front, put_sentences};
use run_plan::{Sentence, Sheet, Shown, scale_of, sentences};
use std::alloc::{AllocError, Global};

/// Where the adapters begin.
const TOP: u32 = 320;

/// How high an adapter is above its drives.
const ADAPTER: u32 = 50;

/// How many bytes of the caption are drawn.
const CAPTION: usize = 120;

/// Where the next drive stands, and the adapter of the drive before it, if there is one.
#[derive(Clone, Copy)]
struct Place {
    adapter: Option<u8>,
    y: u32,
}

impl Place {
    /// Whether a drive stands on another adapter than the drive before it.
    fn is_first(&self, lane: &Lane) -> bool
        ensures { result ≡ is_other self.now.adapter (lane.now.unit / 8) }
    {
        match self.adapter {
            Some(adapter) => adapter != lane.unit / 8,
            None => true,
        }
    }

    /// Where a drive stands: below its adapter, if it is the first one of that adapter.
    #[tactic(auto, unfolding(crate::specs::Scales::top_of))]
    fn top(&self, lane: &Lane) -> u32
        requires { self.now.y ≤ 18000 }
        ensures place { result ≡ top_of self.now lane.now }
        ensures inside { result ≤ self.now.y + 50 }
    {
        if self.is_first(lane) {
            self.y + ADAPTER
        } else {
            self.y
        }
    }

    /// Where the drive after a drive stands.
    #[tactic(auto, unfolding(crate::specs::Scales::below_of))]
    fn below(&self, lane: &Lane) -> Place
        requires { self.now.y ≤ 18000 }
        ensures place { result ≡ below_of self.now lane.now }
        ensures inside { result.y ≤ self.now.y + 401 }
    {
        let height = (96 + u32::from(lane.chart)).max(112);
        Place {
            adapter: Some(lane.unit / 8),
            y: self.top(lane) + height,
        }
    }
}

/// Where the first drive stands.
const FIRST: Place = Place {
    adapter: None,
    y: TOP,
};

/// Where the drives end.
#[tactic(auto, unfolding(crate::specs::Scales::bottom_of))]
fn bottom_of(lanes: &[Lane]) -> u32
    requires { length lanes.now ≤ 32 }
    ensures place { result ≡ bottom_of lanes.now }
    ensures inside { result ≤ 13152 }
{
    let mut place = FIRST;
    for lane in lanes.iter() {
        place = place.below(lane);
    }
    place.y
}

/// The title and the sentences of the drawing, which are not visible.
fn draw_title<'a>(out: &mut Markup<'a>, caption: &'a [u8], sentences: &[Sentence; 4]) -> Done
    ensures { OnOk result (out.new ≡ captioned caption.now out.old) }
{
    let none = at(0, 0);
    out.put_all(&[Start(Opening::Caption, "", none), Caption(caption)])?;
    out.put_all(&[End(Element::Title), Start(Opening::Desc, "", none)])?;
    put_sentences(out, sentences)?;
    out.put(End(Element::Desc))
}

/// What stands above the columns.
fn draw_head<'a>(out: &mut Markup<'a>, caption: &'a [u8], sentences: &[Sentence; 4]) -> Done
    ensures { OnOk result (out.new ≡ captioned caption.now out.old) }
{
    let [first, second, third, fourth] = *sentences;
    out.put_all(&[Start(Opening::Text, "h", at(16, 28)), Caption(caption)])?;
    out.put(End(Element::Text))?;
    out.put(Start(Opening::Text, "", at(16, 48)))?;
    put_sentences(out, &[first, second])?;
    out.put_all(&[End(Element::Text), Start(Opening::Text, "", at(16, 64))])?;
    put_sentences(out, &[third, fourth])?;
    out.put(End(Element::Text))
}

impl<'s, 'a> Scene<'s, 'a> {
    /// A drive, below its adapter if it is the first one of that adapter. The result is where the next drive stands.
    fn draw_drive(
        &self,
        out: &mut Markup<'a>,
        place: Place,
        lane: &Lane,
    ) -> Result<Place, AllocError>
        requires { place.y ≤ 18000 }
        ensures told { OnOk result (out.new ≡ told (lines_of_lane self.now.sheet.now lane.now) out.old) }
        ensures below { IfOk result (λ next. next ≡ below_of place lane.now) }
        ensures inside { IfOk result (λ next. next.y ≤ place.y + 401) }
    {
        if place.is_first(lane) {
            self.draw_adapter(out, lane.unit / 8, place.y)?;
        }
        self.draw_lane(out, lane, place.top(lane))?;
        Ok(place.below(lane))
    }

    /// The drives.
    fn draw_drives(&self, out: &mut Markup<'a>) -> Done
        requires { length self.now.lanes.now ≤ 32 }
        ensures { OnOk result (out.new ≡ told (lines_of_lanes self.now.sheet.now self.now.lanes.now) out.old) }
    {
        let mut place = FIRST;
        for lane in self.lanes.iter() {
            place = self.draw_drive(out, place, lane)?;
        }
        Ok(())
    }

    /// The drawing.
    fn draw(&self, out: &mut Markup<'a>) -> Done
        requires lanes { length self.now.lanes.now ≤ 32 }
        requires few { length self.now.shown.now.listed.items ≤ 256 }
        ensures { OnOk result (out.new ≡ with_all self.now.sheet.now (lines_of_lanes self.now.sheet.now self.now.lanes.now) self.now.shown.now.listed.items out.old) }
    {
        let sentences = sentences(self.sheet);
        let caption = front(self.sheet.title(), CAPTION);
        let bottom = bottom_of(self.lanes);
        let height = bottom + 74 + 13 * (self.shown.listed.len() as u32);
        let size = at(self.frame.beside() + 274, height);
        out.put(Start(Opening::Svg, "", size))?;
        draw_title(out, caption, &sentences)?;
        out.put(Style)?;
        draw_legend(out)?;
        draw_head(out, caption, &sentences)?;
        self.draw_script(out, height)?;
        self.draw_drives(out)?;
        self.draw_events(out, bottom + 8)?;
        self.draw_table(out, bottom + 36)?;
        out.put(End(Element::Svg))
    }
}

/// The picture of a run as SVG.
pub fn svg(alloc: Global, sheet: &Sheet<'_>) -> Result<Vec<u8>, AllocError>
    ensures { IfOk result (λ text. IsPicture sheet.now text.items) }
{
    let shown = Shown::new(alloc, sheet)?;
    let units = sheet.units(alloc)?;
    let lanes = lanes_of(alloc, sheet)?;
    let scene = Scene {
        sheet,
        frame: Frame::new(sheet.columns().len()),
        lanes: lanes.as_slice(),
        scale: scale_of(sheet, units.as_slice()),
        shown: &shown,
        alloc,
    };
    let mut out = Markup::new(alloc);
    scene.draw(&mut out)?;
    out.finish(alloc)
}
