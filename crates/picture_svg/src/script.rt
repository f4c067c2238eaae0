//! The script's lines above the columns, and the numbers of the events below them.

ghost use Rattle.std.specs.Prelude.{◌≡◌, ◌≤◌, ◌<◌, IfOk, OnOk};

use crate::markup::{Done, Markup};
use crate::pieces::Piece::{End, Number, Said, Start, Word};
use crate::pieces::{Element, Opening, Shape, at};
use crate::scene::{LABEL, LEFT, Scene, Stretch};
use crate::stretches::{Track, next_stretch};
use crate::tips::front;
use drive_pictures::plus;
use itoa::Buffer;
use std::alloc::AllocError;

/// Where the script's lines end.
const AXIS: u32 = 310;

/// How many bytes of a line are drawn.
const ROOM: usize = 20;

/// Puts a line's number and its text, and whether it found nothing to do: the first 20 bytes.
fn put_words<'a>(out: &mut Markup<'a>, number: u64, words: &'a [u8], idle: &'a [u8]) -> Done
    ensures { OnOk result (out.new ≡ out.old) }
{
    let mut buffer = Buffer::new();
    let room = ROOM.saturating_sub(buffer.format(number).len().saturating_add(1));
    let is_cut = words.len().saturating_add(idle.len()) > room;
    let room = if is_cut { room.saturating_sub(3) } else { room };
    let end = if is_cut { "..." } else { "" };
    let shown = front(words, room);
    let rest = front(idle, room.saturating_sub(shown.len()));
    out.put_all(&[Number(number), Word(" "), Said(shown)])?;
    out.put_all(&[Said(rest), Word(end)])
}

impl<'s, 'a> Scene<'s, 'a> {
    /// The line of the script at which a column begins, upwards, with the whole line in its tooltip.
    fn draw_words(&self, out: &mut Markup<'a>, column: usize, x: u32) -> Done
        requires { x ≤ 1024 }
        ensures { OnOk result (out.new ≡ out.old) }
    {
        let head = self.head(column);
        let number = u64::from(head.line);
        let idle: &'a [u8] = if head.idle { b" idle" } else { b"" };
        let words: &'a [u8] = match self.sheet.texts.get(column) {
            Some(words) => words,
            None => b"",
        };
        out.begin_tip()?;
        out.put_all(&[Word("line "), Number(number), Word(": "), Said(words)])?;
        out.put_all(&[Said(idle), End(Element::Title)])?;
        out.put(Start(Opening::Upwards, "m", at(x + 4, AXIS - 4)))?;
        put_words(out, number, words, idle)?;
        out.put_all(&[End(Element::Text), End(Element::Group)])
    }

    /// A line of the script over its columns, if they are several, and upwards over the first, if there is room. The result is from where there is room after it.
    fn draw_line(
        &self,
        out: &mut Markup<'a>,
        stretch: Stretch,
        height: u32,
        free: u32,
    ) -> Result<u32, AllocError>
        requires { height < 20000 }
        ensures { OnOk result (out.new ≡ out.old) }
    {
        let x = self.frame.x(stretch.from);
        if stretch.to.saturating_sub(stretch.from) > 1 {
            let to = at(self.frame.x(stretch.to).saturating_sub(2), AXIS);
            out.shape(Shape::Across, "k", at(x, AXIS), to)?;
        }
        if x < free {
            return Ok(free);
        }
        let to = at(x, height.saturating_sub(16));
        out.shape(Shape::Down, "g", at(x, AXIS + 2), to)?;
        self.draw_words(out, stretch.from, x)?;
        Ok(x + 12)
    }

    /// The script, written upwards over the first column of each of its lines, as far as there is room.
    pub fn draw_script(&self, out: &mut Markup<'a>, height: u32) -> Done
        requires { height < 20000 }
        ensures { OnOk result (out.new ≡ out.old) }
    {
        out.text("q e", at(LABEL, AXIS - 4), "line of the script")?;
        let count = self.sheet.columns().len();
        let mut free = 0;
        let mut from = 0;
        'columns: while from < count {
            let stretch = next_stretch(self, Track::Script, from, count);
            free = self.draw_line(out, stretch, height, free)?;
            from = stretch.to;
        }
        Ok(())
    }

    /// The number of each column's first event, as far as there is room.
    pub fn draw_events(&self, out: &mut Markup<'_>, y: u32) -> Done
        requires { y ≤ 19000 }
        ensures { OnOk result (out.new ≡ out.old) }
    {
        let words = "from left to right: the order of events, which is not time";
        out.text("q e", at(LABEL, y), "event")?;
        out.text("q", at(LEFT, y + 14), words)?;
        let mut free: u32 = 0;
        for column in 0..self.sheet.columns().len() {
            let x = self.frame.x(column);
            if x >= free {
                let event = plus(self.sheet.window.edge(column), 1);
                out.text_with("m q", at(x, y), "", event)?;
                free = x + 48;
            }
        }
        Ok(())
    }
}
