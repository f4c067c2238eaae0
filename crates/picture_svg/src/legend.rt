//! What the letters and the signs say.

ghost use Rattle.std.specs.Prelude.{◌≡◌, ◌≤◌, ◌<◌, fold, OnOk};
ghost use Rattle.picture_svg.specs.Legend.{explained};
ghost use Rattle.picture_svg.specs.Nesting.{with_letter};

use crate::markup::{Done, Markup};
use crate::pieces::Shape::{Across, Diamond, Dot, Rect, Tick, Triangle};
use crate::pieces::{Shape, at};
use Sample::{Bar, Line, Plain, Sign, Trouble};
use drive_pictures::Letter::{
    Arrived, Moved, Moves, Offsets, Ready, Recalibrates, Replaces, Retries, Seeks, Turns,
};
use drive_pictures::{Letter, letter_sign};

/// The letters, in two rows.
const UPPER: [Letter; 5] = [Seeks, Turns, Recalibrates, Offsets, Arrived];

const LOWER: [Letter; 5] = [Ready, Moves, Retries, Replaces, Moved];

/// What stands beside words of the legend: a sign of trouble or another sign, a shape so far above the line of the words, a line or
/// a bar.
#[derive(Clone, Copy)]
enum Sample {
    Trouble(&'static str),
    Plain(&'static str),
    Sign(&'static str, Shape, u8),
    Line(&'static str),
    Bar(&'static str),
}

/// Words of the legend: their sample, where it stands, how far to the right of there the words begin, and the words.
#[derive(Clone, Copy)]
struct Known(Sample, u16, u8, u8, &'static str);

/// The signs, the lines of the arms and of the conditions, and the bars of the requests and of the adapters.
static KNOWN: [Known; 34] = [
    Known(Sign("u", Triangle, 7), 19, 122, 9, "attention up"),
    Known(Sign("d", Triangle, 7), 113, 122, 9, "taken"),
    Known(Sign("d", Diamond, 8), 165, 122, 9, "interrupt taken"),
    Known(Sign("d", Dot, 4), 277, 122, 7, "sector"),
    Known(Sign("k", Tick, 4), 334, 122, 10, "ok"),
    Known(Trouble("B"), 370, 122, 10, "burst, repaired"),
    Known(Trouble("E"), 484, 122, 10, "not repairable"),
    Known(Trouble("F"), 592, 122, 10, "fault"),
    Known(Trouble("M"), 646, 122, 10, "marked"),
    Known(Trouble("x"), 706, 122, 10, "offline"),
    Known(Trouble("X"), 766, 122, 10, "stopped"),
    Known(Trouble("7"), 832, 122, 10, "try 7 failed"),
    Known(Plain("n"), 16, 139, 10, "noise armed"),
    Known(Plain("f"), 108, 139, 10, "fault armed"),
    Known(Plain("@"), 200, 139, 10, "pack turned"),
    Known(Plain("d"), 292, 139, 10, "offline"),
    Known(Plain("u"), 354, 139, 10, "online"),
    Known(Plain("l"), 416, 139, 10, "locked"),
    Known(Plain("k"), 478, 139, 10, "unlocked"),
    Known(Plain("P"), 552, 139, 10, "pack acknowledged"),
    Known(Plain("-4"), 682, 139, 16, "offset -400"),
    Known(Trouble("t"), 650, 156, 10, "a try failed (little room)"),
    Known(Plain("3"), 814, 156, 10, "turn: out of the order asked"),
    Known(Sign("u", Dot, 4), 782, 139, 8, "asked for, at its cylinder"),
    Known(Line("p"), 16, 156, 29, "the arm"),
    Known(Line("z"), 104, 156, 29, "the order of asking"),
    Known(Line("w"), 264, 156, 29, "a request waits"),
    Known(Line("f"), 398, 156, 29, "offline"),
    Known(Line("j"), 480, 156, 29, "locked"),
    Known(Line("k"), 562, 156, 29, "in hand"),
    Known(Bar("w a"), 16, 173, 29, "a read waits"),
    Known(Bar("w y"), 122, 173, 29, "a write waits"),
    Known(Bar("v"), 232, 173, 29, "asked for"),
    Known(Bar("n"), 326, 173, 29, "drives positioning"),
];

/// Letters, side by side, each with its pattern, its sign and its words.
fn draw_letters(out: &mut Markup<'_>, letters: &[Letter], y: u32) -> Done
    requires { y ≤ 2000 }
    ensures { OnOk result (out.new ≡ fold with_letter out.old letters.now) }
{
    let mut x: u32 = 16;
    for letter in letters.iter() {
        let left = x.min(2_000);
        out.filled(*letter, at(left, y), at(24, 12))?;
        out.text("m b", at(left + 29, y + 10), letter_sign(*letter))?;
        out.meaning(at(left + 40, y + 10), *letter)?;
        x = left + 170;
    }
    Ok(())
}

/// Words of the legend, beside their sample.
fn draw_known(out: &mut Markup<'_>, known: &Known) -> Done
    ensures { OnOk result (out.new ≡ out.old) }
{
    let Known(sample, x, y, across, words) = *known;
    let (x, y) = (u32::from(x).min(2_000), u32::from(y));
    draw_sample(out, sample, x, y)?;
    out.text("", at(x + u32::from(across), y), words)
}

/// A sample of the legend, on the line of its words.
fn draw_sample(out: &mut Markup<'_>, sample: Sample, x: u32, y: u32) -> Done
    requires across { x ≤ 2000 }
    requires down { y ≤ 255 }
    ensures { OnOk result (out.new ≡ out.old) }
{
    match sample {
        Trouble(sign) => out.text("m x", at(x, y), sign),
        Plain(sign) => out.text("m b", at(x, y), sign),
        Sign(class, shape, rise) => {
            let from = at(x, y.saturating_sub(u32::from(rise)));
            out.shape(shape, class, from, from)
        }
        Line(class) => {
            let y = y.saturating_sub(4);
            out.shape(Across, class, at(x, y), at(x + 24, y))
        }
        Bar(class) => out.shape(Rect, class, at(x, y.saturating_sub(10)), at(24, 10)),
    }
}

/// The legend.
pub fn draw_legend(out: &mut Markup<'_>) -> Done
    ensures { OnOk result (out.new ≡ fold with_letter out.old explained) }
{
    let unit = "numbers of the table are events; done are sectors";
    draw_letters(out, &UPPER, 78)?;
    draw_letters(out, &LOWER, 95)?;
    for known in KNOWN.iter() {
        draw_known(out, known)?;
    }
    out.text("q", at(470, 173), unit)
}
