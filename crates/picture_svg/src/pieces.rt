//! The pieces of a drawing.

ghost use Rattle.std.specs.Prelude.{◌≡◌, ◌<◌, true};
ghost use Rattle.picture_svg.specs.Places.{is_low};

use drive_pictures::{Letter, Request};

/// An element that holds others, words, or points.
#[derive(Clone, Copy, PartialEq, Eq)]
pub enum Element {
    /// The drawing.
    Svg,
    /// A group.
    Group,
    /// A title; that of a group is the group's tooltip.
    Title,
    /// What the drawing says, in sentences.
    Desc,
    /// Words at a place.
    Text,
    /// A line through points.
    Line,
}

/// A point of the drawing, or a width and a height.
#[derive(Clone, Copy)]
pub struct Point {
    pub x: u32,
    pub y: u32,
}

/// A point, or a width and a height. Both of its numbers are below 20,000.
#[tactic(auto, unfolding(crate::specs::Places::is_low))]
pub fn at(x: u32, y: u32) -> Point
    requires across { x < 20000 }
    requires down { y < 20000 }
    ensures { is_low result ≡ true }
{
    Point { x, y }
}

/// The start of an element.
#[derive(Clone, Copy)]
pub enum Opening {
    /// The drawing, with its width and height.
    Svg,
    /// A group, and its title.
    Group,
    Title,
    /// The drawing's title, and its sentences.
    Caption,
    Desc,
    /// Words of a class, from a point on; and words that are written upwards.
    Text,
    Upwards,
    /// A line through points, from the first one on.
    Line,
}

/// An element that holds nothing.
#[derive(Clone, Copy)]
pub enum Shape {
    /// A rectangle by its upper left corner, and its width and height.
    Rect,
    /// A small circle around a point.
    Dot,
    /// A path from a point to the column of another; so in the row of each of the two points; to the row of the other; and to it.
    Across,
    TwoAcross,
    Down,
    Slope,
    /// A path from a point four up, and then a width to the right; and from a point twelve down.
    Bracket,
    Bar,
    /// Signs at a point.
    Tick,
    Diamond,
    Triangle,
}

/// A piece of a drawing. An element has a class, and stands at a point, or at two.
#[derive(Clone, Copy)]
pub enum Piece<'a> {
    /// An element starts.
    Start(Opening, &'static str, Point),
    /// An element ends.
    End(Element),
    /// An element that holds nothing.
    Shape(Shape, &'static str, Point, Point),
    /// A rectangle that is filled with the pattern of a letter.
    Filled(Letter, Point, Point),
    /// A point of a line, after its first one.
    Corner(Point),
    /// Words, a number, and bytes of the run's own.
    Word(&'static str),
    Number(u64),
    Said(&'a [u8]),
    /// The caption of the run.
    Caption(&'a [u8]),
    /// A line of the run, in a tooltip.
    Told(&'a [u8]),
    /// What is told of a request, in a tooltip: its id, its lines and its answer.
    Row(Request),
    /// The words of a letter, in the legend.
    Meaning(Letter),
    /// Another line begins.
    Feed,
    /// The classes, and the patterns of the letters.
    Style,
}
