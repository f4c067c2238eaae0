//! The text of the pieces of a drawing.

ghost use Rattle.std.specs.Prelude.{◌≡◌, ◌++◌, [], fold, codes, decimal, IfOk, OnOk};
ghost use Rattle.picture_svg.specs.Legend.{pattern_of};
ghost use Rattle.picture_svg.specs.Texts.{with_byte, with_words, with_slot, with_template, opening_text, shape_text, with_end, with_piece};

use crate::pieces::{Element, Opening, Piece, Point, Shape};
use crate::style::STYLE;
use drive_pictures::{Letter, letter_word, outcome_word};
use itoa::Buffer;
use std::alloc::{AllocError, Global};

/// The name of a letter's pattern.
fn pattern_of(letter: Letter) -> &'static str
    ensures { result.now ≡ pattern_of letter }
{
    match letter {
        Letter::Idle => ".",
        Letter::Seeks => "S",
        Letter::Turns => "s",
        Letter::Recalibrates => "C",
        Letter::Offsets => "O",
        Letter::Arrived => "a",
        Letter::Ready => "w",
        Letter::Moves => "m",
        Letter::Retries => "T",
        Letter::Replaces => "R",
        Letter::Moved => "i",
    }
}

/// Puts a text as it is.
fn put(out: &mut Vec<u8>, text: &str) -> Result<(), AllocError>
    ensures { OnOk result (out.new.items ≡ out.old.items ++ text.now) }
{
    out.extend_from_slice(text.as_bytes())?;
    Ok(())
}

/// Puts a number.
fn put_number(out: &mut Vec<u8>, number: u64) -> Result<(), AllocError>
    ensures { OnOk result (out.new.items ≡ out.old.items ++ decimal number) }
{
    let mut buffer = Buffer::new();
    put(out, buffer.format(number))
}

/// Puts a byte with the signs of a text of elements written out; one that is not printing is a question mark.
fn put_escaped(out: &mut Vec<u8>, byte: u8) -> Result<(), AllocError>
    ensures { OnOk result (out.new.items ≡ with_byte out.old.items byte) }
{
    match byte {
        b'&' => put(out, "&amp;"),
        b'<' => put(out, "&lt;"),
        b'>' => put(out, "&gt;"),
        b' '..=b'~' => {
            out.push(byte)?;
            Ok(())
        }
        _ => put(out, "?"),
    }
}

/// Puts bytes, so written.
#[tactic(auto, unfolding(crate::specs::Texts::with_words))]
fn put_words(out: &mut Vec<u8>, bytes: &[u8]) -> Result<(), AllocError>
    ensures { OnOk result (out.new.items ≡ with_words bytes.now out.old.items) }
{
    for byte in bytes.iter() {
        put_escaped(out, *byte)?;
    }
    Ok(())
}

/// How an element starts, as a template: `C` stands for its class, and `X` and `Y` for its point.
#[tactic(auto, unfolding(crate::specs::Texts::opening_text))]
fn opening_text(opening: Opening) -> &'static str
    ensures { result.now ≡ opening_text opening }
{
    match opening {
        Opening::Svg => {
            "<svg xmlns=\"http://www.w3.org/2000/svg\" width=\"X\" height=\"Y\" viewBox=\"0 0 X Y\" role=\"graphics-document document\" aria-labelledby=\"t d\">\n"
        }
        Opening::Group => "<g>",
        Opening::Title => "<title>",
        Opening::Caption => "<title id=\"t\">",
        Opening::Desc => "<desc id=\"d\">",
        Opening::Text => "<text class=\"C\" x=\"X\" y=\"Y\">",
        Opening::Upwards => "<text class=\"C\" transform=\"translate(X Y)rotate(-90)\">",
        Opening::Line => "<polyline class=\"C\" points=\"X,Y",
    }
}

/// An element that holds nothing, as a template: besides, `R` and `D` stand for its other point, or its width and height.
#[tactic(auto, unfolding(crate::specs::Texts::shape_text))]
fn shape_text(shape: Shape) -> &'static str
    ensures { result.now ≡ shape_text shape }
{
    match shape {
        Shape::Rect => "<rect class=\"C\" x=\"X\" y=\"Y\" width=\"R\" height=\"D\"/>\n",
        Shape::Dot => "<circle class=\"C\" cx=\"X\" cy=\"Y\" r=\"2\"/>\n",
        Shape::Across => "<path class=\"C\" d=\"MX YHR\"/>\n",
        Shape::TwoAcross => "<path class=\"C\" d=\"MX YHRMX DHR\"/>\n",
        Shape::Down => "<path class=\"C\" d=\"MX YVD\"/>\n",
        Shape::Slope => "<path class=\"C\" d=\"MX YLR D\"/>\n",
        Shape::Bracket => "<path class=\"C\" d=\"MX Yv-4hR\"/>\n",
        Shape::Bar => "<path class=\"C\" d=\"MX Yv12\"/>\n",
        Shape::Tick => "<path class=\"C\" d=\"MX Yl2 3l4 -6\"/>\n",
        Shape::Diamond => "<path class=\"C\" d=\"MX Yl-3 4l3 4l3 -4z\"/>\n",
        Shape::Triangle => "<path class=\"C\" d=\"MX Yl-3 6h6z\"/>\n",
    }
}

/// Puts a byte of a template, or what it stands for.
fn put_slot(
    out: &mut Vec<u8>,
    byte: u8,
    class: &str,
    from: Point,
    to: Point,
) -> Result<(), AllocError>
    ensures { OnOk result (out.new.items ≡ with_slot class.now from to out.old.items byte) }
{
    match byte {
        b'C' => put(out, class),
        b'X' => put_number(out, u64::from(from.x)),
        b'Y' => put_number(out, u64::from(from.y)),
        b'R' => put_number(out, u64::from(to.x)),
        b'D' => put_number(out, u64::from(to.y)),
        _ => {
            out.push(byte)?;
            Ok(())
        }
    }
}

/// Puts what a template stands for.
#[tactic(auto, unfolding(crate::specs::Texts::with_template))]
fn put_template(
    out: &mut Vec<u8>,
    template: &str,
    class: &str,
    from: Point,
    to: Point,
) -> Result<(), AllocError>
    ensures { OnOk result (out.new.items ≡ with_template template.now class.now from to out.old.items) }
{
    for byte in template.as_bytes().iter() {
        put_slot(out, *byte, class, from, to)?;
    }
    Ok(())
}

/// Puts the end of an element.
#[tactic(auto, unfolding(crate::specs::Texts::with_end))]
fn put_end(out: &mut Vec<u8>, element: Element) -> Result<(), AllocError>
    ensures { OnOk result (out.new.items ≡ with_end element out.old.items) }
{
    match element {
        Element::Svg => put(out, "</svg>\n"),
        Element::Group => put(out, "</g>\n"),
        Element::Title => put(out, "</title>\n"),
        Element::Desc => put(out, "</desc>\n"),
        Element::Text => put(out, "</text>\n"),
        Element::Line => put(out, "\"/>\n"),
    }
}

/// Puts a piece.
fn put_piece(out: &mut Vec<u8>, piece: &Piece<'_>) -> Result<(), AllocError>
    ensures { OnOk result (out.new.items ≡ with_piece out.old.items piece.now) }
{
    match *piece {
        Piece::Start(opening, class, at) => put_template(out, opening_text(opening), class, at, at),
        Piece::End(element) => put_end(out, element),
        Piece::Shape(shape, class, from, to) => {
            put_template(out, shape_text(shape), class, from, to)
        }
        Piece::Filled(letter, corner, size) => {
            let template =
                "<rect class=\"r\" x=\"X\" y=\"Y\" width=\"R\" height=\"D\" fill=\"url(#C)\"/>\n";
            put_template(out, template, pattern_of(letter), corner, size)
        }
        Piece::Corner(at) => put_template(out, " X,Y", "", at, at),
        Piece::Word(word) => put_words(out, word.as_bytes()),
        Piece::Number(number) => put_number(out, number),
        Piece::Said(bytes) => put_words(out, bytes),
        Piece::Caption(caption) => put_words(out, caption),
        Piece::Told(line) => put_words(out, line),
        Piece::Row(row) => {
            let template = "request X: asked at line Y, answered at line R: C";
            let (from, to) = (
                Point {
                    x: row.id,
                    y: row.line,
                },
                Point {
                    x: row.ended_line,
                    y: 0,
                },
            );
            put_template(out, template, outcome_word(row.outcome), from, to)
        }
        Piece::Meaning(letter) => put(out, letter_word(letter)),
        Piece::Feed => put(out, "\n"),
        Piece::Style => put(out, STYLE),
    }
}

/// The text of a drawing.
pub(crate) fn render(alloc: Global, pieces: &[Piece<'_>]) -> Result<Vec<u8>, AllocError>
    ensures { IfOk result (λ text. text.items ≡ fold with_piece [] pieces.now) }
{
    let mut out = Vec::new(alloc);
    for piece in pieces.iter() {
        put_piece(&mut out, piece)?;
    }
    Ok(out)
}
