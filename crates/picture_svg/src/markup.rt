//! A drawing that is put together piece by piece.

ghost use Rattle.std.specs.Prelude.{◌≡◌, [], ◌∷◌, true, fold, IfOk, OnOk};
ghost use Rattle.picture_svg.specs.Nesting.{blank, drawn_with, is_innermost, started, told, with_letter};
ghost use Rattle.picture_svg.specs.Places.{is_low};
ghost use Rattle.picture_svg.specs.Texts.{IsWritten};
ghost use Rattle.picture_svg.specs.declared.pieces.Element.TheVariants.{Group, Line, Title};

use crate::pieces::Opening::Text;
use crate::pieces::Piece::{Corner, End, Filled, Meaning, Number, Start, Told, Word};
use crate::pieces::{Element, Opening, Piece, Point, Shape, at};
use crate::render::render;
use drive_pictures::Letter;
use std::alloc::{AllocError, Global};
use std::marker::Model;

/// What drawing something comes to. It fails only if there is no memory.
pub type Done = Result<(), AllocError>;

/// A drawing that is put together piece by piece.
#[derive(Drop)]
pub struct Markup<'a> {
    pieces: Vec<Piece<'a>>,
}

impl<'a> Model for Markup<'a> {
    ghost use Rattle.picture_svg.specs.Nesting.{Drawn, drawn};

    ghost Value = { Drawn };

    ghost view = { λ m. drawn m.pieces.items };
}

impl<'a> Markup<'a> {
    /// A drawing of no piece.
    pub fn new(alloc: Global) -> Markup<'a>
        ensures { result ≡ blank }
    {
        let pieces = Vec::new(alloc);
        Markup { pieces }
    }

    /// Puts a piece.
    pub fn put(&mut self, piece: Piece<'a>) -> Done
        ensures { OnOk result (self.new ≡ drawn_with self.old piece.entry) }
    {
        self.pieces.push(piece)?;
        Ok(())
    }

    /// Puts some pieces.
    pub fn put_all(&mut self, pieces: &[Piece<'a>]) -> Done
        ensures { OnOk result (self.new ≡ fold drawn_with self.old pieces.now) }
    {
        self.pieces.extend_from_slice(pieces)?;
        Ok(())
    }

    /// A group and its tooltip begin.
    pub fn begin_tip(&mut self) -> Done
        ensures { OnOk result (self.new ≡ started Title (started Group self.old)) }
    {
        let none = at(0, 0);
        self.put_all(&[
            Start(Opening::Group, "", none),
            Start(Opening::Title, "", none),
        ])
    }

    /// Puts a line of the run, in a tooltip.
    pub fn told(&mut self, line: &'a [u8]) -> Done
        requires { is_innermost Title self.old.within ≡ true }
        ensures { OnOk result (self.new ≡ told (line.now ∷ []) self.old) }
    {
        self.put(Told(line))
    }

    /// Puts the words of a letter, in the legend.
    pub fn meaning(&mut self, at: Point, letter: Letter) -> Done
        requires { is_low at ≡ true }
        ensures { OnOk result (self.new ≡ with_letter self.old letter) }
    {
        self.put_all(&[Start(Text, "", at), Meaning(letter), End(Element::Text)])
    }

    /// Puts a point of a line.
    pub fn corner(&mut self, point: Point) -> Done
        requires line { is_innermost Line self.old.within ≡ true }
        requires low { is_low point ≡ true }
        ensures { OnOk result (self.new ≡ self.old) }
    {
        self.put(Corner(point))
    }

    /// Puts an element that holds nothing.
    pub fn shape(&mut self, shape: Shape, class: &'static str, from: Point, to: Point) -> Done
        requires from { is_low from ≡ true }
        requires to { is_low to ≡ true }
        ensures { OnOk result (self.new ≡ self.old) }
    {
        self.put(Piece::Shape(shape, class, from, to))
    }

    /// Puts a rectangle that is filled with the pattern of a letter.
    pub fn filled(&mut self, letter: Letter, corner: Point, size: Point) -> Done
        requires corner { is_low corner ≡ true }
        requires size { is_low size ≡ true }
        ensures { OnOk result (self.new ≡ self.old) }
    {
        self.put(Filled(letter, corner, size))
    }

    /// Puts words at a place.
    pub fn text(&mut self, class: &'static str, at: Point, word: &'static str) -> Done
        requires { is_low at ≡ true }
        ensures { OnOk result (self.new ≡ self.old) }
    {
        self.put_all(&[Start(Text, class, at), Word(word), End(Element::Text)])
    }

    /// Puts words, which may be none, and a number after them, at a place.
    pub fn text_with(
        &mut self,
        class: &'static str,
        at: Point,
        word: &'static str,
        number: u64,
    ) -> Done
        requires { is_low at ≡ true }
        ensures { OnOk result (self.new ≡ self.old) }
    {
        self.put_all(&[
            Start(Text, class, at),
            Word(word),
            Number(number),
            End(Element::Text),
        ])
    }

    /// The text of the drawing.
    pub fn finish(&self, alloc: Global) -> Result<Vec<u8>, AllocError>
        ensures { IfOk result (λ text. IsWritten self.now text.items) }
    {
        render(alloc, self.pieces.as_slice())
    }
}
