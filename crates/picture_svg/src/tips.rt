//! Groups with their tooltips, and sentences.

ghost use Rattle.std.specs.Prelude.{◌≡◌, take, OnOk};
ghost use Rattle.picture_svg.specs.Nesting.{started};
ghost use Rattle.picture_svg.specs.declared.pieces.Element.TheVariants.{Group, Title};

use crate::markup::{Done, Markup};
use crate::pieces::Piece::{Number, Word};
use crate::scene::{Scene, Stretch};
use run_plan::{Phrase, Sentence};

/// The front of a text, as far as there is room.
pub fn front(text: &[u8], room: usize) -> &[u8]
    ensures { result.now ≡ take room text.now }
{
    &text[..room.min(text.len())]
}

/// Puts numbers from one to another after the words for several, or one number after the word for one.
fn put_range(
    out: &mut Markup<'_>,
    one: &'static str,
    several: &'static str,
    first: u64,
    last: u64,
) -> Done
    ensures { OnOk result (out.new ≡ out.old) }
{
    if first == last {
        return out.put_all(&[Word(one), Number(first)]);
    }
    out.put_all(&[Word(several), Number(first), Word(" to "), Number(last)])
}

/// Puts a phrase, if there is one.
fn put_phrase(out: &mut Markup<'_>, phrase: Option<Phrase>) -> Done
    ensures { OnOk result (out.new ≡ out.old) }
{
    match phrase {
        Some(phrase) => out.put_all(&[Word(phrase.word), Number(phrase.number)]),
        None => Ok(()),
    }
}

/// Puts sentences, with a blank between two of them.
pub fn put_sentences(out: &mut Markup<'_>, sentences: &[Sentence]) -> Done
    ensures { OnOk result (out.new ≡ out.old) }
{
    let mut first = true;
    for sentence in sentences.iter() {
        out.put(Word(if first { "" } else { " " }))?;
        put_phrase(out, Some(sentence.first))?;
        put_phrase(out, Some(sentence.second))?;
        put_phrase(out, sentence.third)?;
        out.put(Word(sentence.end))?;
        first = false;
    }
    Ok(())
}

impl<'s, 'a> Scene<'s, 'a> {
    /// A group begins with a tooltip; at the head of this are the events and the lines of a stretch of columns, and words.
    pub fn begin_span(&self, out: &mut Markup<'_>, stretch: Stretch, words: &'static str) -> Done
        ensures { OnOk result (out.new ≡ started Title (started Group out.old)) }
    {
        let line = u64::from(self.head(stretch.from).line);
        let last_line = u64::from(self.head(stretch.to.saturating_sub(1)).last_line);
        let first = self.sheet.window.edge(stretch.from).saturating_add(1);
        let last = self.sheet.window.edge(stretch.to);
        out.begin_tip()?;
        put_range(out, "event ", "events ", first, last)?;
        put_range(out, " (line ", " (lines ", line, last_line)?;
        out.put_all(&[Word(")"), Word(words)])
    }
}
