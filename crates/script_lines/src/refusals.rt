ghost use Rattle.std.specs.Prelude.{◌≡◌, ◌≤◌, ◌++◌, length};
ghost use Rattle.script_lines.specs.Refusals.{kind_word, refused_line, refusal_text};

use crate::kinds::ScriptKind;
use mass_text::{LineBuf, Radix, numeral_law};

/// The word of a fault.
#[tactic(auto, unfolding(crate::specs::Refusals::kind_word))]
fn kind_word(kind: ScriptKind) -> &'static str
    ensures word { result.now ≡ kind_word kind }
    ensures short { length result.now ≤ 11 }
{
    match kind {
        ScriptKind::Word => "word",
        ScriptKind::Number => "number",
        ScriptKind::UnitUnknown => "unitunknown",
        ScriptKind::UnitTwice => "unittwice",
        ScriptKind::IdTwice => "idtwice",
        ScriptKind::Count => "count",
        ScriptKind::Data => "data",
        ScriptKind::Bits => "bits",
        ScriptKind::LateUnit => "lateunit",
        ScriptKind::TooMany => "toomany",
        ScriptKind::LineLong => "linelong",
        ScriptKind::ScriptLong => "scriptlong",
    }
}

/// The words that begin a refusal.
#[tactic(auto, unfolding(crate::specs::Refusals::refused_line))]
fn refused() -> LineBuf
    ensures text { result ≡ refused_line }
    ensures room { length result ≤ 20 }
{
    let mut text = LineBuf::new();
    text.put("refused line ");
    text
}

/// The text of a refusal: `refused line L KIND`.
pub fn refusal(line: u64, kind: ScriptKind) -> LineBuf
    ensures { result ≡ refusal_text line kind }
{
    numeral_law(Radix::Decimal);
    let mut text = refused();
    text.put_number(line, Radix::Decimal);
    text.put(" ");
    text.put(kind_word(kind));
    text.put("\n");
    text
}
