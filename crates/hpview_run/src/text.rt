ghost use Rattle.std.specs.Prelude.{◌≡◌, ◌≤◌, ◌+◌, ◌++◌, length};
ghost use Rattle.hpview_run.specs.Words.{trace_refusal, usage_text, trace_word, trace_refused, window_refusal, window_refused};

use mass_text::{LineBuf, Radix, numeral_law};
use trace_reader::TraceKind;

/// Puts the word for the fault of a trace.
#[tactic(auto, unfolding(crate::specs::Words::trace_word))]
fn put_trace_kind(text: &mut LineBuf, kind: TraceKind)
    requires { length text.old ≤ 100 }
    ensures text { text.new ≡ text.old ++ trace_word kind }
    ensures room { length text.new ≤ length text.old + 6 }
{
    match kind {
        TraceKind::Long => text.put("long"),
        TraceKind::Word => text.put("word"),
        TraceKind::Order => text.put("order"),
        TraceKind::Script => text.put("script"),
        TraceKind::Ended => text.put("ended"),
    }
}

/// The words with which the refusal of a trace begins.
#[tactic(auto, unfolding(crate::specs::Words::trace_refused))]
fn trace_refused() -> LineBuf
    ensures text { result ≡ trace_refused }
    ensures room { length result ≤ 20 }
{
    let mut text = LineBuf::new();
    text.put("refused trace line ");
    text
}

/// The text of the refusal of a trace: `refused trace line L KIND`.
pub(crate) fn trace_refusal(line: u64, kind: TraceKind) -> LineBuf
    ensures { result ≡ trace_refusal line kind }
{
    numeral_law(Radix::Decimal);
    let mut text = trace_refused();
    text.put_number(line, Radix::Decimal);
    text.put(" ");
    put_trace_kind(&mut text, kind);
    text.put("\n");
    text
}

/// The words with which the refusal of a window begins.
#[tactic(auto, unfolding(crate::specs::Words::window_refused))]
fn window_refused() -> LineBuf
    ensures text { result ≡ window_refused }
    ensures room { length result ≤ 20 }
{
    let mut text = LineBuf::new();
    text.put("refused window ");
    text
}

/// The text of the refusal of a window that holds no event of a run with so many events: `refused window E`.
pub(crate) fn window_refusal(events: u64) -> LineBuf
    ensures { result ≡ window_refusal events }
{
    numeral_law(Radix::Decimal);
    let mut text = window_refused();
    text.put_number(events, Radix::Decimal);
    text.put("\n");
    text
}

/// The usage, which is printed if the words are no command.
#[tactic(auto, unfolding(crate::specs::Words::usage_text))]
pub(crate) fn usage() -> LineBuf
    ensures { result ≡ usage_text }
{
    let mut text = LineBuf::new();
    text.put(
        "usage: hpview summary, or svg, text, tsv or json [FROM TO] < SCRIPT, with the trace in hp.trace\n",
    );
    text
}
