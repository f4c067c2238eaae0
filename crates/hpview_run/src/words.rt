ghost use Rattle.std.specs.Prelude.{◌≡◌, ◌-◌, ◌^◌, ◌<◌, ◌≤◌, map, IfSome, Some, None};
ghost use Rattle.std.specs.String.{string_bytes};
ghost use Rattle.hpview_run.specs.Words.{form_named, is_whole, is_span, event_named, span_of, command_by, command_named};

use mass_text::{Radix, number};

/// How a run is shown.
#[derive(Clone, Copy, PartialEq, Eq)]
pub enum Form {
    /// A picture for a browser.
    Svg,
    /// A chart for a terminal.
    Chart,
    /// A line for each request.
    Requests,
    /// A line for each drive, and a line for all drives.
    Summary,
    /// Trace events for a viewer.
    Events,
}

/// What the words of the command line ask for: a form, and the events `from` to `to`, counted from 1. If the words name no events,
/// `from` is 0, and the whole run is shown.
#[derive(Clone, Copy, PartialEq, Eq)]
pub struct Command {
    pub form: Form,
    pub from: u64,
    pub to: u64,
}

/// The largest number of an event.
const LAST: u64 = 4_294_967_295;

/// The form that a word names.
#[tactic(auto, unfolding(crate::specs::Words::form_named))]
fn form_in(word: &str) -> Option<Form>
    ensures { result ≡ form_named word.now }
{
    if word == "svg" {
        Some(Form::Svg)
    } else if word == "text" {
        Some(Form::Chart)
    } else if word == "tsv" {
        Some(Form::Requests)
    } else if word == "summary" {
        Some(Form::Summary)
    } else if word == "json" {
        Some(Form::Events)
    } else {
        None
    }
}

/// Whether a form always shows the whole run.
fn is_whole(form: Form) -> bool
    ensures { result ≡ is_whole form }
{
    match form {
        Form::Summary => true,
        Form::Svg | Form::Chart | Form::Requests | Form::Events => false,
    }
}

/// Whether a form can show the events from one to another.
fn is_span(form: Form, from: u64, to: u64) -> bool
    ensures { result ≡ is_span form from to }
{
    from <= to && !is_whole(form)
}

/// The number of an event that a word gives.
fn event_in(word: &str) -> Option<u64>
    ensures event { result ≡ event_named word.now }
{
    let bytes = word.as_bytes();
    if !bytes.is_empty() && bytes[0] == b'0' {
        return None;
    }
    match number(bytes, Radix::Decimal, LAST) {
        Ok(event) => Some(event),
        Err(_) => None,
    }
}

/// The command that shows the events from one to another in a form. None if there is no such command.
fn span_in(form: Form, from: &str, to: &str) -> Option<Command>
    ensures { result ≡ span_of form (event_named from.now) (event_named to.now) }
{
    let from = event_in(from)?;
    let to = event_in(to)?;
    if is_span(form, from, to) {
        Some(Command { form, from, to })
    } else {
        None
    }
}

/// The command that the words name. None if they name no command.
pub(crate) fn command_of(words: &[String]) -> Option<Command>
    ensures { result ≡ command_named (map string_bytes words.now) }
{
    match words {
        [form] => {
            let form = form_in(form.as_str())?;
            Some(Command {
                form,
                from: 0,
                to: LAST,
            })
        }
        [form, from, to] => {
            let form = form_in(form.as_str())?;
            span_in(form, from.as_str(), to.as_str())
        }
        _ => None,
    }
}
