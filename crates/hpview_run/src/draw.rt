// Draws a run.
ghost use Rattle.std.specs.Prelude.{◌≡◌, ◌≤◌, ◌-◌, ◌≢◌, ℕ, Bool, List, IfOk, IfErr, OnOk};
ghost use Rattle.hpview_run.specs.Drawing.{Draws, IsDrawn, IsDrawnAs};
ghost use Rattle.hpview_run.specs.Loading.{IsOfView, Loads, Refuses};
ghost use Rattle.run_view.specs.Captions.{caption_of as caption_in};

use crate::load::{Loaded, ViewFault};
use crate::words::{Command, Form};
use picture_chart::chart;
use picture_svg::svg;
use run_plan::{Sheet, events_text, plan_of, requests_text, summary_text};
use run_view::{View, caption_of, script_law, view_run};
use std::alloc::{AllocError, Global};

/// The requests that a sheet shows, one on each line.
fn requests(alloc: Global, sheet: &Sheet<'_>) -> Result<Vec<u8>, AllocError>
    ensures { IfOk result (λ text. IsDrawnAs Form.Requests sheet.now text.items) }
{
    let plan = plan_of(alloc, sheet)?;
    requests_text(alloc, &plan)
}

/// The summary of the requests of a sheet, with a line for each drive.
fn summary(alloc: Global, sheet: &Sheet<'_>) -> Result<Vec<u8>, AllocError>
    ensures { IfOk result (λ text. IsDrawnAs Form.Summary sheet.now text.items) }
{
    let plan = plan_of(alloc, sheet)?;
    summary_text(alloc, &plan)
}

/// The trace events of a sheet.
fn events(alloc: Global, sheet: &Sheet<'_>) -> Result<Vec<u8>, AllocError>
    ensures { IfOk result (λ text. IsDrawnAs Form.Events sheet.now text.items) }
{
    let plan = plan_of(alloc, sheet)?;
    events_text(alloc, &plan)
}

/// Draws a sheet in a form.
fn draw_sheet(alloc: Global, form: Form, sheet: &Sheet<'_>) -> Result<Vec<u8>, AllocError>
    ensures { IfOk result (λ picture. IsDrawnAs form sheet.now picture.items) }
{
    match form {
        Form::Svg => svg(alloc, sheet),
        Form::Chart => chart(alloc, sheet),
        Form::Requests => requests(alloc, sheet),
        Form::Summary => summary(alloc, sheet),
        Form::Events => events(alloc, sheet),
    }
}

/// Draws what a view shows of a run in a form, under the caption of its script.
fn draw(alloc: Global, form: Form, text: &[u8], view: &View<'_>) -> Result<Vec<u8>, ViewFault>
    ensures ok { IfOk result (λ picture. IsDrawn form (caption_in text.now) view.now picture.items) }
    ensures memory { IfErr result (λ fault. fault ≡ ViewFault.Memory) }
{
    let sheet = Sheet {
        caption: caption_of(text),
        run: &view.run,
        window: view.window,
        texts: view.texts.as_slice(),
        notes: view.notes.as_slice(),
    };
    match draw_sheet(alloc, form, &sheet) {
        Ok(picture) => Ok(picture),
        Err(_) => Err(ViewFault::Memory),
    }
}

/// Draws the events that a command names of what a view shows of a run. They are refused if the run has none of them.
fn draw_shown(
    alloc: Global,
    command: Command,
    text: &[u8],
    view: &View<'_>,
) -> Result<Vec<u8>, ViewFault>
    ensures ok { IfOk result (λ picture. IsDrawn command.form (caption_in text.now) view.now picture.items) }
    ensures some { OnOk result (command.from ≤ view.now.events) }
    ensures err { IfErr result (λ fault. IsOfView command view.now.events fault) }
{
    if view.events < command.from {
        return Err(ViewFault::Window {
            events: view.events,
        });
    }
    draw(alloc, command.form, text, view)
}

/// Draws the run of a script and of the bytes of its trace.
pub(crate) fn draw_run(
    alloc: Global,
    command: Command,
    loaded: &Loaded,
    bytes: &[u8],
) -> Result<Vec<u8>, ViewFault>
    requires { Loads loaded.now.text.items loaded.now.script }
    ensures ok { IfOk result (λ picture. Draws command loaded.now.text.items bytes.now picture.items) }
    ensures refused { IfErr result (λ fault. (tells : Bool) → Refuses command tells fault loaded.now.text.items bytes.now) }
    ensures inside { IfErr result (λ fault. fault ≢ ViewFault.Failed) }
{
    script_law();
    let text = loaded.text.as_slice();
    let first = command.from.saturating_sub(1);
    match view_run(alloc, &loaded.script, text, bytes, first, command.to) {
        Ok(view) => draw_shown(alloc, command, text, &view),
        Err(fault) => Err(ViewFault::from(fault)),
    }
}
