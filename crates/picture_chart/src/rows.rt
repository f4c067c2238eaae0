//! Rows: lines with a label and a strip of signs.

ghost use Rattle.std.specs.Prelude.{◌≡◌, ◌∷◌, [], ◌++◌, OnOk};
ghost use Rattle.picture_chart.specs.Pages.{Grows};

use crate::line::{ChartLine, Done};

/// The characters of a row's label.
pub(crate) const LABEL: usize = 18;

/// A label, and a sign for each column.
#[derive(Drop)]
pub(crate) struct Row {
    pub(crate) label: ChartLine,
    pub(crate) strip: ChartLine,
}

/// The line of a row.
fn line_of_row(row: &Row) -> ChartLine {
    let mut line = ChartLine::new();
    line.put_left(row.label.as_bytes(), LABEL);
    line.put(row.strip.as_bytes());
    line
}

/// Puts a line.
pub(crate) fn put_line(page: &mut Vec<ChartLine>, line: ChartLine) -> Done
    ensures { OnOk result (page.new.items ≡ page.old.items ++ line ∷ []) }
{
    page.push(line)?;
    Ok(())
}

/// Puts a row. A row with nothing on its strip is left out.
fn put_row(page: &mut Vec<ChartLine>, row: &Row) -> Done
    ensures { OnOk result (Grows page.old.items page.new.items) }
{
    if row.strip.is_blank() {
        return Ok(());
    }
    put_line(page, line_of_row(row))
}

/// Puts rows.
pub(crate) fn put_rows(page: &mut Vec<ChartLine>, rows: &[Row]) -> Done
    ensures { OnOk result (Grows page.old.items page.new.items) }
{
    for row in rows.iter() {
        put_row(page, row)?;
    }
    Ok(())
}
