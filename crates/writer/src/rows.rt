// The rows of the editor's table: rows of cells, cells of lines.
ghost use Rattle.std.specs.Prelude.{◌≡◌};
ghost use Rattle.rules.specs.Description as description;
ghost use Rattle.rules.specs.Format as format;
ghost use Rattle.editor.specs.Walk.{state, walked, walk_of, walked_to};

use editor::text::Kind;
use editor::walk::{Missing, Slices, Walk};
use rules::Reason;

// A cell's lines.
fn lines(table: &Slices<'_>, sheet: &mut [u8], from: Walk) -> Result<Walk, Missing>
    ensures { state (walked_to result) sheet.new
        ≡ walked (description.counted 1 8 format.line) table.now.numbers.now table.now.text.now (state (walk_of from) sheet.old) }
{
    let count = table.byte_between(sheet, from, 1, 8, Reason::BeyondLimits)?;
    let mut at = count.walk;
    for _ in 0..count.value {
        at = table.text(sheet, at, Kind::Line)?;
    }
    Ok(at)
}

fn cell(table: &Slices<'_>, sheet: &mut [u8], from: Walk) -> Result<Walk, Missing>
    ensures { state (walked_to result) sheet.new ≡ walked format.cell table.now.numbers.now table.now.text.now (state (walk_of from) sheet.old) }
{
    let alignment = table.optional(sheet, from)?;
    let count = table.within(sheet, alignment, 0, 3, Reason::UnknownCode)?;
    lines(table, sheet, count)
}

// A row's cells, which are held to the column count.
fn cells(table: &Slices<'_>, sheet: &mut [u8], from: Walk, columns: u16) -> Result<Walk, Missing>
    ensures { state (walked_to result) sheet.new
        ≡ walked (description.listed (format.cell_count columns) format.cell) table.now.numbers.now table.now.text.now (state (walk_of from) sheet.old) }
{
    let count = table.cell_count(sheet, from, columns)?;
    let mut at = count.walk;
    for _ in 0..count.value {
        at = cell(table, sheet, at)?;
    }
    Ok(at)
}

fn row(table: &Slices<'_>, sheet: &mut [u8], from: Walk, columns: u16) -> Result<Walk, Missing>
    ensures { state (walked_to result) sheet.new
        ≡ walked (format.row columns) table.now.numbers.now table.now.text.now (state (walk_of from) sheet.old) }
{
    let count = table.within(sheet, from, 0, 255, Reason::BeyondLimits)?;
    cells(table, sheet, count, columns)
}

// Up to `most` rows after their count.
pub fn rows(
    table: &Slices<'_>,
    sheet: &mut [u8],
    from: Walk,
    columns: u16,
    most: u16,
) -> Result<Walk, Missing>
    ensures { state (walked_to result) sheet.new
        ≡ walked (description.counted 0 most (format.row columns)) table.now.numbers.now table.now.text.now (state (walk_of from) sheet.old) }
{
    let count = table.byte_between(sheet, from, 0, most, Reason::BeyondLimits)?;
    let mut at = count.walk;
    for _ in 0..count.value {
        at = row(table, sheet, at, columns)?;
    }
    Ok(at)
}
