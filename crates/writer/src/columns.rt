// The columns of the editor's table, nine numbers each.
ghost use Rattle.std.specs.Prelude.{◌≡◌, IfOk};
ghost use Rattle.rules.specs.Sheet.{most_columns};
ghost use Rattle.rules.specs.Description as description;
ghost use Rattle.rules.specs.Format as format;
ghost use Rattle.rules.specs.Editor as slices;
ghost use Rattle.editor.specs.Walk.{state, walked, cursor_of, walk_of, walked_to, field_to};
ghost use Rattle.writer.specs.Answer as answer;

use editor::field;
use editor::field::Field;
use editor::walk::{Missing, Slices, Walk};
use rules::Reason;

// A width, of which an unused one is all zero.
fn width(table: &Slices<'_>, sheet: &mut [u8], from: Walk, used: bool) -> Result<Walk, Missing>
    ensures { state (walked_to result) sheet.new ≡ walked (format.width used) table.now.numbers.now table.now.text.now (state (walk_of from) sheet.old) }
{
    if !used {
        let value = table.within(sheet, from, 0, 0, Reason::NotZero)?;
        return table.zero_word(sheet, value);
    }
    let unit = table.byte_between(sheet, from, 0, 1, Reason::UnknownCode)?;
    let most = sheet::columns::most_of(unit.value == 0);
    table.word_to(sheet, unit.walk, most)
}

// A constraint's code says which of the two widths behind it are used.
fn constraint(table: &Slices<'_>, sheet: &mut [u8], from: Walk) -> Result<Walk, Missing>
    ensures { state (walked_to result) sheet.new ≡ answer.constraint_walked table.now.numbers.now table.now.text.now (state (walk_of from) sheet.old) }
{
    let code = table.byte_between(sheet, from, 0, 6, Reason::UnknownCode)?;
    let second = width(table, sheet, code.walk, 3 <= code.value)?;
    width(table, sheet, second, code.value == 6)
}

fn column(table: &Slices<'_>, sheet: &mut [u8], from: Walk) -> Result<Walk, Missing>
    ensures { state (walked_to result) sheet.new ≡ walked format.column table.now.numbers.now table.now.text.now (state (walk_of from) sheet.old) }
{
    let right = table.within(sheet, from, 0, 20, Reason::BeyondLimits)?;
    let delimiter = table.within(sheet, right, 0, 20, Reason::BeyondLimits)?;
    let alignment = table.optional(sheet, delimiter)?;
    let code = table.within(sheet, alignment, 0, 3, Reason::UnknownCode)?;
    constraint(table, sheet, code)
}

// The columns, with their count: rows are held to it.
pub fn columns(table: &Slices<'_>, sheet: &mut [u8], from: Walk) -> Result<Field, Missing>
    ensures sheet_after { state (field_to result) sheet.new
        ≡ walked (description.counted 0 most_columns format.column) table.now.numbers.now table.now.text.now (state (walk_of from) sheet.old) }
    ensures value { IfOk result (λ f. f.value ≡ (slices.number_at table.now.numbers.now (cursor_of (walk_of from))).value) }
{
    let count = table.byte_between(sheet, from, 0, field::MOST, Reason::BeyondLimits)?;
    let mut at = count.walk;
    for _ in 0..count.value {
        at = column(table, sheet, at)?;
    }
    Ok(Field {
        value: count.value,
        walk: at,
    })
}
