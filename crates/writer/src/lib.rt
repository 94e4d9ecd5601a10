// The writer: the editor's table, two slices of numbers and text, becomes a sheet, or is refused with a number and a place.
// The check (crate `sheet`) reads the same fields, but of bytes; what both share is the format, a definition. One trait for both was tried: its laws
// would speak of all formats, and the check refuses such a law (`expected type Type 0, but this has type Type 1`).
// One walk over the fields judges and writes: the first run is lent no buffer, the second the sheet's, once all is in order and fits.
#![tactic(auto, using(crate::proofs::Laws::sections))]

ghost use Rattle.std.specs.Prelude.{◌≡◌, [], length};
ghost use Rattle.rules.specs.Calls.{printed_of};
ghost use Rattle.rules.specs.Writer as calls;
ghost use Rattle.rules.specs.Format as format;
ghost use Rattle.editor.specs.Walk.{state, walked, walk_of, walked_to, number_in, place_in};
ghost use Rattle.writer.specs.Answer as answer;

mod columns;
mod rows;

use editor::text::Kind;
use editor::walk::{Missing, Slices, Walk};
use rules::{Printed, Reason, Refusal};

// Edition, arrangement, target, delimiter, indicator, style.
fn head(table: &Slices<'_>, sheet: &mut [u8], from: Walk) -> Result<Walk, Missing>
    ensures { state (walked_to result) sheet.new ≡ answer.head_walked table.now.numbers.now table.now.text.now (state (walk_of from) sheet.old) }
{
    let arrangement = table.within(sheet, from, 1, 1, Reason::WrongEdition)?;
    let target = table.within(sheet, arrangement, 0, 2, Reason::UnknownCode)?;
    let delimiter = table.word_to(sheet, target, 400)?;
    let indicator = table.optional(sheet, delimiter)?;
    let style = table.text(sheet, indicator, Kind::Indicator)?;
    table.text(sheet, style, Kind::Style)
}

// Columns, header, rows.
fn body(table: &Slices<'_>, sheet: &mut [u8], from: Walk) -> Result<Walk, Missing>
    ensures { state (walked_to result) sheet.new ≡ answer.body_walked table.now.numbers.now table.now.text.now (state (walk_of from) sheet.old) }
{
    let columns = columns::columns(table, sheet, from)?;
    let rows = rows::rows(table, sheet, columns.walk, columns.value, 1)?;
    rows::rows(table, sheet, rows, columns.value, 100)
}

// The whole table, from its first field.
fn fields(table: &Slices<'_>, sheet: &mut [u8]) -> Result<Walk, Missing>
    ensures { state (walked_to result) sheet.new
        ≡ walked format.table table.now.numbers.now table.now.text.now (state answer.begun sheet.old) }
{
    let start = Walk {
        numbers: 0,
        text: 0,
        place: 0,
        fault: None,
    };
    let columns = head(table, sheet, start)?;
    body(table, sheet, columns)
}

// The first run, with no buffer.
fn judge(table: &Slices<'_>) -> Result<Walk, Missing>
    ensures { walked_to result ≡ (walked format.table table.now.numbers.now table.now.text.now (state answer.begun [])).walk }
{
    let mut none = [0u8; 0];
    fields(table, &mut none)
}

// A table that isn't too long: its first fault; 22 where its sheet doesn't fit.
#[tactic(auto, using(crate::proofs::Laws::fits))]
fn fit(fault: Option<Refusal>, place: usize, room: usize) -> Result<(), Refusal>
    ensures { answer.decided_to result ≡ answer.fitting (number_in fault) (place_in fault) place room }
{
    if let Some(fault) = fault {
        return Err(fault);
    }
    if room < place {
        return Err(Refusal {
            reason: Reason::SheetOverBuffer,
            place,
        });
    }
    Ok(())
}

// By the first run, on which nothing was missing: 9, for then there is no table; 2; the first fault; 22.
#[tactic(auto, using(crate::proofs::Laws::decisions))]
fn decide(walked: Walk, table: &Slices<'_>, room: usize) -> Result<(), Refusal>
    ensures { answer.decided_to result ≡ answer.decided (walk_of walked) (length table.now.numbers.now) (length table.now.text.now) room }
{
    if walked.numbers < table.numbers.len() || walked.text < table.text.len() {
        return Err(Refusal {
            reason: Reason::LeftOver,
            place: walked.numbers,
        });
    }
    if 32768 < walked.place {
        return Err(Refusal {
            reason: Reason::TooLong,
            place: 32768,
        });
    }
    fit(walked.fault, walked.place, room)
}

// The size of the sheet that is written, or the refusal; a refusal leaves the buffer as it is.
fn write(table: &Slices<'_>, sheet: &mut [u8]) -> Result<usize, Refusal>
    ensures value { printed_of result ≡ (calls.write_sheet table.now.numbers.now table.now.text.now sheet.old).answer }
    ensures sheet_after { sheet.new ≡ (calls.write_sheet table.now.numbers.now table.now.text.now sheet.old).buffer }
{
    let walked = judge(table)?;
    decide(walked, table, sheet.len())?;
    let _ = fields(table, sheet);
    Ok(walked.place)
}

// Writes the sheet of the table that the slices describe, or refuses it and leaves the buffer as it is.
pub fn write_sheet(numbers: &[u16], text: &[u8], sheet: &mut [u8]) -> Printed
    ensures value { result ≡ (calls.write_sheet numbers.now text.now sheet.old).answer }
    ensures sheet_after { sheet.new ≡ (calls.write_sheet numbers.now text.now sheet.old).buffer }
{
    let table = Slices { numbers, text };
    Printed::from(write(&table, sheet))
}
