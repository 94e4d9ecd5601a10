// The columns of a sheet, 11 bytes each.
ghost use Rattle.std.specs.Prelude.{◌≡◌, cond};
ghost use Rattle.rules.specs.Sheet.{most_columns};
ghost use Rattle.rules.specs.Description.{counted};
ghost use Rattle.rules.specs.Format as format;
ghost use Rattle.rules.specs.Steps.{At, read_to, after};
ghost use Rattle.sheet.specs.Steps.{constraint_after, field_to, ValueIs};

use super::field;
use super::field::Field;
use rules::{MOST_CELLS, Reason, Refusal};

// Fixed is 0 to 400, percent any value.
pub fn most_of(fixed: bool) -> u16
    ensures { result ≡ cond fixed 400 65535 }
{
    if fixed { 400 } else { u16::MAX }
}

// A width, of which an unused one is all zero.
fn width(sheet: &[u8], at: usize, used: bool) -> Result<usize, Refusal>
    ensures { read_to result ≡ after (format.width used) sheet.now (At at) }
{
    if !used {
        let value = field::within(sheet, at, 0, 0, Reason::NotZero)?;
        return field::zero_word(sheet, value);
    }
    let unit = field::byte_between(sheet, at, 0, 1, Reason::UnknownCode)?;
    field::word(sheet, unit.next, most_of(unit.value == 0))
}

// A constraint's code says which of the two widths behind it are used.
fn constraint(sheet: &[u8], at: usize) -> Result<usize, Refusal>
    ensures { read_to result ≡ constraint_after sheet.now (At at) }
{
    let code = field::byte_between(sheet, at, 0, 6, Reason::UnknownCode)?;
    let second = width(sheet, code.next, 3 <= code.value)?;
    width(sheet, second, code.value == 6)
}

fn column(sheet: &[u8], at: usize) -> Result<usize, Refusal>
    ensures { read_to result ≡ after format.column sheet.now (At at) }
{
    let right = field::within(sheet, at, 0, 20, Reason::BeyondLimits)?;
    let delimiter = field::within(sheet, right, 0, 20, Reason::BeyondLimits)?;
    let alignment = field::printable_or_zero(sheet, delimiter)?;
    let code = field::within(sheet, alignment, 0, 3, Reason::UnknownCode)?;
    constraint(sheet, code)
}

// The columns, with their count: rows are held to it.
pub fn columns(sheet: &[u8], at: usize) -> Result<Field, Refusal>
    ensures next { field_to result ≡ after (counted 0 most_columns format.column) sheet.now (At at) }
    ensures value { ValueIs sheet.now at result }
{
    let count = field::byte_between(sheet, at, 0, MOST_CELLS, Reason::BeyondLimits)?;
    let next = field::items(count, |at| column(sheet, at))?;
    Ok(Field { next, ..count })
}
