// The rows of a sheet: rows of cells, cells of lines. `pairs`: whether pairs are looked for in them. It stays a parameter: with `const PAIRS: bool`
// the check fails at the closures here (`rattle cites ℕ of the module Prim.Native.Nat, which it did not state as an import`).
ghost use Rattle.std.specs.Prelude.{◌≡◌};
ghost use Rattle.rules.specs.Description.{counted};
ghost use Rattle.rules.specs.Format as format;
ghost use Rattle.rules.specs.Steps.{At, read_to, after};
ghost use Rattle.sheet.specs.Steps.{line_of, cells_after};

use super::{field, text};
use rules::{Reason, Refusal};

// A cell's lines.
fn lines(sheet: &[u8], at: usize, pairs: bool) -> Result<usize, Refusal>
    ensures { read_to result ≡ after (counted 1 8 (line_of pairs)) sheet.now (At at) }
{
    let count = field::byte_between(sheet, at, 1, 8, Reason::BeyondLimits)?;
    field::items(count, |at| text::line(sheet, at, pairs))
}

fn cell(sheet: &[u8], at: usize, pairs: bool) -> Result<usize, Refusal>
    ensures { read_to result ≡ after (format.cell_by (line_of pairs)) sheet.now (At at) }
{
    let alignment = field::printable_or_zero(sheet, at)?;
    let count = field::within(sheet, alignment, 0, 3, Reason::UnknownCode)?;
    lines(sheet, count, pairs)
}

fn cells(sheet: &[u8], at: usize, columns: u8, pairs: bool) -> Result<usize, Refusal>
    ensures { read_to result ≡ cells_after (line_of pairs) columns sheet.now (At at) }
{
    let count = field::cell_count(sheet, at, columns)?;
    field::items(count, |at| cell(sheet, at, pairs))
}

fn row(sheet: &[u8], at: usize, columns: u8, pairs: bool) -> Result<usize, Refusal>
    ensures { read_to result ≡ after (format.row_by (line_of pairs) columns) sheet.now (At at) }
{
    let count = field::within(sheet, at, 0, 255, Reason::BeyondLimits)?;
    cells(sheet, count, columns, pairs)
}

// Up to `most` rows after their count.
pub fn rows(sheet: &[u8], at: usize, columns: u8, most: u8, pairs: bool) -> Result<usize, Refusal>
    ensures { read_to result ≡ after (counted 0 most (format.row_by (line_of pairs) columns)) sheet.now (At at) }
{
    let count = field::byte_between(sheet, at, 0, most, Reason::BeyondLimits)?;
    field::items(count, |at| row(sheet, at, columns, pairs))
}
