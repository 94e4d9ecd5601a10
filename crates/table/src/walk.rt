// Rows, cells and lines of an accepted sheet, one after another. What is still to come is a position and a count; no text is copied.
ghost use Rattle.std.specs.Prelude.{◌≡◌, ◌<◌, ◌≤◌, length};
ghost use Rattle.rules.specs.Places.{line_stop, cell_stop, row_stop, rows_place};
ghost use Rattle.table.specs.Held.{table_of};
ghost use Rattle.table.specs.Walk.{rows_in, rows_end, cells_end, lines_end, first_line, RowIs, CellIs, RowsNext, CellsNext, CellsSkipped, LinesNext};

use super::accepted::AcceptedSheet;
use super::records::{Cell, Cells, Lines, Row, Rows};

// Rows, cells and lines have a function each, here and below: their heads differ, and so do their types, on purpose.

// Where the line at `at` ends.
fn line_end(sheet: &[u8], at: usize) -> usize
    requires { line_stop sheet.now at ≤ length sheet.now }
    ensures { result ≡ line_stop sheet.now at }
{
    at + 1 + usize::from(sheet[at])
}

// Where the cell at `at` ends: its lines are passed, and none of their characters is looked at.
fn cell_end(sheet: &[u8], at: usize) -> usize
    requires { cell_stop sheet.now at ≤ length sheet.now }
    ensures { result ≡ cell_stop sheet.now at }
{
    let lines = usize::from(sheet[at + 2]);
    let mut p = at + 3;
    for _ in 0..lines {
        p = line_end(sheet, p);
    }
    p
}

// Where the row at `at` ends.
fn row_end(sheet: &[u8], at: usize) -> usize
    requires { row_stop sheet.now at ≤ length sheet.now }
    ensures { result ≡ row_stop sheet.now at }
{
    let cells = usize::from(sheet[at + 1]);
    let mut p = at + 2;
    for _ in 0..cells {
        p = cell_end(sheet, p);
    }
    p
}

// The first row of those still to come.
pub fn row(sheet: &[u8], c: Rows) -> Row
    requires { (0 < c.left) × (rows_end sheet.now c ≤ length sheet.now) }
    ensures { RowIs sheet.now c result }
{
    let at = c.at;
    let limit = usize::from(sheet[at]);
    let left = usize::from(sheet[at + 1]);
    Row {
        limit,
        cells: Cells { at: at + 2, left },
    }
}

// The rows after the first.
pub fn next_row(sheet: &[u8], c: Rows) -> Rows
    requires { (0 < c.left) × (rows_end sheet.now c ≤ length sheet.now) }
    ensures { RowsNext sheet.now c result }
{
    let at = row_end(sheet, c.at);
    Rows {
        at,
        left: c.left - 1,
    }
}

// The first cell of those still to come.
pub fn cell(sheet: &[u8], c: Cells) -> Cell
    requires { (0 < c.left) × (cells_end sheet.now c ≤ length sheet.now) }
    ensures { CellIs sheet.now c result }
{
    let at = c.at;
    let left = usize::from(sheet[at + 2]);
    Cell {
        delimiter: sheet[at],
        alignment: sheet[at + 1],
        lines: Lines { at: at + 3, left },
    }
}

// The cells after the first.
pub fn next_cell(sheet: &[u8], c: Cells) -> Cells
    requires { (0 < c.left) × (cells_end sheet.now c ≤ length sheet.now) }
    ensures { CellsNext sheet.now c result }
{
    let at = cell_end(sheet, c.at);
    Cells {
        at,
        left: c.left - 1,
    }
}

// The cells after the first n.
pub fn skip_cells(sheet: &[u8], cells: Cells, n: usize) -> Cells
    requires { cells_end sheet.now cells ≤ length sheet.now }
    ensures { CellsSkipped sheet.now cells n result }
{
    let mut c = cells;
    for _ in 0..n {
        if c.left == 0 {
            return c;
        }
        c = next_cell(sheet, c);
    }
    c
}

// The first line of those still to come: the part of the sheet that holds its characters.
pub fn line(sheet: &[u8], c: Lines) -> &[u8]
    requires { (0 < c.left) × (lines_end sheet.now c ≤ length sheet.now) }
    ensures { result.now ≡ first_line sheet.now c }
{
    let at = c.at;
    let start = at + 1;
    let end = start + usize::from(sheet[at]);
    &sheet[start..end]
}

// The lines after the first.
pub fn next_line(sheet: &[u8], c: Lines) -> Lines
    requires { (0 < c.left) × (lines_end sheet.now c ≤ length sheet.now) }
    ensures { LinesNext sheet.now c result }
{
    let at = line_end(sheet, c.at);
    Lines {
        at,
        left: c.left - 1,
    }
}

impl<'a> AcceptedSheet<'a> {
    // The header: no row, or one.
    pub fn header(&self) -> Rows
        ensures { (rows_in self.now.bytes.now result ≡ (table_of self.now.bytes.now).header) × (rows_end self.now.bytes.now result ≡ rows_place self.now.bytes.now) }
    {
        let place = self.header_place();
        let left = usize::from(self.bytes[place]);
        Rows {
            at: place + 1,
            left,
        }
    }

    // The rows, which stand behind what is left of the header.
    pub fn rows(&self, header: Rows) -> Rows
        requires { rows_end self.now.bytes.now header ≡ rows_place self.now.bytes.now }
        ensures { (rows_in self.now.bytes.now result ≡ (table_of self.now.bytes.now).rows) × (rows_end self.now.bytes.now result ≡ length self.now.bytes.now) }
    {
        let mut c = header;
        // Kept: only where the cursor ends is asked for, and it counts what is left itself; a `for` would count it twice.
        while 0 < c.left {
            c = next_row(self.bytes, c);
        }
        let place = c.at;
        let left = usize::from(self.bytes[place]);
        Rows {
            at: place + 1,
            left,
        }
    }
}
