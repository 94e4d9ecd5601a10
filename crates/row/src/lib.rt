// A row's cells opened at one of its lines, comfy-table's `format_row`, and their heights.
#![tactic(auto)]

pub mod visible;

ghost use Rattle.std.specs.Prelude.{◌≡◌, ◌*◌, ◌≤◌, ◌<◌, length, unwrap_or};
ghost use Rattle.rules.specs.Text.{All};
ghost use Rattle.rules.specs.Sheet.{most_columns};
ghost use Rattle.rules.specs.Limits.{Printable};
ghost use Rattle.table.specs.Walk.{cells_in, cells_end, first_cell};
ghost use Rattle.laws.proofs.RowBytes.{pairs_of};
ghost use Rattle.row.specs.Height.{cell_height, height_up_to, added_up_to, pairs_held};
ghost use Rattle.row.specs.Alignment.{aligned};
ghost use Rattle.row.specs.Pending.{any_found};
ghost use Rattle.row.specs.Open.{CellKnown, OpenedAt, OpenedRow, Rising, UsableAll, WalkedAll, missing};

use cells::{CellCursor, Next, Wrapping};
use rules::MOST_COLUMNS;
use table::records::{Cells, Lines};
use table::{records, walk};
use visible::VisibleCells;

// Where a line stands in its column.
#[derive(Clone, Copy, PartialEq, Eq, Default)]
pub enum CellAlignment {
    #[default]
    Left,
    Right,
    Center,
}

impl CellAlignment {
    // The sheet's codes are read here alone: 0 chooses none.
    pub fn of(code: u8) -> Option<CellAlignment>
        ensures { (other : CellAlignment) → unwrap_or result other ≡ aligned code other }
    {
        match code {
            0 => None,
            2 => Some(CellAlignment::Right),
            3 => Some(CellAlignment::Center),
            _ => Some(CellAlignment::Left),
        }
    }
}

// A visible column as it is drawn: its number in the sheet, its content width and paddings, and what a cell takes that chooses nothing.
#[derive(Clone, Copy, Default)]
pub struct VisibleColumn {
    pub number: usize,
    pub width: usize,
    pub left: usize,
    pub right: usize,
    pub delimiter: u8,
    pub alignment: CellAlignment,
}

// A cell's pending line: the one that is drawn next, and where the line after it is looked for.
#[derive(Clone, Copy, Default)]
pub struct Pending {
    pub line: Next,
    pub delimiter: u8,
    pub alignment: CellAlignment,
}

// A missing cell at its line n. It is one blank line, which is no part of the sheet.
fn missing_cell(v: VisibleColumn, n: usize, plain: bool) -> Pending
    ensures { result ≡ missing v n plain }
{
    let lines = Lines { at: 0, left: 0 };
    let cursor = CellCursor {
        lines,
        from: 0,
        plain,
    };
    let line = Next {
        found: n == 0,
        start: 0,
        end: 0,
        columns: 0,
        cursor,
    };
    Pending {
        line,
        delimiter: v.delimiter,
        alignment: v.alignment,
    }
}

// What is known of cells stays a clause, here and below: `row_pairs` asks nothing of their texts, so that one type for all would ask it of more. And
// `plain` goes with them, since cells of both kinds are walked by the same code.

// The first of the cells at its line n.
pub fn open_cell(sheet: &[u8], cells: Cells, v: VisibleColumn, n: usize, plain: bool) -> Pending
    requires width_nonzero { (0 < v.width) × Printable v.delimiter }
    requires cells_in_bounds { (cells_end sheet.now cells ≤ length sheet.now) × All (CellKnown plain) (cells_in sheet.now cells) }
    ensures { OpenedAt sheet.now (first_cell sheet.now cells) v n result × (result.line.cursor.plain ≡ plain) }
{
    if cells.left == 0 {
        return missing_cell(v, n, plain);
    }
    let x = walk::cell(sheet, cells);
    let lines = x.lines;
    let delimiter = records::set(x.delimiter).unwrap_or(v.delimiter);
    let alignment = CellAlignment::of(x.alignment).unwrap_or(v.alignment);
    let cell = Wrapping {
        sheet,
        width: v.width,
        delimiter,
    };
    let first = cell.first_line(lines, plain);
    let line = cell.further(first, n);
    Pending {
        line,
        delimiter,
        alignment,
    }
}

// That columns rise stays a clause, here and in the two below: it is what `VisibleCells::new` asks; a walk that is handed over may have begun.

// Every visible column's cell of a row at its line n; whether there is one.
pub fn format_row(
    sheet: &[u8],
    columns: &[VisibleColumn],
    cells: Cells,
    n: usize,
    plain: bool,
    state: &mut [Pending; MOST_COLUMNS],
) -> bool
    requires rising { Rising columns.now × (UsableAll columns.now × (length state.old ≡ most_columns)) }
    requires cells_in_bounds { (cells_end sheet.now cells ≤ length sheet.now) × All (CellKnown plain) (cells_in sheet.now cells) }
    ensures opened { OpenedRow sheet.now (cells_in sheet.now cells) columns.now n state.new
        × (result ≡ any_found state.new (length columns.now)) }
    ensures walked { WalkedAll plain columns.now state.new }
{
    let mut more = false;
    for (i, (v, here)) in VisibleCells::new(sheet, columns, cells).enumerate() {
        let t = open_cell(sheet, here, v, n, plain);
        more |= t.line.found;
        state[i] = t;
    }
    more
}

// The lines of the first of the cells, wrapped. A missing cell is one blank line.
fn open_height(sheet: &[u8], from: Cells, v: VisibleColumn, plain: bool) -> usize
    requires width_nonzero { (0 < v.width) × Printable v.delimiter }
    requires from_in_bounds { (cells_end sheet.now from ≤ length sheet.now) × All (CellKnown plain) (cells_in sheet.now from) }
    ensures { result ≡ cell_height (first_cell sheet.now from) v }
{
    if from.left == 0 {
        return 1;
    }
    let x = walk::cell(sheet, from);
    let lines = x.lines;
    let delimiter = records::set(x.delimiter).unwrap_or(v.delimiter);
    let cell = Wrapping {
        sheet,
        width: v.width,
        delimiter,
    };
    cell.cell_height(lines, plain)
}

// The most lines of a visible column's cell, the row's limit left aside.
pub fn row_height(sheet: &[u8], columns: &[VisibleColumn], from: Cells, plain: bool) -> usize
    requires rising { Rising columns.now × UsableAll columns.now }
    requires from_in_bounds { (cells_end sheet.now from ≤ length sheet.now) × All (CellKnown plain) (cells_in sheet.now from) }
    ensures { result ≡ height_up_to (cells_in sheet.now from) columns.now (length columns.now) }
{
    let mut most: usize = 0;
    for (v, here) in VisibleCells::new(sheet, columns, from) {
        let lines = open_height(sheet, here, v, plain);
        most = most.max(lines);
    }
    most
}

// The pairs of the first of the cells. A missing cell has none.
fn open_pairs(sheet: &[u8], from: Cells) -> usize
    requires { cells_end sheet.now from ≤ length sheet.now }
    ensures { (result ≡ pairs_of (first_cell sheet.now from).lines) × (result ≤ length sheet.now) }
{
    if from.left == 0 {
        return 0;
    }
    let x = walk::cell(sheet, from);
    let lines = x.lines;
    cells::cell_pairs(sheet, lines)
}

// The pairs of a row's cells in the visible columns.
pub fn row_pairs(sheet: &[u8], columns: &[VisibleColumn], from: Cells) -> usize
    requires { Rising columns.now × ((cells_end sheet.now from ≤ length sheet.now) × (length sheet.now ≤ 32768)) }
    ensures { (result ≡ added_up_to pairs_held (cells_in sheet.now from) columns.now (length columns.now))
        × (result ≤ 32768 * length columns.now) }
{
    let mut sum: usize = 0;
    for (_, here) in VisibleCells::new(sheet, columns, from) {
        sum += open_pairs(sheet, here);
    }
    sum
}
