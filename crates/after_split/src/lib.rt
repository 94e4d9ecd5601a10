// What a column would need after a split: `longest_line_after_split` of comfy-table's `arrangement/dynamic.rs`, a function for each of
// its loops. No text is copied: each line is the part of the sheet that holds it.
#![tactic(auto)]

ghost use Rattle.std.specs.Prelude.{◌≡◌, ◌+◌, ◌<◌, max, ltb};
ghost use Rattle.rules.specs.Text.{or_else};
ghost use Rattle.rules.specs.Sheet.{column_at};
ghost use Rattle.rules.specs.Widths.{shorter_by3, longest_part};
ghost use Rattle.table.specs.Held.{table_of};
ghost use Rattle.table.specs.Walk.{lines_in};
ghost use Rattle.content_split.specs.Cut.{Sound};
ghost use Rattle.after_split.specs.Known.{LinesKnown, CellsKnown, RowsKnown};
ghost use Rattle.after_split.specs.Trial.{of_line, of_lines, Enough, RowTried, RowsTried};

use content_split::SplitText;
use rules::Column;
use table::accepted::AcceptedSheet;
use table::records::{Cells, Lines, Rows};
use table::{records, walk};
use text_width::Text;

// The longest part that was found, and where the walk stands.
#[derive(Clone, Copy)]
pub struct Tried {
    pub longest: usize,
    pub end: usize,
}

// Where a cell sets no delimiter: the column's, else the table's, else a blank.
fn delimiter(sheet: &AcceptedSheet<'_>, c: &Column) -> u8
    ensures { result ≡ or_else c.now.delimiter (or_else (table_of sheet.now.bytes.now).delimiter 32) }
{
    let table = sheet.settings();
    records::set(c.delimiter).unwrap_or(records::set(table.delimiter).unwrap_or(b' '))
}

// A line of no more columns than the average isn't split. Where it has as many columns as bytes, no pair is in it. Below an average of 3
// no split pays, and no line is looked at.
fn longest_part_of_line(line: &[u8], average: usize, delimiter: u8) -> usize
    requires { (0 < average) × Sound delimiter line.now 0 }
    ensures { result ≡ of_line average delimiter line.now }
{
    let n = Text::unknown(line).columns(0, line.len());
    if n <= average {
        return n;
    }
    let text = Text {
        bytes: line,
        plain: n == line.len(),
    };
    let split = SplitText {
        text,
        width: average,
        delimiter,
    };
    split.longest_part()
}

// The longest so far, or a part of another line. No text has more columns than bytes: a line of so few bytes isn't counted.
fn longer(longest: usize, line: &[u8], average: usize, delimiter: u8) -> usize
    requires { (0 < average) × Sound delimiter line.now 0 }
    ensures { result ≡ max longest (of_line average delimiter line.now) }
{
    if line.len() <= longest {
        return longest;
    }
    longest.max(longest_part_of_line(line, average, delimiter))
}

// Splitting pays only if it saves three columns: with such a part it doesn't, whatever the others are.
fn saves_too_little(average: usize, longest: usize) -> bool
    ensures { result ≡ ltb average (longest + 3) }
{
    if average < longest {
        return true;
    }
    average - longest < 3
}

// The lines after such a part aren't split. What was found before is handed on, so that few lines are counted.
fn longest_part_of_lines(
    sheet: &[u8],
    lines: Lines,
    average: usize,
    delimiter: u8,
    before: usize,
) -> usize
    requires { LinesKnown sheet.now delimiter lines }
    ensures { Enough average (max before (of_lines average delimiter (lines_in sheet.now lines))) result }
{
    let mut longest = before;
    let mut c = lines;
    while 0 < c.left {
        if saves_too_little(average, longest) {
            return longest;
        }
        let line = walk::line(sheet, c);
        longest = longer(longest, line, average, delimiter);
        c = walk::next_line(sheet, c);
    }
    longest
}

// A row that is short has no cell in the column. After such a part the row's end isn't looked for.
fn longest_part_of_row(
    sheet: &[u8],
    cells: Cells,
    column: usize,
    average: usize,
    otherwise: u8,
    before: usize,
) -> Tried
    requires { CellsKnown sheet.now otherwise cells }
    ensures { RowTried sheet.now cells column average otherwise before result }
{
    let c = walk::skip_cells(sheet, cells, column);
    if c.left == 0 {
        return Tried {
            longest: before,
            end: c.at,
        };
    }
    let cell = walk::cell(sheet, c);
    let lines = cell.lines;
    let longest = longest_part_of_lines(
        sheet,
        lines,
        average,
        records::set(cell.delimiter).unwrap_or(otherwise),
        before,
    );
    if saves_too_little(average, longest) {
        return Tried { longest, end: c.at };
    }
    let last = walk::skip_cells(sheet, c, c.left);
    Tried {
        longest,
        end: last.at,
    }
}

// The rows after such a part aren't walked.
fn longest_part_of_rows(
    sheet: &[u8],
    rows: Rows,
    column: usize,
    average: usize,
    otherwise: u8,
) -> Tried
    requires { RowsKnown sheet.now otherwise rows }
    ensures { RowsTried sheet.now rows column average otherwise result }
{
    let mut longest: usize = 0;
    let mut c = rows;
    // Kept: the row that was tried says where the next one is.
    while 0 < c.left {
        let row = walk::row(sheet, c);
        let cells = row.cells;
        let found = longest_part_of_row(sheet, cells, column, average, otherwise, longest);
        if saves_too_little(average, found.longest) {
            return found;
        }
        longest = found.longest;
        c = Rows {
            at: found.end,
            left: c.left - 1,
        };
    }
    Tried { longest, end: c.at }
}

// The longest part of the column's lines, over header and rows, split at the average; or one that saves too little as well.
pub fn longest_line_after_split(
    sheet: &AcceptedSheet<'_>,
    c: &Column,
    column: usize,
    average: u16,
) -> u16
    requires { c.now ≡ column_at (table_of sheet.now.bytes.now) column }
    ensures { shorter_by3 result average ≡ shorter_by3 (longest_part (table_of sheet.now.bytes.now) column average) average }
{
    let otherwise = delimiter(sheet, c);
    let a = usize::from(average);
    let header = sheet.header();
    let first = longest_part_of_rows(sheet.bytes, header, column, a, otherwise);
    if saves_too_little(a, first.longest) {
        return first.longest as u16;
    }
    let behind = Rows {
        at: first.end,
        left: 0,
    };
    let rows = sheet.rows(behind);
    let others = longest_part_of_rows(sheet.bytes, rows, column, a, otherwise);
    first.longest.max(others.longest) as u16
}
