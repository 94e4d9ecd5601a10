// The pairs that lines of a row show, which is what they have more than columns. A cell is walked by itself: it is compiled apart from what draws, which
// stays short.
ghost use Rattle.std.specs.Prelude.{◌≡◌, ◌+◌, ◌-◌, ◌*◌, ◌≤◌, ◌<◌, length};
ghost use Rattle.rules.specs.Text.{All, text_width};
ghost use Rattle.rules.specs.Limits.{most_lines, Plain, Printable};
ghost use Rattle.table.specs.Walk.{cells_in, cells_end, first_cell, first_row};
ghost use Rattle.row.specs.Height.{added_up_to};
ghost use Rattle.row.specs.Open.{CellKnown};
ghost use Rattle.row.specs.Pending.{Ready};
ghost use Rattle.formatting.specs.Area.{shown_text};
ghost use Rattle.formatting.specs.Shown.{pairs_shown};

use crate::content_format;
use crate::content_format::DrawableRow;
use row::visible::VisibleCells;
use row::{Pending, VisibleColumn};
use table::records::Cells;
use table::walk;

// The pairs of a cell's line as it is shown.
fn shown_pairs(sheet: &[u8], v: VisibleColumn, t: Pending, indicator: &[u8], cut: bool) -> usize
    requires { Ready sheet.now v t × (Plain indicator.now × (length sheet.now ≤ 32768)) }
    ensures { (result ≡ length (shown_text sheet.now v.width indicator.now cut t)
        - text_width (shown_text sheet.now v.width indicator.now cut t))
        × (result ≤ 32768) }
{
    let width = v.width;
    let m = content_format::marks_shown(cut, indicator.len(), width);
    let line = t.line;
    let cursor = line.cursor;
    let lines = cursor.lines;
    let text = cells::line_at(sheet, lines);
    let shown = content_format::shorten(text, line, width - m);
    shown.end - line.start - shown.columns
}

// The pairs that the first of some cells shows from line `first` up to line `end`.
fn cell_shown(
    sheet: &[u8],
    cells: Cells,
    v: VisibleColumn,
    indicator: &[u8],
    limit: usize,
    first: usize,
    end: usize,
    plain: bool,
) -> usize
    requires width_nonzero { ((0 < v.width) × Printable v.delimiter) × (Plain indicator.now × (length sheet.now ≤ 32768)) }
    requires cells_in_bounds { (cells_end sheet.now cells ≤ length sheet.now) × All (CellKnown plain) (cells_in sheet.now cells) }
    requires first_le_end { (first ≤ end) × (end ≤ most_lines + 1) }
    ensures { (result ≡ pairs_shown indicator.now limit first (end - first) (first_cell sheet.now cells) v)
        × (result ≤ 32768 * (most_lines + 1)) }
{
    let mut t = row::open_cell(sheet, cells, v, first, plain);
    let mut n: usize = 0;
    for j in first..end {
        if !content_format::has_line(limit, j, t.line.found) {
            return n;
        }
        let u = content_format::advance(sheet, v.width, t);
        let cut = content_format::is_last(limit, j) & u.line.found;
        n += shown_pairs(sheet, v, t, indicator, cut);
        t = u;
    }
    n
}

impl<'a> DrawableRow<'a> {
    // The pairs that the row shows from line `first` up to line `end`.
    pub fn shown(&self, indicator: &[u8], first: usize, end: usize) -> usize
        requires { Plain indicator.now × ((first ≤ end) × (end ≤ most_lines + 1)) }
        ensures { (result ≡ added_up_to
            (pairs_shown indicator.now (first_row self.now.sheet.now self.now.here).limit first (end - first))
            (first_row self.now.sheet.now self.now.here).cells self.now.columns.now (length self.now.columns.now))
            × (result ≤ (32768 * (most_lines + 1)) * length self.now.columns.now) }
    {
        let (sheet, columns, plain) = (self.sheet, self.columns, self.plain);
        let r = walk::row(sheet, self.here);
        let limit = r.limit;
        let cells = r.cells;
        let mut sum: usize = 0;
        for (v, here) in VisibleCells::new(sheet, columns, cells) {
            sum += cell_shown(sheet, here, v, indicator, limit, first, end, plain);
        }
        sum
    }
}
