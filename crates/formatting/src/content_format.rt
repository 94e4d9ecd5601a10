// The text lines of a row, drawn one after another. A cell's next wrapped line is found one line ahead, so that each is found once.
ghost use Rattle.std.specs.Prelude.{◌≡◌, ◌++◌, true, not, ◌&&◌, ◌+◌, ◌-◌, ◌≤◌, ◌<◌, length, drop, leb};
ghost use Rattle.rules.specs.Limits.{most_lines, longest_line, Plain, Printable};
ghost use Rattle.rules.specs.Text.{text_width};
ghost use Rattle.rules.specs.Sheet.{most_columns};
ghost use Rattle.rules.specs.Page.{before};
ghost use Rattle.table.specs.Walk.{first_row};
ghost use Rattle.buffer.specs.Put.{over, put_at, drawn};
ghost use Rattle.cells.specs.Cell.{Inside};
ghost use Rattle.formatting.specs.Area.{area_in, marks_shown, LineIn, ShownIs, shown_text, After, column_piece};
ghost use Rattle.row.specs.Alignment.{code_of};
ghost use Rattle.row.specs.Height.{added_up_to};
ghost use Rattle.row.specs.Open.{WalkedAll};
ghost use Rattle.row.proofs.Props.{props};
ghost use Rattle.row.specs.Pending.{InSheet, Ready, any_found};
ghost use Rattle.formatting.specs.Line.{line_bytes, ReadyAll, AfterAll};
ghost use Rattle.formatting.specs.Stand.{in_limit, last_of};
ghost use Rattle.formatting.specs.Part.{PartIs};
ghost use Rattle.formatting.specs.RowText.{Drawable, row_lines, EnteredIs, most_bytes, Sized, Marks};
ghost use Rattle.formatting.specs.Shown.{pairs_shown};

use buffer::Edges;
use cells::{CellCursor, Next, Wrapping};
use row::{CellAlignment, Pending, VisibleColumn};
use rules::MOST_COLUMNS;
use table::records::{Lines, Rows};
use table::walk;
use text_width::Text;

// The spaces left of a text that leaves some columns free.
fn spaces_before(alignment: CellAlignment, spare: usize) -> usize
    ensures { (result ≡ before (code_of alignment) spare) × (result ≤ spare) }
{
    match alignment {
        CellAlignment::Left => 0,
        CellAlignment::Right => spare,
        CellAlignment::Center => spare - spare / 2,
    }
}

// A column's area: padding, a part of the sheet and of the indicator, aligned, padding. They leave `spare` columns free.
fn align_line(
    page: &mut [u8],
    at: usize,
    text: &[u8],
    marks: &[u8],
    v: VisibleColumn,
    alignment: CellAlignment,
    spare: usize,
) -> usize
    requires spare { spare ≡ v.width - text_width (text.now ++ marks.now) }
    requires marks_in_bounds { at + length (area_in v alignment (text.now ++ marks.now)) ≤ length page.old }
    ensures value { result ≡ at + length (area_in v alignment (text.now ++ marks.now)) }
    ensures page_after { page.new ≡ put_at page.old at (area_in v alignment (text.now ++ marks.now)) }
{
    let b = spaces_before(alignment, spare);
    let p = buffer::fill(page, at, v.left + b, 32);
    let q = buffer::copy(page, p, text);
    let m = buffer::copy(page, q, marks);
    buffer::fill(page, m, spare - b + v.right, 32)
}

// An indicator wider than the content is dropped.
pub fn marks_shown(cut: bool, count: usize, width: usize) -> usize
    ensures { (result ≡ marks_shown cut count width) × ((result ≤ count) × (result ≤ width)) }
{
    if cut {
        if count <= width {
            return count;
        }
    }
    0
}

// Where a cell's line ends as it is shown, and its columns.
#[derive(Clone, Copy)]
pub struct Shown {
    pub end: usize,
    pub columns: usize,
}

// A cell's line shortened to `width` columns. A line with as many columns as bytes has no pair that a cut could fall into.
pub fn shorten(text: &[u8], line: Next, width: usize) -> Shown
    requires { LineIn text.now line }
    ensures { ShownIs text.now line width result }
{
    let start = line.start;
    if line.columns <= width {
        return Shown {
            end: line.end,
            columns: line.columns,
        };
    }
    if line.columns == line.end - start {
        return Shown {
            end: start + width,
            columns: width,
        };
    }
    let place = Text::unknown(text).reach(start, width);
    Shown {
        end: place.at,
        columns: width,
    }
}

// The area of a cell's line; where the cell is cut, the line is shortened until it and the indicator fit.
fn draw_cell(
    page: &mut [u8],
    at: usize,
    sheet: &[u8],
    v: VisibleColumn,
    t: Pending,
    indicator: &[u8],
    cut: bool,
) -> usize
    requires in_sheet { InSheet sheet.now v.width t × Plain indicator.now }
    requires t_in_bounds { at + length (area_in v t.alignment (shown_text sheet.now v.width indicator.now cut t)) ≤ length page.old }
    ensures value { result ≡ at + length (area_in v t.alignment (shown_text sheet.now v.width indicator.now cut t)) }
    ensures page_after { page.new ≡ put_at page.old at
        (area_in v t.alignment (shown_text sheet.now v.width indicator.now cut t)) }
{
    let width = v.width;
    let m = marks_shown(cut, indicator.len(), width);
    let line = t.line;
    let cursor = line.cursor;
    let lines = cursor.lines;
    let text = cells::line_at(sheet, lines);
    let shown = shorten(text, line, width - m);
    let start = line.start;
    let end = shown.end;
    align_line(
        page,
        at,
        &text[start..end],
        &indicator[..m],
        v,
        t.alignment,
        width - m - shown.columns,
    )
}

// The same line, field by field. Copied as a whole it takes its padding along, and a page of short lines takes half as long again.
fn copied(l: Next) -> Next
    ensures { result ≡ l }
{
    let c = l.cursor;
    let lines = Lines {
        at: c.lines.at,
        left: c.lines.left,
    };
    let cursor = CellCursor {
        lines,
        from: c.from,
        plain: c.plain,
    };
    Next {
        found: l.found,
        start: l.start,
        end: l.end,
        columns: l.columns,
        cursor,
    }
}

// The cell's next line.
pub fn advance(sheet: &[u8], width: usize, t: Pending) -> Pending
    requires { Inside sheet.now t.line.cursor × ((0 < width) × Printable t.delimiter) }
    ensures { After sheet.now width t result }
{
    let cell = Wrapping {
        sheet,
        width,
        delimiter: t.delimiter,
    };
    let next = cell.next_line(t.line.cursor);
    Pending {
        line: copied(next),
        delimiter: t.delimiter,
        alignment: t.alignment,
    }
}

// Where a column's area ends, and the cell's next line.
#[derive(Clone, Copy)]
pub struct Drawn {
    pub at: usize,
    pub pending: Pending,
}

// What a column adds to a line: a junction, if one stands before it, and its area. The last line that the limit leaves is cut if another follows.
fn draw_column(
    page: &mut [u8],
    at: usize,
    sheet: &[u8],
    v: VisibleColumn,
    t: Pending,
    indicator: &[u8],
    last: bool,
    junction: Option<u8>,
) -> Drawn
    requires ready { Ready sheet.now v t × Plain indicator.now }
    requires last_in_bounds { at + (length (drawn junction) + length (column_piece sheet.now v t indicator.now last)) ≤ length page.old }
    ensures place { (result.at ≡ at + (length (drawn junction) + length (column_piece sheet.now v t indicator.now last)))
        × After sheet.now v.width t result.pending }
    ensures page_after { page.new ≡ put_at page.old at
        (drawn junction ++ column_piece sheet.now v t indicator.now last) }
{
    let next = advance(sheet, v.width, t);
    let cut = last & next.line.found;
    let p = buffer::draw_edge(page, at, junction);
    let q = draw_cell(page, p, sheet, v, t, indicator, cut);
    Drawn {
        at: q,
        pending: next,
    }
}

// What was written, and whether a cell has a line after it: in both cases something was written, so that the flag is no `Option`.
#[derive(Clone, Copy)]
pub struct Lined {
    pub written: usize,
    pub more: bool,
}

// A text line at the start of the page, and each cell's next line in the place of the one that is drawn.
fn write_line(
    page: &mut [u8],
    sheet: &[u8],
    columns: &[VisibleColumn],
    indicator: &[u8],
    style: Edges,
    last: bool,
    state: &mut [Pending; MOST_COLUMNS],
) -> Lined
    requires ready_all { ReadyAll sheet.now columns.now state.old × Plain indicator.now }
    requires last_in_bounds { length (line_bytes sheet.now columns.now indicator.now style state.old last)
        ≤ length page.old }
    ensures written { result.written ≡ length (line_bytes sheet.now columns.now indicator.now style
        state.old last) }
    ensures after_all { AfterAll sheet.now columns.now state.old state.new
        × (result.more ≡ any_found state.new (length columns.now)) }
    ensures page_after { page.new ≡ over (line_bytes sheet.now columns.now indicator.now
        style state.old last) page.old }
{
    let mut more = false;
    let mut at = buffer::draw_edge(page, 0, style.left);
    for (i, &v) in columns.iter().enumerate() {
        let junction = buffer::joins_before(i, style.junction);
        let d = draw_column(page, at, sheet, v, state[i], indicator, last, junction);
        at = d.at;
        more |= d.pending.line.found;
        state[i] = d.pending;
    }
    let e = buffer::draw_edge(page, at, style.right);
    page[e] = 10;
    Lined {
        written: e + 1,
        more,
    }
}

// A row has a line if the limit leaves it and a cell has it.
pub fn has_line(limit: usize, line: usize, found: bool) -> bool
    ensures { result ≡ (in_limit limit line && found) }
{
    if limit == 0 {
        return found;
    }
    if limit <= line {
        return false;
    }
    found
}

// The last line that the limit leaves.
pub fn is_last(limit: usize, line: usize) -> bool
    requires { line ≤ most_lines }
    ensures { result ≡ last_of limit line }
{
    line + 1 == limit
}

// A row's limit, and whether the row has the line that is asked for; the limit holds in both cases.
#[derive(Clone, Copy)]
pub struct Entered {
    pub limit: usize,
    pub more: bool,
}

// The first of some rows, with what its lines are drawn from.
#[derive(Clone, Copy)]
pub struct DrawableRow<'a> {
    pub sheet: &'a [u8],
    pub columns: &'a [VisibleColumn],
    pub here: Rows,
    pub plain: bool,
    pub ghost drawable: { Drawable sheet.now columns.now plain here } by { Prim.hlevel props },
}

// Lines that were written, their bytes, and whether they were all that were asked for; the counts hold in both cases.
#[derive(Clone, Copy)]
pub struct Part {
    pub lines: usize,
    pub bytes: usize,
    pub whole: bool,
}

// The most bytes that a text line takes: on a plain page `size`, on others up to 100 more for each column, and no more than twice as many.
// The lesser is taken before the test: after it, drawing is compiled otherwise, and pages of short lines take a tenth longer.
fn most_bytes(plain: bool, size: usize, count: usize) -> usize
    requires { (size ≤ longest_line + 1) × (count ≤ most_columns) }
    ensures { result ≡ most_bytes plain size count }
{
    let pairs = size.min(100 * count);
    if plain {
        return size;
    }
    size + pairs
}

impl<'a> DrawableRow<'a> {
    // The row's cells at its line n.
    pub fn enter(&self, n: usize, state: &mut [Pending; MOST_COLUMNS]) -> Entered
        requires { length state.old ≡ most_columns }
        ensures entered { EnteredIs self.now.sheet.now self.now.columns.now (first_row self.now.sheet.now self.now.here) n result state.new }
        ensures walked { WalkedAll self.now.plain self.now.columns.now state.new }
    {
        let r = walk::row(self.sheet, self.here);
        let cells = r.cells;
        let found = row::format_row(self.sheet, self.columns, cells, n, self.plain, state);
        Entered {
            limit: r.limit,
            more: has_line(r.limit, n, found),
        }
    }

    // Whether line `line` fits, where the most that a line takes wouldn't.
    fn fits_after_all(&self, indicator: &[u8], line: usize, size: usize, room: usize) -> bool
        requires { Plain indicator.now × ((line ≤ most_lines) × (size ≤ longest_line + 1)) }
        ensures { result ≡ (not self.now.plain && leb (size + added_up_to
            (pairs_shown indicator.now (first_row self.now.sheet.now self.now.here).limit line 1)
            (first_row self.now.sheet.now self.now.here).cells self.now.columns.now (length self.now.columns.now)) room) }
    {
        if self.plain {
            return false;
        }
        let pairs = self.shown(indicator, line, line + 1);
        size + pairs <= room
    }

    // The text lines from line `first` on, as many as the page has room for. On a plain page each takes `size` bytes, its 0A included.
    pub fn draw(
        &self,
        page: &mut [u8],
        indicator: &[u8],
        style: Edges,
        first: usize,
        size: usize,
    ) -> Part
        requires marks { Marks self.now.sheet.now indicator.now }
        requires sized { Sized self.now.sheet.now style (first_row self.now.sheet.now self.now.here) self.now.plain self.now.columns.now size }
        ensures { PartIs (drop first (row_lines self.now.sheet.now style (first_row self.now.sheet.now self.now.here))) page.old page.new result }
    {
        let mut state = [Pending::default(); MOST_COLUMNS];
        let entered = self.enter(first, &mut state);
        let limit = entered.limit;
        let most = most_bytes(self.plain, size, self.columns.len());
        let mut more = entered.more;
        let mut at: usize = 0;
        let mut line = first;
        // Kept: whether there is a next line is found with each, and how many were written is the answer.
        while more {
            let last = is_last(limit, line);
            let room = page.len() - at;
            if room < most {
                let fits = self.fits_after_all(indicator, line, size, room);
                if !fits {
                    return Part {
                        lines: line - first,
                        bytes: at,
                        whole: false,
                    };
                }
            }
            let (sheet, columns) = (self.sheet, self.columns);
            let l = write_line(
                &mut page[at..],
                sheet,
                columns,
                indicator,
                style,
                last,
                &mut state,
            );
            at += l.written;
            line += 1;
            more = has_line(limit, line, l.more);
        }
        Part {
            lines: line - first,
            bytes: at,
            whole: true,
        }
    }
}
