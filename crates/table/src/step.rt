// One step of a pass over the cell lines of an accepted sheet: from the end of the last line taken, over the heads that follow, to the end of
// the next line. A step is lent only what stands behind the last line, so that it can't read a byte before that.
ghost use Rattle.std.specs.Prelude.{◌≡◌, ◌-◌, ◌<◌, max, length};
ghost use Rattle.rules.specs.Text.{text_width};
ghost use Rattle.rules.specs.Sheet.{most_columns};
ghost use Rattle.rules.specs.Widths.{lifted};
ghost use Rattle.table.specs.Step.{ahead, Ready, SameAhead, HeadIs, Takes, StepIs, AllNarrow};

use rules::MOST_COLUMNS;
use text_width::Text;

// What is left behind a line: the lines of its cell, the cells of its row, the rows of its section, and the section of rows behind the header.
// `begun` counts the row's cells up to the line's own, so that the next one is in column `begun`.
#[derive(Clone, Copy)]
pub struct Left {
    pub sections: usize,
    pub rows: usize,
    pub cells: usize,
    pub begun: usize,
    pub lines: usize,
}

// Where a step stands in the rest of the sheet, and what is left there.
#[derive(Clone, Copy)]
pub struct Stand {
    pub at: usize,
    pub left: Left,
}

// A line that was taken: in the rest of the sheet that the step was given, its length byte is at `at` and its text ends at `end`; `longest` is
// the longest of its column's lines up to it.
#[derive(Clone, Copy)]
pub struct Taken {
    pub at: usize,
    pub end: usize,
    pub column: usize,
    pub longest: u16,
    pub left: Left,
}

// A cell's head: delimiter, alignment and line count.
fn cell_head(rest: &[u8], at: usize, c: Left) -> Stand
    requires { Ready rest.now at c × ((c.lines ≡ 0) × (0 < c.cells)) }
    ensures { SameAhead rest.now at c result × (at < result.at) }
{
    let lines = usize::from(rest[at + 2]);
    Stand {
        at: at + 3,
        left: Left {
            cells: c.cells - 1,
            begun: c.begun + 1,
            lines,
            ..c
        },
    }
}

// A row's head: height limit and cell count.
fn row_head(rest: &[u8], at: usize, c: Left) -> Stand
    requires { Ready rest.now at c × ((c.lines ≡ 0) × ((c.cells ≡ 0) × (0 < c.rows))) }
    ensures { SameAhead rest.now at c result × (at < result.at) }
{
    let cells = usize::from(rest[at + 1]);
    Stand {
        at: at + 2,
        left: Left {
            rows: c.rows - 1,
            cells,
            begun: 0,
            lines: 0,
            ..c
        },
    }
}

// A section's head: its row count.
fn section_head(rest: &[u8], at: usize, c: Left) -> Stand
    requires { Ready rest.now at c × ((c.lines ≡ 0) × ((c.cells ≡ 0) × ((c.rows ≡ 0) × (0 < c.sections)))) }
    ensures { SameAhead rest.now at c result × (at < result.at) }
{
    let rows = usize::from(rest[at]);
    Stand {
        at: at + 1,
        left: Left {
            sections: c.sections - 1,
            rows,
            cells: 0,
            begun: 0,
            lines: 0,
        },
    }
}

// The head of what comes next: of a cell, else of a row, else of a section.
fn pass_head(rest: &[u8], p: Stand) -> Option<Stand>
    requires { Ready rest.now p.at p.left × (p.left.lines ≡ 0) }
    ensures { HeadIs rest.now p.at p.left result }
{
    let c = p.left;
    if 0 < c.cells {
        return Some(cell_head(rest, p.at, c));
    }
    if 0 < c.rows {
        return Some(row_head(rest, p.at, c));
    }
    if 0 < c.sections {
        return Some(section_head(rest, p.at, c));
    }
    None
}

// The longest of some lines and another one, an empty one counting 1. No text has more characters than bytes, so that few lines are counted.
fn longer(longest: u16, line: &[u8]) -> u16
    requires { length line.now < 256 }
    ensures { result ≡ max longest (lifted (text_width line.now)) }
{
    let bytes = line.len();
    if bytes.max(1) <= usize::from(longest) {
        return longest;
    }
    let characters = Text::unknown(line).columns(0, bytes);
    longest.max(characters.max(1) as u16)
}

// The line that begins where the step stands.
fn take_line(rest: &[u8], p: Stand, longest: &[u16; MOST_COLUMNS]) -> Taken
    requires { Ready rest.now p.at p.left × ((0 < p.left.lines) × (p.left.begun - 1 < most_columns)) }
    ensures { Takes rest.now longest.now p.at p.left result }
{
    let at = p.at;
    let c = p.left;
    let start = at + 1;
    let end = start + usize::from(rest[at]);
    let j = c.begun - 1;
    let found = longer(longest[j], &rest[start..end]);
    Taken {
        at,
        end,
        column: j,
        longest: found,
        left: Left {
            lines: c.lines - 1,
            ..c
        },
    }
}

// The next line, if there is one. Heads are passed up to it, and a row without cells by its head.
pub fn step(rest: &[u8], left: Left, longest: &[u16; MOST_COLUMNS]) -> Option<Taken>
    requires { Ready rest.now 0 left × AllNarrow (ahead rest.now 0 left) }
    ensures { StepIs rest.now left longest.now result }
{
    let mut p = Stand { at: 0, left };
    // Kept: no index is counted; heads are passed until one has lines, or there is none.
    while p.left.lines == 0 {
        p = pass_head(rest, p)?;
    }
    Some(take_line(rest, p, longest))
}
