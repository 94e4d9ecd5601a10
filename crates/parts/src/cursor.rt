// A cursor over the parts of a page, in the order of comfy-table's `draw_borders` and `draw_rows`: the top border, the header with its rule, each row
// with the rule after it, the bottom border. What is kept between two parts is a row and a line in it.
ghost use Rattle.std.specs.Prelude.{◌≡◌, ◌+◌, ◌≤◌};
ghost use Rattle.rules.specs.Limits.{most_lines};
ghost use Rattle.display_info.specs.Opened.{RowsAt};
ghost use Rattle.parts.specs.Ahead.{is_end, AfterRow, Next, first_cursor, further_on};

use table::records::Rows;
use table::walk;

// The part that comes next.
#[derive(Clone, Copy)]
pub enum Stage {
    Top,
    Header,
    Body,
    Bottom,
    End,
}

// The part that comes next, the rows still to come, and the next line's number in the part.
#[derive(Clone, Copy)]
pub struct Cursor {
    pub stage: Stage,
    pub here: Rows,
    pub line: usize,
}

// Before the first part of a page over these rows.
pub fn first(rows: Rows) -> Cursor
    ensures { result ≡ first_cursor rows }
{
    start(Stage::Top, rows)
}

// No part comes next.
pub fn is_end(c: Cursor) -> bool
    ensures { result ≡ is_end c.stage }
{
    matches!(c.stage, Stage::End)
}

// The same part, n lines further.
pub fn further(c: Cursor, n: usize) -> Cursor
    requires { c.line + n ≤ most_lines }
    ensures { result ≡ further_on c n }
{
    Cursor {
        line: c.line + n,
        ..c
    }
}

// Before a part's first line.
fn start(stage: Stage, here: Rows) -> Cursor
    ensures { result ≡ record { stage = stage; here = here; line = 0 } }
{
    Cursor {
        stage,
        here,
        line: 0,
    }
}

// After the first of the rows: the next one, or the bottom border.
fn after_row(sheet: &[u8], here: Rows) -> Cursor
    requires { RowsAt sheet.now here }
    ensures { AfterRow sheet.now here result }
{
    if here.left <= 1 {
        return start(Stage::Bottom, here);
    }
    start(Stage::Body, walk::next_row(sheet, here))
}

// Before the next part.
pub fn next(sheet: &[u8], c: Cursor) -> Cursor
    requires { RowsAt sheet.now c.here }
    ensures { Next sheet.now c result }
{
    match c.stage {
        Stage::Top => start(Stage::Header, c.here),
        Stage::Header => start(Stage::Body, c.here),
        Stage::Body => after_row(sheet, c.here),
        Stage::Bottom => start(Stage::End, c.here),
        Stage::End => start(Stage::End, c.here),
    }
}
