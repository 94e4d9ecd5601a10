// A part of a page: how many lines it has, and the part drawn from one of its lines on, for as many lines as there is room for.
ghost use Rattle.std.specs.Prelude.{◌≡◌, ◌+◌, ◌-◌, ◌≤◌, ◌<◌, length, drop};
ghost use Rattle.table.specs.Walk.{rows_in, first_row};
ghost use Rattle.formatting.specs.Part.{PartIs};
ghost use Rattle.borders.specs.Rule.{NarrowAll};
ghost use Rattle.display_info.specs.Opened.{RowsAt};
ghost use Rattle.parts.specs.Band.{rule_by, SizedRule, band_lines, body_style, SizedBand};
ghost use Rattle.parts.specs.Part.{RowOf, lines_in, PartKnown, PartAt};
ghost use Rattle.row.specs.Height.{limited};
ghost use Rattle.formatting.specs.RowText.{row_height};

use crate::cursor::{Cursor, Stage};
use borders::RuleStyle;
use display_info::{Page, RowStyle};
use formatting::content_format::{DrawableRow, Part};
use row::VisibleColumn;
use table::records::Rows;
use table::walk;

// A part by the styles that it is drawn with: a border, if it is visible, or the first of some rows with the rule after it.
#[derive(Clone, Copy)]
pub enum PagePart {
    Border(Option<RuleStyle>),
    Band(RowStyle, Rows),
}

// The rows' style: no rule stands after the last of them.
pub fn body_style(style: RowStyle, left: usize) -> RowStyle
    ensures { result ≡ body_style style left }
{
    RowStyle {
        rule: style.rule.filter(|_| 1 < left),
        ..style
    }
}

// The lines that a row's limit leaves, 0 being none.
fn within_limit(limit: usize, lines: usize) -> usize
    ensures { result ≡ limited limit lines }
{
    if limit == 0 {
        return lines;
    }
    limit.min(lines)
}

// The text lines of a row.
pub fn row_lines(row: &DrawableRow<'_>) -> usize
    ensures { result ≡ row_height row.now.sheet.now (first_row row.now.sheet.now row.now.here) }
{
    let r = walk::row(row.sheet, row.here);
    let cells = r.cells;
    let most = row::row_height(row.sheet, row.columns, cells, row.plain);
    within_limit(r.limit, most)
}

// The first of some rows of the page.
pub fn row_of<'a>(p: &'a Page<'_>, here: Rows) -> DrawableRow<'a>
    requires { RowsAt p.now.sheet.now here × (0 < here.left) }
    ensures { RowOf p.now.sheet.now p.now.info here result }
{
    DrawableRow {
        sheet: p.sheet,
        columns: p.info.columns.as_slice(),
        here,
        plain: p.info.plain,
    }
}

// The lines of the first of some rows and of the rule after it.
fn band_lines(p: &Page<'_>, style: RowStyle, here: Rows) -> usize
    requires { RowsAt p.now.sheet.now here }
    ensures { result ≡ length (band_lines p.now.sheet.now p.now.info.columns.items style (rows_in p.now.sheet.now here)) }
{
    if here.left == 0 {
        return 0;
    }
    row_lines(&row_of(p, here)) + usize::from(style.rule.is_some())
}

fn nothing(whole: bool) -> Part
    ensures { result ≡ record { lines = 0; bytes = 0; whole = whole } }
{
    Part {
        lines: 0,
        bytes: 0,
        whole,
    }
}

// A border or a rule, if there is one. It takes `size` bytes, its 0A included.
fn draw_rule(
    page: &mut [u8],
    columns: &[VisibleColumn],
    style: Option<RuleStyle>,
    size: usize,
) -> Part
    requires { NarrowAll columns.now × SizedRule columns.now style size }
    ensures { PartIs (rule_by columns.now style) page.old page.new result }
{
    let style = match style {
        Some(style) => style,
        None => return nothing(true),
    };
    if page.len() < size {
        return nothing(false);
    }
    let bytes = borders::draw_line(page, columns, style);
    Part {
        lines: 1,
        bytes,
        whole: true,
    }
}

// The first of some rows with the rule after it, from line `first` on.
fn draw_band(
    page: &mut [u8],
    p: &Page<'_>,
    style: RowStyle,
    here: Rows,
    first: usize,
    size: usize,
) -> Part
    requires known { RowsAt p.now.sheet.now here
        × SizedBand p.now.sheet.now p.now.info.columns.items style (rows_in p.now.sheet.now here) p.now.info.plain size }
    requires first_in_bounds { first ≤ length (band_lines p.now.sheet.now p.now.info.columns.items style (rows_in p.now.sheet.now here)) - 1 }
    ensures { PartIs (drop first (band_lines p.now.sheet.now p.now.info.columns.items style (rows_in p.now.sheet.now here)))
        page.old page.new result }
{
    if here.left == 0 {
        return nothing(true);
    }
    let row = row_of(p, here);
    let text = row.draw(page, p.indicator(), style.lines, first, size);
    if !text.whole {
        return text;
    }
    let at = text.bytes;
    let drawn = draw_rule(&mut page[at..], row.columns, style.rule, size);
    Part {
        lines: text.lines + drawn.lines,
        bytes: at + drawn.bytes,
        whole: drawn.whole,
    }
}

impl PagePart {
    // The part that the cursor stands before.
    pub fn at(p: &Page<'_>, c: Cursor) -> PagePart
        requires { RowsAt p.now.sheet.now c.here }
        ensures { PartAt p.now.sheet.now p.now.info c result }
    {
        let styles = p.info.styles;
        match c.stage {
            Stage::Top => PagePart::Border(styles.top),
            Stage::Header => PagePart::Band(styles.header, p.info.header),
            Stage::Body => PagePart::Band(body_style(styles.body, c.here.left), c.here),
            Stage::Bottom => PagePart::Border(styles.bottom),
            Stage::End => PagePart::Border(None),
        }
    }

    // How many lines it has.
    pub fn lines(self, p: &Page<'_>) -> usize
        requires { PartKnown p.now.sheet.now p.now.info self }
        ensures { result ≡ length (lines_in p.now.sheet.now p.now.info self) }
    {
        match self {
            PagePart::Border(rule) => usize::from(rule.is_some()),
            PagePart::Band(style, here) => band_lines(p, style, here),
        }
    }

    // The part drawn, from line `first` on.
    pub fn draw(self, page: &mut [u8], p: &Page<'_>, first: usize) -> Part
        requires known { PartKnown p.now.sheet.now p.now.info self }
        requires first_in_bounds { first ≤ length (lines_in p.now.sheet.now p.now.info self) - 1 }
        ensures { PartIs (drop first (lines_in p.now.sheet.now p.now.info self)) page.old page.new result }
    {
        let lengths = p.info.lengths;
        match self {
            PagePart::Border(rule) => {
                draw_rule(page, p.info.columns.as_slice(), rule, lengths.border + 1)
            }
            PagePart::Band(style, here) => {
                draw_band(page, p, style, here, first, lengths.line + 1)
            }
        }
    }
}
