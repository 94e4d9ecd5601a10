// What every line of a page is drawn from, read from an accepted sheet once.
#![tactic(auto)]

pub mod lengths;
pub mod visible_columns;

ghost use Rattle.std.specs.Prelude.{◌≡◌, true, ◌+◌, ◌<◌, []};
ghost use Rattle.rules.specs.Sheet.{most_columns};
ghost use Rattle.arrayvec.specs.ArrayVec.{array_vec_len};
ghost use Rattle.rules.specs.Limits.{PlainTable};
ghost use Rattle.rules.specs.Style as characters;
ghost use Rattle.rules.specs.Style.{style_characters, any_left, any_right, any_junction};
ghost use Rattle.rules.specs.Widths.{contents};
ghost use Rattle.table.specs.Held.{table_of};
ghost use Rattle.table.specs.Walk.{rows_in};
ghost use Rattle.arrangement.specs.Widths.{style_from, arranged_widths};
ghost use Rattle.row.specs.View.{Views};
ghost use Rattle.formatting.specs.RowText.{Marks};
ghost use Rattle.formatting.specs.Stand.{text_style_of};
ghost use Rattle.borders.specs.Rule.{rule_style_of, NarrowAll};
ghost use Rattle.row.specs.Open.{Rising, UsableAll};
ghost use Rattle.display_info.specs.Opened.{styles_of, Opened};
ghost use Rattle.row.proofs.Props.{props};
ghost use Rattle.display_info.specs.Opening.{edges_of, showing};

use crate::lengths::Lengths;
use crate::visible_columns::VisibleColumns;
use arrangement::{Widths, layout};
use borders::RuleStyle;
use buffer::Edges;
use row::{CellAlignment, VisibleColumn};
use rules::{
    BOTTOM_BORDER, CONTENT_LINES, Column, HEADER_LINES, HEADER_RULE, ROW_RULE, STYLE_CHARACTERS,
    TOP_BORDER,
};
use style::column;
use style::table_style::TableStyle;
use table::accepted::AcceptedSheet;
use table::records;
use table::records::Rows;

// How the lines of a row look: its text lines, and the rule after it, if one is visible.
#[derive(Clone, Copy)]
pub struct RowStyle {
    pub lines: Edges,
    pub rule: Option<RuleStyle>,
}

// How the lines of a page look: its rows, and the borders that are visible.
#[derive(Clone, Copy)]
pub struct LineStyles {
    pub top: Option<RuleStyle>,
    pub header: RowStyle,
    pub body: RowStyle,
    pub bottom: Option<RuleStyle>,
}

// What a page over some rows of the sheet is drawn from. On a plain page no cell has a pair, so that each text line has as many bytes as columns.
#[derive(Clone, Copy)]
pub struct DisplayInfo {
    pub plain: bool,
    pub columns: VisibleColumns,
    pub styles: LineStyles,
    pub lengths: Lengths,
    pub header: Rows,
    pub rows: Rows,
}

// An accepted sheet, lent, and what its page is drawn from.
#[derive(Clone, Copy)]
pub struct Page<'a> {
    pub sheet: &'a [u8],
    pub info: DisplayInfo,
    pub ghost opened: { Opened sheet.now info } by { Prim.hlevel props },
}

impl<'a> Page<'a> {
    // What stands behind a text that is cut, a part of the sheet.
    pub fn indicator(&self) -> &'a [u8]
        ensures { Marks self.now.sheet.now result.now }
    {
        AcceptedSheet { bytes: self.sheet }.indicator()
    }
}

// Unset characters print as a space.
fn glyph(c: u8) -> u8
    ensures { result ≡ characters.glyph c }
{
    records::set(c).unwrap_or(b' ')
}

// Those of a line's three edges that are drawn.
fn edges(left: u8, junction: u8, right: u8, opens: bool, joined: bool, closes: bool) -> Edges
    ensures { result ≡ edges_of opens joined closes left junction right }
{
    Edges {
        left: opens.then_some(glyph(left)),
        junction: joined.then_some(glyph(junction)),
        right: closes.then_some(glyph(right)),
    }
}

// A border or a rule, whose four characters begin at k.
fn rule_style(
    b: [u8; STYLE_CHARACTERS],
    k: usize,
    opens: bool,
    joined: bool,
    closes: bool,
) -> RuleStyle
    requires { (k + 3 < style_characters) × ((opens ≡ any_left b) × (closes ≡ any_right b)) }
    ensures { result ≡ rule_style_of b joined k }
{
    RuleStyle {
        edges: edges(b[k], b[k + 2], b[k + 3], opens, joined, closes),
        fill: glyph(b[k + 1]),
    }
}

// Text lines, whose three characters begin at k.
fn text_style(b: [u8; STYLE_CHARACTERS], k: usize, opens: bool, joined: bool, closes: bool) -> Edges
    requires { (k + 2 < style_characters) × ((opens ≡ any_left b) × ((joined ≡ any_junction b) × (closes ≡ any_right b))) }
    ensures { result ≡ text_style_of b k }
{
    edges(b[k], b[k + 1], b[k + 2], opens, joined, closes)
}

// The six kinds of line, once it is known which edges are drawn. Borders put a junction between columns even where no junction is set.
fn styles_by(
    b: [u8; STYLE_CHARACTERS],
    style: TableStyle,
    opens: bool,
    joined: bool,
    closes: bool,
) -> LineStyles
    requires { (style ≡ style_from b) × ((opens ≡ any_left b) × ((joined ≡ any_junction b) × (closes ≡ any_right b))) }
    ensures { result ≡ styles_of b }
{
    let top = rule_style(b, TOP_BORDER, opens, true, closes);
    let header_lines = text_style(b, HEADER_LINES, opens, joined, closes);
    let header_rule = rule_style(b, HEADER_RULE, opens, joined, closes);
    let content_lines = text_style(b, CONTENT_LINES, opens, joined, closes);
    let row_rule = rule_style(b, ROW_RULE, opens, joined, closes);
    let bottom = rule_style(b, BOTTOM_BORDER, opens, true, closes);
    let header = RowStyle {
        lines: header_lines,
        rule: style.has_header_separator().then_some(header_rule),
    };
    let body = RowStyle {
        lines: content_lines,
        rule: style.has_row_separator().then_some(row_rule),
    };
    LineStyles {
        top: style.has_top_border().then_some(top),
        header,
        body,
        bottom: style.has_bottom_border().then_some(bottom),
    }
}

// How the lines of a page look, by the style's characters.
fn styles(b: [u8; STYLE_CHARACTERS]) -> LineStyles
    ensures { result ≡ styles_of b }
{
    let style = layout::style_from(b);
    let opens = style.has_left_border();
    let joined = style.has_vertical_lines();
    let closes = style.has_right_border();
    styles_by(b, style, opens, joined, closes)
}

// Column j behind the visible ones before it, unless it is hidden. Its codes stand in for those that a cell leaves unset.
fn show_column(columns: &mut VisibleColumns, j: usize, c: Column, width: u16, delimiter: u8)
    requires { array_vec_len columns.old < most_columns }
    ensures { columns.new.items ≡ showing columns.old.items j c width delimiter }
{
    if column::is_hidden(&c) {
        return;
    }
    columns.push(VisibleColumn {
        number: j,
        width: usize::from(width),
        left: usize::from(c.left),
        right: usize::from(c.right),
        delimiter: records::set(c.delimiter).unwrap_or(delimiter),
        alignment: CellAlignment::of(c.alignment).unwrap_or(CellAlignment::Left),
    });
}

// The visible columns, from left to right, put where there are none yet. The place is lent: what is returned lies on the stack once more.
fn show_columns(columns: &mut VisibleColumns, sheet: &AcceptedSheet<'_>, widths: Widths)
    requires fresh { columns.old.items ≡ [] }
    requires arranged { widths ≡ arranged_widths (table_of sheet.now.bytes.now) }
    ensures { Views (table_of sheet.now.bytes.now) (contents (table_of sheet.now.bytes.now)) columns.new.items
        × (Rising columns.new.items × (UsableAll columns.new.items × NarrowAll columns.new.items)) }
{
    let head = sheet.settings();
    let delimiter = records::set(head.delimiter).unwrap_or(b' ');
    let found = sheet.columns();
    for (j, &c) in found.iter().enumerate() {
        show_column(columns, j, c, widths.content[j], delimiter);
    }
}

// The content widths of an accepted sheet.
#[tactic(auto, using(arrangement::proofs::Layouts::widths_found))]
pub fn content_widths(sheet: &AcceptedSheet<'_>) -> Widths
    ensures { result ≡ arranged_widths (table_of sheet.now.bytes.now) }
{
    let found = arrangement::arrange_sheet(sheet);
    arrangement::widths_of(&found.layout, &found.course)
}

// The page over all rows of the sheet, by its widths; it may be called plain if the check found it so.
pub fn open_by<'a>(sheet: &AcceptedSheet<'a>, plain: bool, widths: Widths) -> Page<'a>
    requires arranged { widths ≡ arranged_widths (table_of sheet.now.bytes.now) }
    requires plain_table { plain ≡ true → PlainTable (table_of sheet.now.bytes.now) }
    ensures same_sheet { result.sheet.now ≡ sheet.now.bytes.now }
    ensures all_rows { rows_in sheet.now.bytes.now result.info.rows ≡ (table_of sheet.now.bytes.now).rows }
{
    let mut columns = VisibleColumns::new();
    show_columns(&mut columns, sheet, widths);
    let styles = styles(sheet.style());
    let lengths = lengths::measure(columns.as_slice(), styles.body.lines);
    let header = sheet.header();
    let rows = sheet.rows(header);
    Page {
        sheet: sheet.bytes,
        info: DisplayInfo {
            plain,
            columns,
            styles,
            lengths,
            header,
            rows,
        },
    }
}

// The page, once its widths are found.
pub fn open<'a>(sheet: &AcceptedSheet<'a>, plain: bool) -> Page<'a>
    requires { plain ≡ true → PlainTable (table_of sheet.now.bytes.now) }
    ensures same_sheet { result.sheet.now ≡ sheet.now.bytes.now }
    ensures all_rows { rows_in sheet.now.bytes.now result.info.rows ≡ (table_of sheet.now.bytes.now).rows }
{
    open_by(sheet, plain, content_widths(sheet))
}
