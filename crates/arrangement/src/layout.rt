// What the widths of a sheet's columns depend on, read from it once.
ghost use Rattle.std.specs.Prelude.{◌≡◌, ◌+◌, ◌<◌};
ghost use Rattle.rules.specs.Style.{style_characters};
ghost use Rattle.style.specs.Table.{target_of};
ghost use Rattle.table.specs.Held.{table_of};
ghost use Rattle.arrangement.specs.Describes.{Describes};
ghost use Rattle.arrangement.specs.Widths.{line_from, content_from, style_from};

use constraint::Layout;
use rules::{
    BOTTOM_BORDER, CONTENT_LINES, HEADER_LINES, HEADER_RULE, ROW_RULE, STYLE_CHARACTERS, TOP_BORDER,
};
use style::table::ContentArrangement;
use style::table_style::{ContentLineStyle, LineStyle, TableStyle};
use table::accepted::AcceptedSheet;

// Kept beside `content_from`: a line of four characters and one of three are two records of the Rust, which share nothing but the array they are read of.
fn line_from(b: [u8; STYLE_CHARACTERS], k: usize) -> LineStyle
    requires { k + 3 < style_characters }
    ensures { result ≡ line_from b k }
{
    LineStyle {
        left: b[k],
        fill: b[k + 1],
        junction: b[k + 2],
        right: b[k + 3],
    }
}

fn content_from(b: [u8; STYLE_CHARACTERS], k: usize) -> ContentLineStyle
    requires { k + 2 < style_characters }
    ensures { result ≡ content_from b k }
{
    ContentLineStyle {
        left: b[k],
        junction: b[k + 1],
        right: b[k + 2],
    }
}

// The style record of the sheet's characters.
pub fn style_from(b: [u8; STYLE_CHARACTERS]) -> TableStyle
    ensures { result ≡ style_from b }
{
    let top_border = line_from(b, TOP_BORDER);
    let header_lines = content_from(b, HEADER_LINES);
    let header_separator = line_from(b, HEADER_RULE);
    let content_lines = content_from(b, CONTENT_LINES);
    let row_separator = line_from(b, ROW_RULE);
    let bottom_border = line_from(b, BOTTOM_BORDER);
    TableStyle {
        top_border,
        header_lines,
        header_separator,
        content_lines,
        row_separator,
        bottom_border,
    }
}

// A target of 0 is none.
#[tactic(auto, unfolding(style::specs::Table::target_of))]
fn target_from(width: u16) -> Option<u16>
    ensures { result ≡ target_of width }
{
    (width != 0).then_some(width)
}

// The settings and columns by value, so that a changed copy of them can be arranged as well.
#[tactic(auto, using(crate::proofs::Layouts::longest_held), unfolding(table::specs::Held::settings_of, table::specs::Held::columns_of))]
pub fn layout(sheet: &AcceptedSheet<'_>) -> Layout
    ensures { Describes result (table_of sheet.now.bytes.now) }
{
    let head = sheet.settings();
    let style = style_from(sheet.style());
    let longest = sheet.longest();
    Layout {
        arrangement: ContentArrangement::from(head.arrangement),
        target: target_from(head.target),
        left: style.has_left_border(),
        right: style.has_right_border(),
        junction: style.has_vertical_lines(),
        columns: sheet.columns(),
        longest,
    }
}
