// Borders and rules, comfy-table's `borders.rs`: one way of drawing for all four, whose characters differ.
#![tactic(auto)]

ghost use Rattle.std.specs.Prelude.{◌≡◌, ◌++◌, ◌+◌, ◌≤◌, ◌<◌, length};
ghost use Rattle.buffer.specs.Put.{over, put_at, drawn};
ghost use Rattle.borders.specs.Rule.{rule_bytes, NarrowAll, rule_area};

use buffer::Edges;
use row::VisibleColumn;

// The characters of a border or a rule: those at the edges, and the one that fills the columns.
#[derive(Clone, Copy)]
pub struct RuleStyle {
    pub edges: Edges,
    pub fill: u8,
}

// A junction, if one stands before the column, and the column's fill.
fn draw_fill(page: &mut [u8], at: usize, v: VisibleColumn, junction: Option<u8>, fill: u8) -> usize
    requires right_bound { v.left + (v.width + v.right) < 65536 }
    requires right_in_bounds { at + (length (drawn junction) + (v.left + (v.width + v.right))) ≤ length page.old }
    ensures value { result ≡ at + (length (drawn junction) + (v.left + (v.width + v.right))) }
    ensures page_after { page.new ≡ put_at page.old at (drawn junction ++ rule_area v fill) }
{
    let p = buffer::draw_edge(page, at, junction);
    buffer::fill(page, p, v.left + (v.width + v.right), fill)
}

// A border or a rule at the start of the page.
pub fn draw_line(page: &mut [u8], columns: &[VisibleColumn], style: RuleStyle) -> usize
    requires narrow_all { NarrowAll columns.now }
    requires style_in_bounds { length (rule_bytes columns.now style) ≤ length page.old }
    ensures value { result ≡ length (rule_bytes columns.now style) }
    ensures page_after { page.new ≡ over (rule_bytes columns.now style) page.old }
{
    let mut at = buffer::draw_edge(page, 0, style.edges.left);
    for (i, &v) in columns.iter().enumerate() {
        let junction = buffer::joins_before(i, style.edges.junction);
        at = draw_fill(page, at, v, junction, style.fill);
    }
    let e = buffer::draw_edge(page, at, style.edges.right);
    page[e] = 10;
    e + 1
}
