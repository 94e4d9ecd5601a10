// How long a page's lines are.
ghost use Rattle.std.specs.Prelude.{◌≡◌, is_some, cond, ◌*◌, ◌≤◌, length};
ghost use Rattle.borders.specs.Rule.{NarrowAll};
ghost use Rattle.display_info.specs.Lengths.{width_up_to, measured};

use buffer::Edges;
use row::VisibleColumn;

// How long lines are, without their 0A: text lines in columns and rules, and borders.
#[derive(Clone, Copy)]
pub struct Lengths {
    pub line: usize,
    pub border: usize,
}

// A count where a character is drawn.
fn where_drawn(edge: Option<u8>, n: usize) -> usize
    ensures { (result ≡ cond (is_some edge) n 0) × (result ≤ n) }
{
    if edge.is_some() { n } else { 0 }
}

// The visible widths of the columns.
fn visible_width(columns: &[VisibleColumn]) -> usize
    requires { NarrowAll columns.now }
    ensures { (result ≡ width_up_to columns.now (length columns.now)) × (result ≤ 65536 * length columns.now) }
{
    let mut sum: usize = 0;
    for v in columns {
        sum += v.left + (v.width + v.right);
    }
    sum
}

// How long the lines of these columns are, where text lines have these edges.
pub fn measure(columns: &[VisibleColumn], edges: Edges) -> Lengths
    requires { NarrowAll columns.now }
    ensures { result ≡ measured columns.now edges }
{
    let inside = columns.len().saturating_sub(1);
    let ends = where_drawn(edges.left, 1) + where_drawn(edges.right, 1);
    let sum = visible_width(columns);
    let line = ends + where_drawn(edges.junction, inside) + sum;
    let border = ends + inside + sum;
    Lengths { line, border }
}
