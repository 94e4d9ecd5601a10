// Widths without a target, or with `Disabled`: comfy-table's `arrangement/disabled.rs`.
ghost use Rattle.std.specs.Prelude.{◌≡◌};
ghost use Rattle.constraint.specs.Widths.{bound, pass};
ghost use Rattle.arrangement.specs.Arrange.{trimmed, untargeted};

use constraint::{Layout, State};
use rules::Column;
use style::column;
use style::column::{ConstraintWidth, ContentWidth};

// The longest, or an upper bound that is below it; padding isn't counted in this test.
fn trimmed_width(c: &Column, n: ContentWidth, b: Option<ConstraintWidth>) -> ContentWidth
    ensures { result.0 ≡ trimmed c.now n.0 (bound b) }
{
    b.filter(|w| w.0 < n.0)
        .map_or(n, |w| column::absolute_width_with_padding(c, w))
}

// Without a target, or with `Disabled`: every undecided column is fixed.
#[tactic(auto, using(constraint::proofs::Laws::orders), unfolding(constraint::specs::Widths::step, crate::specs::Arrange::untargeted))]
pub fn arrange(t: &Layout, s: &mut State)
    ensures { s.new ≡ pass untargeted t.now s.old }
{
    for (i, c) in t.columns.iter().enumerate() {
        if s.is_decided(c, i) {
            continue;
        }
        let n = ContentWidth(t.longest[i]);
        s.fix_column(i, trimmed_width(c, n, t.max(c, s.visible)));
    }
}
