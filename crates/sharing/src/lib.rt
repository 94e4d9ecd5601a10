// Step 4, what the columns' widths end with: `distribute_remaining_space` and `use_full_width` of comfy-table's `arrangement/dynamic.rs`.
#![tactic(auto)]

ghost use Rattle.std.specs.Prelude.{◌≡◌, ◌≤◌, ◌<◌};
ghost use Rattle.constraint.specs.Widths.{undecided};
ghost use Rattle.sharing.specs.Limits.{Small};
ghost use Rattle.sharing.specs.Share.{share, distributed, filled, finished};

use constraint::{Layout, State};
use style::column;
use style::column::ContentWidth;
use style::table::ContentArrangement;

// Part k of n shared evenly: the first parts take the excess.
fn share_of(n: u16, parts: u16, k: u16) -> u16
    requires { 0 < parts }
    ensures { (result ≡ share n parts k) × (result ≤ n) }
{
    let base = n / parts;
    if k < n % parts { base + 1 } else { base }
}

// Step 4, with columns left: each gets at least 1.
#[tactic(auto, using(constraint::proofs::Laws::orders), unfolding(crate::specs::Share::sharing, crate::specs::Share::distributed))]
fn distribute_remaining_space(t: &Layout, s: &mut State)
    requires { 0 < undecided s.old }
    ensures { s.new ≡ distributed t.now s.old }
{
    let parts = s.undecided();
    let total = s.remaining.max(parts);
    let mut given = 0;
    for (i, c) in t.columns.iter().enumerate() {
        if s.is_decided(c, i) {
            continue;
        }
        s.fix_column(i, ContentWidth(share_of(total, parts, given)));
        given += 1;
    }
}

// Step 4, with none left: every visible column is widened.
#[tactic(auto, using(constraint::proofs::Laws::orders, crate::proofs::Shares::widened_ahead), unfolding(crate::specs::Share::widening, crate::specs::Share::filled))]
fn use_full_width(t: &Layout, s: &mut State)
    requires { Small s.old }
    ensures { s.new ≡ filled t.now s.old }
{
    let parts = s.visible;
    if parts == 0 {
        return;
    }
    let total = s.remaining;
    let mut given = 0;
    for (i, c) in t.columns.iter().enumerate() {
        if column::is_hidden(c) {
            continue;
        }
        s.widths[i] += share_of(total, parts, given);
        given += 1;
    }
}

// Step 4.
#[tactic(auto, using(style::proofs::Laws::full_same), unfolding(crate::specs::Share::finished))]
pub fn finish(t: &Layout, s: &mut State)
    requires { Small s.old }
    ensures { s.new ≡ finished t.now s.old }
{
    if s.undecided() > 0 {
        distribute_remaining_space(t, s);
    } else if t.arrangement == ContentArrangement::DynamicFullWidth {
        use_full_width(t, s);
    }
}
