// Widths that are to make up a target: comfy-table's `arrangement/dynamic.rs`.
ghost use Rattle.std.specs.Prelude.{◌≡◌, ◌<◌, Bool, false, eqb, ⊤};
ghost use Rattle.constraint.specs.declared.Layout.{Layout};
ghost use Rattle.constraint.specs.declared.State.{State};
ghost use Rattle.constraint.specs.Widths.{bound, offered, column, average, Rule};
ghost use Rattle.arrangement.specs.Arrange.{charged, remaining, raised, capped, lower_rule, fit_rule, split_rule, turn, repeated, step1, step2, step3};
ghost use Rattle.arrangement.specs.Arrange.{dynamic, started};
ghost use Rattle.arrangement.specs.Describes.{Describes};
ghost use Rattle.rules.specs.Sheet.{most_columns};
ghost use Rattle.rules.specs.Widths.{within_average, shorter_by3, longest_part};
ghost use Rattle.table.specs.Held.{table_of};

use constraint::column_set::ColumnSet;
use constraint::{Layout, State};
use rules::{Column, MOST_COLUMNS};
use style::column;
use style::column::{ConstraintWidth, ContentWidth};
use table::accepted::AcceptedSheet;

// What a column takes off the remaining width: its padding, and its width if it is decided.
#[tactic(auto, unfolding(crate::specs::Arrange::charged))]
fn charge(c: &Column, width: Option<u16>, r: u16) -> u16
    ensures { result ≡ charged c.now width r }
{
    if column::is_hidden(c) {
        return r;
    }
    r.saturating_sub(width.unwrap_or(0))
        .saturating_sub(column::padding_width(c))
}

// What the columns leave of the target.
#[tactic(auto, using(constraint::proofs::Laws::orders))]
fn remaining_width(t: &Layout, s: &State) -> u16
    ensures { result ≡ remaining t.now s.now }
{
    let mut r = t.room(s.visible).unwrap_or(0);
    for (i, c) in t.columns.iter().enumerate() {
        let width = s.decided.contains(i).then_some(s.widths[i]);
        r = charge(c, width, r);
    }
    r
}

// A lower bound, padding counted, is compared with the average as it stands.
fn raised_offer(a: u16, c: &Column, b: Option<ConstraintWidth>) -> Option<ContentWidth>
    ensures { offered result ≡ raised a c.now (bound b) }
{
    b.filter(|w| a < w.0)
        .map(|w| column::absolute_width_with_padding(c, w))
}

#[tactic(auto, unfolding(rules::specs::Widths::within_average))]
fn short_offer(a: u16, n: ContentWidth) -> Option<ContentWidth>
    ensures { offered result ≡ within_average n.0 a }
{
    (n.0 <= a).then_some(n)
}

// An upper bound that the content reaches and the average allows comes before the longest.
fn fitting_offer(
    a: u16,
    c: &Column,
    n: ContentWidth,
    b: Option<ConstraintWidth>,
) -> Option<ContentWidth>
    ensures { offered result ≡ capped a c.now n.0 (bound b) }
{
    let most = u32::from(a.min(n.0)) + u32::from(column::padding_width(c));
    match b {
        Some(w) if u32::from(w.0) <= most => Some(column::absolute_width_with_padding(c, w)),
        _ => short_offer(a, n),
    }
}

// Splitting pays only if it saves three columns.
#[tactic(auto, unfolding(rules::specs::Widths::shorter_by3))]
fn split_offer(a: u16, n: ContentWidth) -> Option<ContentWidth>
    ensures { offered result ≡ shorter_by3 n.0 a }
{
    (u32::from(n.0) + 3 <= u32::from(a)).then_some(n)
}

// One of steps 1 to 3: passes over the columns, in which each undecided one is made an offer by the average of the moment.
trait Step {
    // what has to hold of the layout
    ghost fits: { Self → Layout → Type 0 };

    ghost ended: { State → Bool };

    ghost rule: { Self → Rule };

    // No pass begins.
    fn has_ended(&self, s: &State) -> bool
        ensures { result ≡ ended s.now };

    // The number stays beside the column: the longest line is asked by it, and so are the parts of split lines.
    fn offer(&self, t: &Layout, c: &Column, i: usize, s: &State) -> Option<ContentWidth>
        requires { (i < most_columns) × (c.now ≡ column t.now i) × fits self.now t.now }
        ensures { offered result ≡ rule self.now t.now i s.now };
}

#[derive(Drop)]
struct LowerBoundaries;

impl Step for LowerBoundaries {
    ghost fits = { λ step t. ⊤ };

    ghost ended = { λ s. false };

    ghost rule = { λ step. lower_rule };

    fn has_ended(&self, _s: &State) -> bool {
        false
    }

    #[tactic(auto, unfolding(crate::specs::Arrange::lower_rule))]
    fn offer(&self, t: &Layout, c: &Column, i: usize, s: &State) -> Option<ContentWidth> {
        raised_offer(s.average_space(), c, t.min(c, s.visible))
    }
}

#[derive(Drop)]
struct FitsAverage;

impl Step for FitsAverage {
    ghost fits = { λ step t. ⊤ };

    ghost ended = { λ s. eqb (average s) 0 };

    ghost rule = { λ step. fit_rule };

    // There is no room for one more character in a column.
    fn has_ended(&self, s: &State) -> bool {
        s.average_space() == 0
    }

    #[tactic(auto, unfolding(crate::specs::Arrange::fit_rule))]
    fn offer(&self, t: &Layout, c: &Column, i: usize, s: &State) -> Option<ContentWidth> {
        let n = ContentWidth(t.longest[i]);
        fitting_offer(s.average_space(), c, n, t.max(c, s.visible))
    }
}

#[derive(Drop)]
struct AfterSplit<'a> {
    sheet: &'a AcceptedSheet<'a>,
}

impl<'a> Step for AfterSplit<'a> {
    ghost fits = { λ step t. Describes t (table_of step.sheet.now.bytes.now) };

    ghost ended = { λ s. false };

    ghost rule = { λ step. split_rule (longest_part (table_of step.sheet.now.bytes.now)) };

    fn has_ended(&self, _s: &State) -> bool {
        false
    }

    #[tactic(auto, unfolding(crate::specs::Arrange::split_rule))]
    fn offer(&self, t: &Layout, c: &Column, i: usize, s: &State) -> Option<ContentWidth> {
        let a = s.average_space();
        let n = after_split::longest_line_after_split(self.sheet, c, i, a);
        split_offer(a, ContentWidth(n))
    }
}

// A column that is fixed changes the average for those after it.
#[tactic(auto, using(constraint::proofs::Laws::orders), unfolding(constraint::specs::Widths::step))]
fn pass<S: Step>(step: &S, t: &Layout, s: &mut State)
    requires { S.fits step.now t.now }
    ensures { s.new ≡ turn S.ended (S.rule step.now) t.now s.old }
{
    if step.has_ended(s) {
        return;
    }
    for (i, c) in t.columns.iter().enumerate() {
        if s.is_decided(c, i) {
            continue;
        }
        let offer = step.offer(t, c, i, s);
        s.take(i, offer);
    }
}

// A pass that fixed a column is repeated, since the average may have changed.
#[tactic(auto, using(crate::proofs::Rounds::rounds))]
fn repeat<S: Step>(step: &S, t: &Layout, s: &mut State)
    requires { S.fits step.now t.now }
    ensures { s.new ≡ repeated (turn S.ended (S.rule step.now) t.now) s.old }
{
    // The set has room for every column, so passes that fix one come to an end.
    prove!(t.columns.len() <= MOST_COLUMNS);
    // The numbers are compared and not the sets: a number that is read is known to fit its type.
    let mut before = s.decided.0;
    let mut again = true;
    // Kept: no index is counted; whether another pass follows is found by what this one changed.
    while again {
        pass(step, t, s);
        again = s.decided.0 != before;
        before = s.decided.0;
    }
}

// Step 1. A column that is fixed can bring the average below another lower bound.
fn enforce_lower_boundary_constraints(t: &Layout, s: &mut State)
    ensures { s.new ≡ step1 t.now s.old }
{
    repeat(&LowerBoundaries, t, s);
}

// Step 2. What a short column leaves raises the average for the others.
fn find_columns_that_fit_into_average(t: &Layout, s: &mut State)
    ensures { s.new ≡ step2 t.now s.old }
{
    repeat(&FitsAverage, t, s);
}

// Step 3. A column that needs less than the average once its lines are split leaves the others more.
fn optimize_space_after_split(sheet: &AcceptedSheet<'_>, t: &Layout, s: &mut State)
    requires { Describes t.now (table_of sheet.now.bytes.now) }
    ensures { s.new ≡ step3 (longest_part (table_of sheet.now.bytes.now)) t.now s.old }
{
    repeat(&AfterSplit { sheet }, t, s);
}

// How the widths came about: the visible columns that were decided after the first step and after each of steps 1 to 3, the widths before step 4,
// and the state in the end.
#[derive(Clone, Copy)]
pub struct Course {
    pub first: ColumnSet,
    pub lower: ColumnSet,
    pub fitted: ColumnSet,
    pub split: ColumnSet,
    pub before: [u16; MOST_COLUMNS],
    pub state: State,
}

// The widths from the first step on, which must make up the target as well as they can.
#[tactic(auto, using(crate::proofs::Arranged::small_held))]
pub fn arrange(sheet: &AcceptedSheet<'_>, t: &Layout, mut s: State) -> Course
    requires { Describes t.now (table_of sheet.now.bytes.now) × (s ≡ started t.now) }
    ensures { result ≡ dynamic (longest_part (table_of sheet.now.bytes.now)) t.now s }
{
    s.remaining = remaining_width(t, &s);
    let first = s.decided;
    enforce_lower_boundary_constraints(t, &mut s);
    let lower = s.decided;
    find_columns_that_fit_into_average(t, &mut s);
    let fitted = s.decided;
    optimize_space_after_split(sheet, t, &mut s);
    let split = s.decided;
    let before = s.widths;
    sharing::finish(t, &mut s);
    Course {
        first,
        lower,
        fitted,
        split,
        before,
        state: s,
    }
}
