// The step that set each column's width, told from the columns that were decided after each step: document 02, order 5.
#![tactic(auto)]

ghost use Rattle.std.specs.Prelude.{◌≡◌, ◌≤◌, ◌<◌, pos, ◌-ℤ◌};
ghost use Rattle.rules.specs.Limits.{longest_line};
ghost use Rattle.rules.specs.Sheet.{most_columns};
ghost use Rattle.table.specs.Held.{table_of};
ghost use Rattle.constraint.specs.Widths.{bound, column, visible};
ghost use Rattle.width_steps.specs.Steps.{untargeted_by, fitted_by, targeted_by, step_by, steps_by, widened_by, widened_all_by, report_of};

use arrangement::Widths;
use arrangement::dynamic::Course;
use constraint::Layout;
use rules::{Column, MOST_COLUMNS, WidthStep};
use style::column;
use style::column::{ConstraintWidth, ContentWidth};
use style::table::ContentArrangement;
use table::accepted::AcceptedSheet;

// Padding isn't counted in this test.
fn untargeted_step(n: ContentWidth, b: Option<ConstraintWidth>) -> WidthStep
    ensures { result ≡ untargeted_by n.0 (bound b) }
{
    match b {
        Some(w) if w.0 < n.0 => WidthStep::UntargetedUpper,
        _ => WidthStep::UntargetedLongest,
    }
}

// Step 2 takes an upper bound that the longest reaches, and else the longest: the average has no part in which of them.
fn fitted_step(c: &Column, n: ContentWidth, b: Option<ConstraintWidth>) -> WidthStep
    ensures { result ≡ fitted_by c.now n.0 (bound b) }
{
    let full = u32::from(n.0) + u32::from(column::padding_width(c));
    match b {
        Some(w) if u32::from(w.0) <= full => WidthStep::UpperBound,
        _ => WidthStep::LongestWithinAverage,
    }
}

// The first of steps 1 to 3 after which column c, which has number i, is decided, or step 4.
// Here and below the number stays: the sets of decided columns and the arrays are asked by it.
#[tactic(auto, unfolding(crate::specs::Steps::targeted_by))]
fn targeted_step(t: &Layout, v: u16, c: &Column, i: usize, a: &Course) -> WidthStep
    requires { (i < most_columns) × (c.now ≡ column t.now i) × (v ≡ visible t.now) }
    ensures { result ≡ targeted_by t.now a.now i }
{
    if a.lower.contains(i) {
        return WidthStep::LowerBound;
    }
    if a.fitted.contains(i) {
        return fitted_step(c, ContentWidth(t.longest[i]), t.max(c, v));
    }
    if a.split.contains(i) {
        return WidthStep::SplitPart;
    }
    WidthStep::EvenShare
}

// A hidden column names none; the first step is the same with and without a target.
#[tactic(auto, using(style::proofs::Laws::disabled_same), unfolding(crate::specs::Steps::step_by))]
fn step_of(t: &Layout, v: u16, c: &Column, i: usize, a: &Course) -> WidthStep
    requires { (i < most_columns) × (c.now ≡ column t.now i) × (v ≡ visible t.now) }
    ensures { result ≡ step_by t.now a.now i }
{
    if column::is_hidden(c) {
        return WidthStep::NoStep;
    }
    if a.first.contains(i) {
        return WidthStep::FirstConstraint;
    }
    if t.target.is_none() || t.arrangement == ContentArrangement::Disabled {
        return untargeted_step(ContentWidth(t.longest[i]), t.max(c, v));
    }
    targeted_step(t, v, c, i, a)
}

fn steps(t: &Layout, a: &Course) -> [u8; MOST_COLUMNS]
    ensures { result ≡ steps_by t.now a.now }
{
    let v = t.count_visible_columns();
    t.by_column(0, |i, c| u8::from(step_of(t, v, c, i, a)))
}

// To a column that is decided before it step 4 gives nothing but its share of the remainder.
#[tactic(auto, unfolding(crate::specs::Steps::widened_by))]
fn is_widened(c: &Column, i: usize, a: &Course) -> bool
    requires { i < most_columns }
    ensures { result ≡ widened_by c.now a.now i }
{
    if column::is_hidden(c) {
        return false;
    }
    a.split.contains(i) && a.before[i] < a.state.widths[i]
}

fn widened_columns(t: &Layout, a: &Course) -> [bool; MOST_COLUMNS]
    ensures { result ≡ widened_all_by t.now a.now }
{
    t.by_column(false, |i, c| is_widened(c, i, a))
}

// The report on an accepted sheet's widths; the widths and the target are what its lines are measured by. The arrays are those of the C
// interface's record.
#[derive(Clone, Copy)]
pub struct Report {
    pub widths: Widths,
    pub target: u16,
    pub step: [u8; MOST_COLUMNS],
    pub widened: [bool; MOST_COLUMNS],
}

// One run finds the widths and the report.
pub fn explain(sheet: &AcceptedSheet<'_>) -> Report
    ensures { result ≡ report_of (table_of sheet.now.bytes.now) }
{
    let found = arrangement::arrange_sheet(sheet);
    let t = &found.layout;
    let a = &found.course;
    Report {
        widths: arrangement::widths_of(t, a),
        target: t.target.unwrap_or(0),
        step: steps(t, a),
        widened: widened_columns(t, a),
    }
}

// The target less the longest line: below zero where the page overruns.
pub fn difference(target: u16, longest: usize) -> i32
    requires { longest ≤ longest_line }
    ensures { result ≡ pos target -ℤ pos longest }
{
    i32::from(target) - longest as i32
}
