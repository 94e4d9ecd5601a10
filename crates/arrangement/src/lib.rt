// The width of each column: comfy-table's `arrangement/mod.rs`.
#![tactic(auto)]

pub mod disabled;
pub mod dynamic;
pub mod layout;

ghost use Rattle.std.specs.Prelude.{◌≡◌};
ghost use Rattle.rules.specs.Widths.{longest_part};
ghost use Rattle.table.specs.Held.{table_of};
ghost use Rattle.arrangement.specs.Arrange.{started, plainly, arranged};
ghost use Rattle.arrangement.specs.Describes.{Describes};
ghost use Rattle.arrangement.specs.Widths.{widths_from};
ghost use Rattle.arrangement.specs.Courses.{FoundIs};

use constraint::column_set::ColumnSet;
use constraint::{Layout, State};
use dynamic::Course;
use rules::MOST_COLUMNS;
use style::column;
use style::table::ContentArrangement;
use table::accepted::AcceptedSheet;

// Content widths and hidden columns: the first `count` are the sheet's, past them they are 0 and not hidden. The arrays are those of the C
// interface's record.
#[derive(Clone, Copy)]
pub struct Widths {
    pub count: usize,
    pub content: [u16; MOST_COLUMNS],
    pub hidden: [bool; MOST_COLUMNS],
}

// The first step for every column.
#[tactic(auto, using(constraint::proofs::Laws::orders))]
fn start(t: &Layout) -> State
    ensures { result ≡ started t.now }
{
    let mut s = State {
        widths: [0u16; MOST_COLUMNS],
        decided: ColumnSet::EMPTY,
        remaining: 0,
        visible: t.count_visible_columns(),
    };
    for (i, c) in t.columns.iter().enumerate() {
        t.evaluate(c, i, &mut s);
    }
    s
}

// Without a target only the first step decides columns before the rest are fixed, and nothing is shared.
fn untargeted(first: ColumnSet, state: State) -> Course
    ensures { result ≡ plainly first state }
{
    let before = state.widths;
    Course {
        first,
        lower: first,
        fitted: first,
        split: first,
        before,
        state,
    }
}

// `Describes` stays a clause of this function and of the two below it: one struct of sheet and layout would be made here and taken apart there.

// A target is made up only where there is one and the arrangement isn't `Disabled`.
#[tactic(auto, using(style::proofs::Laws::disabled_same), unfolding(crate::specs::Arrange::arranged))]
fn arrange(sheet: &AcceptedSheet<'_>, t: &Layout) -> Course
    requires { Describes t.now (table_of sheet.now.bytes.now) }
    ensures { result ≡ arranged (longest_part (table_of sheet.now.bytes.now)) t.now }
{
    let mut s = start(t);
    if t.target.is_none() || t.arrangement == ContentArrangement::Disabled {
        let first = s.decided;
        disabled::arrange(t, &mut s);
        return untargeted(first, s);
    }
    dynamic::arrange(sheet, t, s)
}

// The content width of each column and whether it is hidden, once the widths are arranged: callers skip hidden columns without looking at
// constraints.
pub fn widths_of(t: &Layout, c: &Course) -> Widths
    ensures { result ≡ widths_from t.now c.now }
{
    Widths {
        count: t.columns.len(),
        content: c.state.widths,
        hidden: t.by_column(false, |_, c| column::is_hidden(c)),
    }
}

// The layout that a sheet's widths go by, and the course that they took.
#[derive(Clone, Copy)]
pub struct Found {
    pub layout: Layout,
    pub course: Course,
}

// One run for the widths and for what is told of them.
pub fn arrange_sheet(sheet: &AcceptedSheet<'_>) -> Found
    ensures { FoundIs (table_of sheet.now.bytes.now) result }
{
    let layout = layout::layout(sheet);
    let course = arrange(sheet, &layout);
    Found { layout, course }
}
