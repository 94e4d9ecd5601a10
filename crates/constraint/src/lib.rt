// Constraints, bounds and the state of an arrangement: comfy-table's `arrangement/helper.rs` and `constraint.rs`.
#![tactic(auto)]

pub mod column_set;

ghost use Rattle.std.specs.Prelude.{ℕ, ◌≡◌, ◌<◌, false};
ghost use Rattle.constraint.specs.Set.{contains};
ghost use Rattle.constraint.specs.Widths.{visible, borders, room, percent, bound, offered, value, lower, upper, undecided, average, first_of, Asks, Tells, by_column};
ghost use Rattle.constraint.specs.Widths.{decided, fixed, taking, evaluated};
ghost use Rattle.rules.specs.Sheet.{most_columns};

use column_set::ColumnSet;
use rules::{Column, MOST_COLUMNS};
use style::column;
use style::column::{ColumnConstraint, ConstraintWidth, ContentWidth, Width};
use style::columns::Columns;
use style::table::ContentArrangement;

// What the widths depend on, beside the parts that cell lines split into. There is no heap: columns and longest lines have room for the most
// columns.
#[derive(Clone, Copy)]
pub struct Layout {
    pub arrangement: ContentArrangement,
    pub target: Option<u16>,
    pub left: bool,
    pub right: bool,
    pub junction: bool,
    pub columns: Columns,
    pub longest: [u16; MOST_COLUMNS],
}

// The widths that are being found, and the set of decided visible columns.
#[derive(Clone, Copy)]
pub struct State {
    pub widths: [u16; MOST_COLUMNS],
    pub decided: ColumnSet,
    pub remaining: u16,
    pub visible: u16,
}

// More than 100 percent is 100: the product can't exceed the room.
pub fn percent_of(room: u16, p: u16) -> u16
    ensures { result ≡ percent room p }
{
    (u32::from(room) * u32::from(p.min(100)) / 100) as u16
}

impl Layout {
    // The divisor of the average is counted from these.
    #[tactic(auto, using(crate::proofs::Laws::visible_counted))]
    pub fn count_visible_columns(&self) -> u16
        ensures { result ≡ visible self.now }
    {
        self.columns
            .iter()
            .filter(|c| !column::is_hidden(*c))
            .count() as u16
    }

    // What f answers for each column, and `blank` past the columns.
    #[tactic(auto, using(crate::proofs::Laws::orders))]
    pub fn by_column<T: Copy, F: Fn(usize, &Column) -> T>(
        &self,
        blank: T,
        f: F,
    ) -> [T; MOST_COLUMNS]
        requires { Asks self.now (F.pre f) }
        ensures { (g : ℕ → T) → Tells self.now (F.post f) g → result ≡ by_column self.now blank g }
    {
        let mut each = [blank; MOST_COLUMNS];
        // By the number: of a zip with `iter_mut` a proof knows nothing of what was written.
        for (i, c) in self.columns.iter().enumerate() {
            each[i] = f(i, c);
        }
        each
    }

    // Junctions stand between visible columns only.
    pub fn count_border_columns(&self, v: u16) -> usize
        ensures { result ≡ borders self.now v }
    {
        let between = if self.junction {
            v.saturating_sub(1)
        } else {
            0
        };
        usize::from(self.left) + usize::from(self.right) + usize::from(between)
    }

    // What the target leaves beside the borders.
    pub fn room(&self, v: u16) -> Option<u16>
        ensures { result ≡ room self.now v }
    {
        let borders = self.count_border_columns(v);
        self.target
            .map(|w| usize::from(w).saturating_sub(borders) as u16)
    }

    // A percent of no target is no width.
    pub fn absolute_value_from_width(&self, w: Width, v: u16) -> Option<ConstraintWidth>
        ensures { bound result ≡ value self.now v w }
    {
        match w {
            Width::Fixed(n) => Some(ConstraintWidth(n)),
            Width::Percentage(p) => self
                .room(v)
                .map(|room| ConstraintWidth(percent_of(room, p))),
        }
    }

    // The lower bound.
    #[tactic(auto, unfolding(crate::specs::Widths::lower, rules::specs::Widths::lower_width, style::specs::Column::constraint_of))]
    pub fn min(&self, c: &Column, v: u16) -> Option<ConstraintWidth>
        ensures { bound result ≡ lower self.now v c.now }
    {
        match ColumnConstraint::of(c)? {
            ColumnConstraint::Boundaries { lower: w, .. } | ColumnConstraint::LowerBoundary(w) => {
                self.absolute_value_from_width(w, v)
            }
            _ => None,
        }
    }

    // The upper bound.
    #[tactic(auto, unfolding(crate::specs::Widths::upper, rules::specs::Widths::upper_width, style::specs::Column::constraint_of))]
    pub fn max(&self, c: &Column, v: u16) -> Option<ConstraintWidth>
        ensures { bound result ≡ upper self.now v c.now }
    {
        match ColumnConstraint::of(c)? {
            ColumnConstraint::Boundaries { upper: w, .. } | ColumnConstraint::UpperBoundary(w) => {
                self.absolute_value_from_width(w, v)
            }
            _ => None,
        }
    }

    #[tactic(auto, unfolding(crate::specs::Widths::first_of, crate::specs::Widths::lower, rules::specs::Widths::lower_width, rules::specs::Widths::covering, style::specs::Column::constraint_of))]
    fn first_offer(&self, c: &Column, n: ContentWidth, v: u16) -> Option<ContentWidth>
        ensures { offered result ≡ first_of self.now c.now n.0 v }
    {
        match ColumnConstraint::of(c)? {
            ColumnConstraint::ContentWidth => Some(n),
            ColumnConstraint::Absolute(w) => self
                .absolute_value_from_width(w, v)
                .map(|w| column::absolute_width_with_padding(c, w)),
            _ => {
                let full = u32::from(n.0) + u32::from(column::padding_width(c));
                self.min(c, v)
                    .filter(|w| full <= u32::from(w.0))
                    .map(|w| column::absolute_width_with_padding(c, w))
            }
        }
    }

    // The first step: what a constraint settles without knowing the other columns. A hidden column is never in the set.
    // The number stays beside the column: longest lines, widths and the set are asked by it.
    #[tactic(auto, unfolding(crate::specs::Widths::evaluated))]
    pub fn evaluate(&self, c: &Column, i: usize, s: &mut State)
        requires { i < most_columns }
        ensures { s.new ≡ evaluated self.now c.now i s.old }
    {
        let n = self.longest[i];
        if column::is_hidden(c) {
            s.widths[i] = n.max(1);
            return;
        }
        if s.decided.contains(i) {
            return;
        }
        let offer = self.first_offer(c, ContentWidth(n), s.visible);
        s.take(i, offer);
    }
}

impl State {
    pub fn undecided(&self) -> u16
        ensures { result ≡ undecided self.now }
    {
        self.visible.saturating_sub(self.decided.len())
    }

    // What remains for each undecided column; 0 where none is left, since nothing is then asked of it.
    pub fn average_space(&self) -> u16
        ensures { result ≡ average self.now }
    {
        self.remaining.checked_div(self.undecided()).unwrap_or(0)
    }

    // Here and below the number stays beside the column: the set and the widths are asked by it, and a loop's `enumerate` gives the two so.

    // A hidden column is decided from the start, though it is never in the set.
    pub fn is_decided(&self, c: &Column, i: usize) -> bool
        requires { i < most_columns }
        ensures { result ≡ decided c.now i self.now }
    {
        column::is_hidden(c) || self.decided.contains(i)
    }

    // The width offered is taken off before 0 becomes 1: a column without cells costs nothing.
    pub fn fix_column(&mut self, i: usize, w: ContentWidth)
        requires { (i < most_columns) × (contains self.old.decided i ≡ false) }
        ensures { self.new ≡ fixed self.old i w.0 }
    {
        self.widths[i] = w.0.max(1);
        self.decided.insert(i);
        self.remaining = self.remaining.saturating_sub(w.0);
    }

    // An offer that keeps the column open changes nothing.
    pub fn take(&mut self, i: usize, offer: Option<ContentWidth>)
        requires { (i < most_columns) × (contains self.old.decided i ≡ false) }
        ensures { self.new ≡ taking self.old i (offered offer) }
    {
        if let Some(w) = offer {
            self.fix_column(i, w);
        }
    }
}
