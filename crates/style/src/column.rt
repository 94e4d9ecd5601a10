// Constraints, the two kinds of width, and the one way between them: comfy-table's `style/column.rs` and the conversion of its
// `utils/arrangement/helper.rs`.
ghost use Rattle.std.specs.Prelude.{◌≡◌};
ghost use Rattle.rules.specs.Sheet.{padding, is_hidden};
ghost use Rattle.style.specs.Column.{content, width_of, constraint_of};

use rules::Column;

// The width that a constraint sets.
#[derive(Clone, Copy, PartialEq, Eq)]
pub enum Width {
    Fixed(u16),
    Percentage(u16),
}

// What a column asks of its width.
#[derive(Clone, Copy, PartialEq, Eq)]
pub enum ColumnConstraint {
    Hidden,
    ContentWidth,
    Absolute(Width),
    LowerBoundary(Width),
    UpperBoundary(Width),
    Boundaries { lower: Width, upper: Width },
}

// Leaves padding out.
#[derive(Clone, Copy)]
pub struct ContentWidth(pub u16);

// Counts padding.
#[derive(Clone, Copy)]
pub struct ConstraintWidth(pub u16);

impl From<rules::Width> for Width {
    ghost from_gives = { λ w r. r ≡ width_of w };

    fn from(w: rules::Width) -> Width {
        match w.unit {
            0 => Width::Fixed(w.value),
            _ => Width::Percentage(w.value),
        }
    }
}

impl ColumnConstraint {
    // The sheet's codes are read here alone; a code that is none of them sets no constraint.
    pub fn of(c: &Column) -> Option<ColumnConstraint>
        ensures { result ≡ constraint_of c.now }
    {
        let first = Width::from(c.first);
        match c.constraint {
            1 => Some(ColumnConstraint::Hidden),
            2 => Some(ColumnConstraint::ContentWidth),
            3 => Some(ColumnConstraint::Absolute(first)),
            4 => Some(ColumnConstraint::LowerBoundary(first)),
            5 => Some(ColumnConstraint::UpperBoundary(first)),
            6 => Some(ColumnConstraint::Boundaries {
                lower: first,
                upper: Width::from(c.second),
            }),
            _ => None,
        }
    }
}

// `Hidden` has a code of its own: such a column has no other part in the page.
pub fn is_hidden(c: &Column) -> bool
    ensures { result ≡ is_hidden c.now }
{
    ColumnConstraint::of(c) == Some(ColumnConstraint::Hidden)
}

pub fn padding_width(c: &Column) -> u16
    ensures { result ≡ padding c.now }
{
    u16::from(c.left) + u16::from(c.right)
}

// From constraint to content, the one way between the two: padding is taken off, and 0 becomes 1.
pub fn absolute_width_with_padding(c: &Column, w: ConstraintWidth) -> ContentWidth
    ensures { result ≡ content c.now w }
{
    ContentWidth(w.0.saturating_sub(padding_width(c)).max(1))
}
