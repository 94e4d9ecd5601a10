// A row's cells in the visible columns, from left to right.
ghost use Rattle.std.specs.Prelude.{◌≤◌, length};
ghost use Rattle.table.specs.Walk.{cells_end};
ghost use Rattle.row.specs.Open.{Rising, RisingFrom};

use crate::VisibleColumn;
use table::records::Cells;
use table::walk;

// The visible columns still to come, and the row's cells from number `passed` on.
#[derive(Clone, Copy)]
pub struct VisibleCells<'a> {
    pub sheet: &'a [u8],
    pub columns: &'a [VisibleColumn],
    pub left: Cells,
    pub passed: usize,
    pub ghost inside: { cells_end sheet.now left ≤ length sheet.now },
    pub ghost rising: { RisingFrom passed columns.now },
}

impl<'a> VisibleCells<'a> {
    ghost use Rattle.row.specs.Visible.{Begins};

    pub fn new(sheet: &'a [u8], columns: &'a [VisibleColumn], cells: Cells) -> VisibleCells<'a>
        requires { Rising columns.now × (cells_end sheet.now cells ≤ length sheet.now) }
        ensures { Begins sheet.now columns.now cells result }
    {
        VisibleCells {
            sheet,
            columns,
            left: cells,
            passed: 0,
        }
    }
}

// Each column with the cells from its own on.
impl<'a> Iterator for VisibleCells<'a> {
    ghost use Rattle.std.specs.Iterator.{at_most};
    ghost use Rattle.row.specs.Visible.{GivesCells};

    type Item = (VisibleColumn, Cells);

    ghost next_gives = { GivesCells };

    ghost remaining = { λ c. at_most (length c.columns.now) };

    fn next(&mut self) -> Option<(VisibleColumn, Cells)> {
        let (&v, columns) = self.columns.split_first()?;
        let left = walk::skip_cells(self.sheet, self.left, v.number - self.passed);
        *self = VisibleCells {
            sheet: self.sheet,
            columns,
            left,
            passed: v.number,
        };
        Some((v, left))
    }
}
