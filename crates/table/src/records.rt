// What the sheet holds, as values: each record is equal to a part of the definition's table.
ghost use Rattle.std.specs.Prelude.{ℕ, ◌≡◌, unwrap_or};
ghost use Rattle.rules.specs.Text.{or_else};

// A delimiter or an alignment that is set: 0 is none.
pub fn set(code: u8) -> Option<u8>
    ensures { (other : ℕ) → unwrap_or result other ≡ or_else code other }
{
    if code == 0 { None } else { Some(code) }
}

// Codes as the sheet has them: a target or a delimiter of 0 is none.
#[derive(Clone, Copy)]
pub struct Settings {
    pub arrangement: u8,
    pub target: u16,
    pub delimiter: u8,
}

// Rows still to come: `left` of them, the first at `at` in the sheet. Rows, cells and lines are types of their own, so that none is taken
// for another. That they stand in a sheet stays a clause: they are what is kept of it between two calls, and the fact would need the sheet in them.
#[derive(Clone, Copy)]
pub struct Rows {
    pub at: usize,
    pub left: usize,
}

// Cells of a row still to come.
#[derive(Clone, Copy)]
pub struct Cells {
    pub at: usize,
    pub left: usize,
}

// Lines of a cell still to come.
#[derive(Clone, Copy, Default)]
pub struct Lines {
    pub at: usize,
    pub left: usize,
}

// A row: its height limit, 0 for none, and its cells.
#[derive(Clone, Copy)]
pub struct Row {
    pub limit: usize,
    pub cells: Cells,
}

// A cell: its delimiter and alignment, 0 for none, and its lines.
#[derive(Clone, Copy)]
pub struct Cell {
    pub delimiter: u8,
    pub alignment: u8,
    pub lines: Lines,
}
