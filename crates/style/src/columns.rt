// A table's columns, by value. The library's `ArrayVec` has no `Copy`, and a layout that holds columns is to have it.
ghost use Rattle.std.specs.Prelude.{◌≡◌, ◌+◌, ◌<◌, ◌≤◌, [], ◌∷◌, ◌++◌, length};
ghost use Rattle.arrayvec.specs.ArrayVec.{array_vec_len};
ghost use Rattle.rules.specs.Sheet.{most_columns};

use rules::{Column, MOST_COLUMNS};
use std::marker::Model;
use std::ops::DerefSlice;

// At most MOST_COLUMNS columns, in order; contracts see them as an `ArrayVec`. Past the last stands the column that sets nothing, so that the
// columns alone say what every place holds.
#[derive(Clone, Copy)]
pub struct Columns {
    items: [Column; MOST_COLUMNS],
    len: usize,
}

impl Model for Columns {
    ghost use Rattle.std.specs.Prelude.{length, take};
    ghost use Rattle.arrayvec.specs.ArrayVec.{ArrayVec};
    ghost use Rattle.rules.specs.declared.Column.{Column};
    ghost use Rattle.rules.specs.Sheet.{most_columns, no_column};
    ghost use Rattle.rules.specs.Calls.{as_array};
    ghost use Rattle.style.specs.Front.{Front, front_len};

    ghost Value = { ArrayVec Column };

    ghost view = { λ c. record { items = take c.len c.items } };

    ghost invariant = { λ c. Front no_column c.len c.items };

    ghost inverse = { λ v. record { items = as_array no_column v.items; len = length v.items } };

    ghost inverse_ok = { λ c h i. record {
      items = h.same i;
      len = front_len no_column c.len c.items h i;
    } };
}

impl Columns {
    // No column yet.
    #[tactic(auto, unfolding(rules::specs::Calls::as_array))]
    pub fn new() -> Columns
        ensures { result.items ≡ [] }
    {
        Columns {
            items: [Column::default(); MOST_COLUMNS],
            len: 0,
        }
    }

    #[inline]
    pub fn len(&self) -> usize
        ensures value { result ≡ array_vec_len self.now }
        ensures fits { result ≤ most_columns }
    {
        self.deref().len()
    }

    // Another column behind the last. There must be room.
    #[inline]
    pub fn push(&mut self, column: Column)
        requires { array_vec_len self.old < most_columns }
        ensures items { self.new.items ≡ self.old.items ++ column ∷ [] }
        ensures len { array_vec_len self.new ≡ array_vec_len self.old + 1 }
    {
        let len = self.len;
        self.items[len] = column;
        self.len = len + 1;
    }
}

impl DerefSlice for Columns {
    type Elem = Column;

    ghost deref_gives = { λ v xs. (xs ≡ v.items) × (length xs ≤ most_columns) };

    #[inline]
    fn deref(&self) -> &[Column] {
        &self.items[..self.len]
    }
}
