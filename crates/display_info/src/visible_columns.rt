// The visible columns, by value: `style::columns::Columns` over `VisibleColumn`. Two types, since of a struct with an array of a type parameter each
// call would have to show how large it is.
ghost use Rattle.std.specs.Prelude.{◌≡◌, ◌+◌, ◌<◌, ◌≤◌, [], ◌∷◌, ◌++◌, length};
ghost use Rattle.arrayvec.specs.ArrayVec.{array_vec_len};
ghost use Rattle.rules.specs.Sheet.{most_columns};

use row::VisibleColumn;
use rules::MOST_COLUMNS;
use std::marker::Model;

#[derive(Clone, Copy)]
pub struct VisibleColumns {
    items: [VisibleColumn; MOST_COLUMNS],
    len: usize,
}

impl Model for VisibleColumns {
    ghost use Rattle.std.specs.Prelude.{length, take};
    ghost use Rattle.arrayvec.specs.ArrayVec.{ArrayVec};
    ghost use Rattle.rules.specs.Sheet.{most_columns};
    ghost use Rattle.row.specs.View.{no_column};
    ghost use Rattle.row.specs.declared.VisibleColumn.{VisibleColumn};
    ghost use Rattle.rules.specs.Calls.{as_array};
    ghost use Rattle.style.specs.Front.{Front, front_len};

    ghost Value = { ArrayVec VisibleColumn };

    ghost view = { λ c. record { items = take c.len c.items } };

    ghost invariant = { λ c. Front no_column c.len c.items };

    ghost inverse = { λ v. record { items = as_array no_column v.items; len = length v.items } };

    ghost inverse_ok = { λ c h i. record {
      items = h.same i;
      len = front_len no_column c.len c.items h i;
    } };
}

impl VisibleColumns {
    #[tactic(auto, unfolding(rules::specs::Calls::as_array))]
    pub fn new() -> VisibleColumns
        ensures { result.items ≡ [] }
    {
        VisibleColumns {
            items: [VisibleColumn::default(); MOST_COLUMNS],
            len: 0,
        }
    }

    #[inline]
    pub fn push(&mut self, column: VisibleColumn)
        requires { array_vec_len self.old < most_columns }
        ensures items { self.new.items ≡ self.old.items ++ column ∷ [] }
        ensures len { array_vec_len self.new ≡ array_vec_len self.old + 1 }
    {
        let len = self.len;
        self.items[len] = column;
        self.len = len + 1;
    }

    #[inline]
    pub fn as_slice(&self) -> &[VisibleColumn]
        ensures value { result.now ≡ self.now.items }
        ensures fits { length result.now ≤ most_columns }
    {
        &self.items[..self.len]
    }
}
