// A set of columns, one bit for each.
ghost use Rattle.std.specs.Prelude.{◌≡◌, ◌<◌, false};
ghost use Rattle.constraint.specs.Set.{set_width, contains, insert, len};

#[derive(Clone, Copy, PartialEq, Eq)]
pub struct ColumnSet(pub u16);

impl ColumnSet {
    pub const EMPTY: ColumnSet = ColumnSet(0);

    pub fn contains(&self, i: usize) -> bool
        requires { i < set_width }
        ensures { result ≡ contains self.now i }
    {
        (self.0 >> i) % 2 == 1
    }

    // A column is added once.
    pub fn insert(&mut self, i: usize)
        requires { (i < set_width) × (contains self.old i ≡ false) }
        ensures { self.new ≡ insert self.old i }
    {
        let bits = self.0;
        self.0 = bits + (1 << i);
    }

    pub fn len(&self) -> u16
        ensures { result ≡ len self.now }
    {
        self.0.count_ones() as u16
    }
}
