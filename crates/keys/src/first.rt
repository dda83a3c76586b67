// Where the first row of a key stands that a test lets pass.
ghost use Rattle.std.specs.Prelude.{Bool};
ghost use Rattle.keys.specs.Hits.{Tests, First};
ghost use Rattle.keys.specs.Rows.{hit_of};

use crate::next::next;
use crate::rows::KeyRows;
use cells::row::TableRow;

impl<'a, R: TableRow> KeyRows<'a, R> {
    pub fn first<F: Fn(R) -> bool>(&self, test: F) -> Option<usize>
        requires { F.IsAlwaysCallable test }
        ensures { (p : R → Bool) → Tests (F.post test) p → First (hit_of self.now p) self.now.view.rows result }
    {
        let mut from: usize = 0;
        while let Some(here) = next(self.bytes, self.view, R::KEY, self.key, from) {
            if test(self.row(here)) {
                return Some(here);
            }
            from = here + 1;
        }
        None
    }
}
