// How many rows of a key a test lets pass, and the last of them.
ghost use Rattle.std.specs.Prelude.{◌≡◌, ◌<◌, Bool};
ghost use Rattle.cells.specs.Tally.{tallied};
ghost use Rattle.keys.specs.Hits.{Tests};
ghost use Rattle.keys.specs.Rows.{hit_of};

use crate::next::next;
use crate::rows::KeyRows;
use cells::Tally;
use cells::row::TableRow;

impl<'a, R: TableRow> KeyRows<'a, R> {
    pub fn tally<F: Fn(R) -> bool>(&self, test: F) -> Tally
        requires { F.IsAlwaysCallable test }
        ensures inside { 0 < result.count → result.last < self.now.view.rows }
        ensures tally { (p : R → Bool) → Tests (F.post test) p → result ≡ tallied (hit_of self.now p) self.now.view.rows }
    {
        let mut count: usize = 0;
        let mut last: usize = 0;
        let mut from: usize = 0;
        while let Some(here) = next(self.bytes, self.view, R::KEY, self.key, from) {
            from = here + 1;
            if test(self.row(here)) {
                count += 1;
                last = here;
            }
        }
        Tally { count, last }
    }
}
