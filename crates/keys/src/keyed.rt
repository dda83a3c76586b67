// How many rows have a key as their number k, and the last of them: of any number of a row, and of a view in which the others need not lie inside the table.
ghost use Rattle.std.specs.Prelude.{◌≡◌, ◌+◌, length};
ghost use Rattle.cells.specs.Tally.{tallied};
ghost use Rattle.cells.specs.Views.{Fits};
ghost use Rattle.keys.specs.Keys.{key_of, has_key};

use crate::next::next;
use cells::Tally;
use guideline::view::View;

pub fn keyed(t: &[u8], v: View, k: usize, key: u32) -> Tally
    requires { Fits (k + 1) v (length t.now) }
    ensures { result ≡ tallied (has_key (key_of t.now v k) key) v.rows }
{
    let mut count: usize = 0;
    let mut last: usize = 0;
    let mut from: usize = 0;
    while let Some(here) = next(t, v, k, key, from) {
        from = here + 1;
        count += 1;
        last = here;
    }
    Tally { count, last }
}
