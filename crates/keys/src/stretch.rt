// The stretch of a table from the first row with a key to the last, by a scan from the front and one from the back.
ghost use Rattle.std.specs.Prelude.{◌+◌, ◌≤◌, ◌<◌, length};
ghost use Rattle.cells.specs.Views.{Fits};
ghost use Rattle.keys.specs.Keys.{key_of, Stretch, Past, Without};

use crate::next::{in_four, next};
use guideline::view::View;

// Fours of rows without the key, from the back; none before `from`. By `while`, as `fours` of next.rt.
fn fours_back(t: &[u8], v: View, k: usize, key: u32, from: usize) -> usize
    requires { Fits (k + 1) v (length t.now) × (from ≤ v.rows) }
    ensures { (from ≤ result) × (result ≤ v.rows) × Without (key_of t.now v k) key result v.rows }
{
    let mut i = v.rows;
    while 4 <= i - from {
        let at = i - 4;
        if in_four(t, v, k, key, at) {
            return i;
        }
        i = at;
    }
    i
}

// How many rows stand up to the last whose number k is the key, of which there is none before `from`.
fn end(t: &[u8], v: View, k: usize, key: u32, from: usize) -> usize
    requires { Fits (k + 1) v (length t.now) × (from ≤ v.rows) }
    ensures { Past (key_of t.now v k) v.rows key from result }
{
    let last = fours_back(t, v, k, key, from);
    for i in (from..last).rev() {
        if cells::cell(t, v, i, k) == key {
            return i + 1;
        }
    }
    from
}

pub fn stretch(t: &[u8], v: View, k: usize, key: u32) -> View
    requires { Fits (k + 1) v (length t.now) }
    ensures { Stretch t.now v k key result }
{
    let first = next(t, v, k, key, 0);
    let Some(from) = first else {
        return cells::narrow(v, v.rows, v.rows);
    };
    let to = end(t, v, k, key, from);
    cells::narrow(v, from, to)
}
