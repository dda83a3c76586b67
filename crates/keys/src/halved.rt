// The stretch of a table where a key stands, by halving, where the keys rise.
ghost use Rattle.std.specs.Prelude.{◌+◌, ◌<◌, length};
ghost use Rattle.cells.specs.Views.{Fits};
ghost use Rattle.keys.specs.Keys.{key_of, Stretch};
ghost use Rattle.keys.specs.Rising.{Rising, From};

use guideline::view::View;

// The first row whose number k is at least `low`; the number of rows if there is none. std's `partition_point` is of slices, and
// no slice holds the keys alone.
fn from(t: &[u8], v: View, k: usize, low: u64) -> usize
    requires { Fits (k + 1) v (length t.now) × Rising (key_of t.now v k) v.rows }
    ensures { From (key_of t.now v k) v.rows low result }
{
    let mut a: usize = 0;
    let mut b = v.rows;
    while 0 < b - a {
        let m = a + (b - a) / 2;
        if (cells::cell(t, v, m, k) as u64) < low {
            a = m + 1;
        } else {
            b = m;
        }
    }
    a
}

pub fn halved(t: &[u8], v: View, k: usize, key: u32) -> View
    requires { Fits (k + 1) v (length t.now) × Rising (key_of t.now v k) v.rows }
    ensures { Stretch t.now v k key result }
{
    let a = from(t, v, k, key as u64);
    let b = from(t, v, k, key as u64 + 1);
    cells::narrow(v, a, b)
}
