// The next row with a key. Most of a table is passed over four rows at a time. Bytes and a view, as in the rest of this crate below `KeyRows`, whose invariant asks for
// all numbers of a row: here number k is enough.
ghost use Rattle.std.specs.Prelude.{◌≡◌, ◌+◌, ◌≤◌, ◌<◌, length};
ghost use Rattle.cells.specs.Views.{Fits};
ghost use Rattle.keys.specs.Keys.{key_of, Next, Without, in_four};

use guideline::view::View;

// Has one of four rows the key?
#[tactic(auto, unfolding(crate::specs::Keys::in_four))]
pub fn in_four(t: &[u8], v: View, k: usize, key: u32, at: usize) -> bool
    requires { Fits (k + 1) v (length t.now) × (at + 4 ≤ v.rows) }
    ensures { result ≡ in_four (key_of t.now v k) key at }
{
    let a = cells::cell(t, v, at, k) == key;
    let b = cells::cell(t, v, at + 1, k) == key;
    let c = cells::cell(t, v, at + 2, k) == key;
    let d = cells::cell(t, v, at + 3, k) == key;
    // `|` makes no branch: the pass is measured.
    a | b | c | d
}

// Fours of rows without the key, from a row on. By `while`: it goes on by four, and where it stops is the answer.
fn fours(t: &[u8], v: View, k: usize, key: u32, from: usize) -> usize
    requires { Fits (k + 1) v (length t.now) × (from ≤ v.rows) }
    ensures { (from ≤ result) × (result ≤ v.rows) × Without (key_of t.now v k) key from result }
{
    let rows = v.rows;
    let mut i = from;
    while 4 <= rows - i {
        if in_four(t, v, k, key, i) {
            return i;
        }
        i += 4;
    }
    i
}

// The first row, from a row on, whose number k is the key.
pub fn next(t: &[u8], v: View, k: usize, key: u32, from: usize) -> Option<usize>
    requires { Fits (k + 1) v (length t.now) × (from ≤ v.rows) }
    ensures { Next (key_of t.now v k) v.rows key from result }
{
    let first = fours(t, v, k, key, from);
    for i in first..v.rows {
        if cells::cell(t, v, i, k) == key {
            return Some(i);
        }
    }
    None
}
