// 122 of a table in one pass that also sees whether the keys rise.
ghost use Rattle.std.specs.Prelude.{◌≡◌, false, length};
ghost use Rattle.guideline.specs.Bytes.{by_rows};
ghost use Rattle.guideline.specs.Table.{all_rows};
ghost use Rattle.cells.specs.Views.{Fits, by_width};
ghost use Rattle.cells.specs.Lents.{shown_by};
ghost use Rattle.keys.specs.Keys.{key_of};
ghost use Rattle.keys.specs.Rising.{rises};
ghost use Rattle.ranges.specs.Soundly.{InRangeBy, tested_by, tested};

use crate::ranged::Ranged;
use guideline::rows::{Row070, Row640, Row641, Row642, Row643, Row649, Row730, TableName};
use guideline::view::View;
use keys::seen::Seen;

// 122 of the rows from one on, where those before it passed.
fn rest_in_range<R: Ranged>(t: &[u8], v: View, from: usize) -> bool
    requires { Fits R.WIDTH v (length t.now) × InRangeBy R.sound R.read t.now v from }
    ensures { result ≡ all_rows R.sound (shown_by R.read t.now v) }
{
    for i in from..v.rows {
        if !R::row(t, v, i).in_range() {
            return false;
        }
    }
    true
}

// Once a key falls, the keys of the other rows are not looked at.
fn after_a_fall<R: Ranged>(t: &[u8], v: View, from: usize) -> Option<Seen>
    requires { Fits R.WIDTH v (length t.now) × InRangeBy R.sound R.read t.now v from × (rises (key_of t.now v R.KEY) from ≡ false) }
    ensures { result ≡ tested_by R.sound R.read R.KEY t.now v }
{
    if rest_in_range::<R>(t, v, from) {
        return Some(Seen { rising: false });
    }
    None
}

// What was seen of a table whose rows are all in range.
pub fn tested<R: Ranged>(t: &[u8], v: View) -> Option<Seen>
    requires { Fits R.WIDTH v (length t.now) }
    ensures { result ≡ tested_by R.sound R.read R.KEY t.now v }
{
    let mut last: u32 = 0;
    for i in 0..v.rows {
        if !R::row(t, v, i).in_range() {
            return None;
        }
        let key = cells::cell(t, v, i, R::KEY);
        if key < last {
            return after_a_fall::<R>(t, v, i + 1);
        }
        last = key;
    }
    Some(Seen { rising: true })
}

fn tested_all<R: Ranged>(t: &[u8]) -> Option<Seen>
    ensures { result ≡ tested_by R.sound R.read R.KEY t.now (by_width R.WIDTH t.now) }
{
    tested::<R>(t, cells::every_row::<R>(t))
}

// A table by its name, once a table and not once a row.
pub fn tested_table(t: &[u8], n: TableName) -> Option<Seen>
    ensures { result ≡ tested n t.now (by_rows n t.now) }
{
    match n {
        TableName::T640 => tested_all::<Row640>(t),
        TableName::T641 => tested_all::<Row641>(t),
        TableName::T642 => tested_all::<Row642>(t),
        TableName::T643 => tested_all::<Row643>(t),
        TableName::T649 => tested_all::<Row649>(t),
        TableName::T730 => tested_all::<Row730>(t),
        TableName::T070 => tested_all::<Row070>(t),
    }
}
