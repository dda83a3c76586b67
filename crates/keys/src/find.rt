// The rows of a key: by halving where the keys rise, else by a scan. What is asked of the key is then asked of this stretch of the table.
ghost use Rattle.std.specs.Prelude.{◌≡◌, ◌+◌, length};
ghost use Rattle.cells.specs.Views.{Fits};
ghost use Rattle.keys.specs.Keys.{key_of, Stretch};
ghost use Rattle.keys.specs.Rising.{rises};

use crate::halved::halved;
use crate::stretch::stretch;
use guideline::view::View;

pub fn find(t: &[u8], v: View, k: usize, key: u32, rising: bool) -> View
    requires { Fits (k + 1) v (length t.now) × (rising ≡ rises (key_of t.now v k) v.rows) }
    ensures { Stretch t.now v k key result }
{
    if rising {
        return halved(t, v, k, key);
    }
    stretch(t, v, k, key)
}
