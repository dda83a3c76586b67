// What the tables have in common: a row is so many numbers of 32 bits, of which one is the key. One more table is one more impl, with its fields by name.
ghost use Rattle.std.specs.Prelude.{◌≡◌, ◌<◌, ◌≤◌, ℕ, Bool, length, eqb};
ghost use Rattle.guideline.specs.Bytes.{cell};
ghost use Rattle.cells.specs.Views.{Fits};

use guideline::view::View;

pub trait TableRow: Copy {
    // A row from its numbers.
    ghost read: { (ℕ → ℕ) → Self };

    // Has a row the key?
    ghost keyed: { ℕ → Self → Bool };

    ghost WIDTH: { ℕ };

    ghost KEY: { ℕ };

    // How many numbers a row has.
    const WIDTH: usize;

    // Which of them is the key.
    const KEY: usize;

    fn row(t: &[u8], v: View, row: usize) -> Self
        requires { Fits WIDTH v (length t.now) × (row < v.rows) }
        ensures { result ≡ read (cell t.now v row) };

    ghost keyed_read: { (k : ℕ) (f : ℕ → ℕ) → keyed k (read f) ≡ eqb (f KEY) k };

    ghost key_inside: { KEY < WIDTH };

    ghost width_most: { WIDTH ≤ 16 };
}
