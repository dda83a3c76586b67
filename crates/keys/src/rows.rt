// The rows of a key, as they are lent: the bytes of the table, the stretch of it where the key stands, and the key.
ghost use Rattle.std.specs.Prelude.{length};
ghost use Rattle.cells.specs.Views.{Fits};

use cells::row::TableRow;
use guideline::view::View;

#[derive(Drop)]
pub struct KeyRows<'a, R: TableRow> {
    pub bytes: &'a [u8],
    pub view: View,
    pub key: u32,
    // None: it takes no bytes, and says whose rows these are. No PhantomData, which would name std.
    pub of: [&'a R; 0],
    ghost fits: { Fits R.WIDTH view (length bytes.now) },
}

impl<'a, R: TableRow> KeyRows<'a, R> {
    ghost use Rattle.std.specs.Prelude.{◌≡◌, ◌<◌};
    ghost use Rattle.cells.specs.Views.{narrowed};
    ghost use Rattle.keys.specs.Rows.{row_of};

    pub fn row(&self, i: usize) -> R
        requires { i < self.now.view.rows }
        ensures { result ≡ row_of self.now i }
    {
        R::row(self.bytes, self.view, i)
    }

    // The rows of the key that stand from one on.
    pub fn rest(&self, from: usize) -> KeyRows<'a, R>
        requires { from < self.now.view.rows }
        ensures { (result.bytes.now ≡ self.now.bytes.now) × (result.view ≡ narrowed self.now.view from self.now.view.rows) × (result.key ≡ self.now.key) }
    {
        let view = cells::narrow(self.view, from, self.view.rows);
        KeyRows {
            bytes: self.bytes,
            view,
            key: self.key,
            of: [],
        }
    }
}
