// A lent table, and what was seen of it.
ghost use Rattle.keys.specs.Seen.{SeesBy};

use crate::find::find;
use crate::rows::KeyRows;
use crate::seen::Seen;
use cells::row::TableRow;

#[derive(Drop)]
pub struct Lent<'a, R: TableRow> {
    pub bytes: &'a [u8],
    pub seen: Seen,
    // None: it takes no bytes, and says whose rows these are. No PhantomData, which would name std.
    pub of: [&'a R; 0],
    ghost sees: { SeesBy R.WIDTH R.KEY bytes.now seen },
}

impl<'a, R: TableRow> Lent<'a, R> {
    ghost use Rattle.std.specs.Prelude.{◌≡◌};
    ghost use Rattle.guideline.specs.Table.{among};
    ghost use Rattle.cells.specs.Views.{by_width};
    ghost use Rattle.keys.specs.Keys.{Stretch};
    ghost use Rattle.keys.specs.Rows.{key_rows, lent_rows};

    pub fn new(bytes: &'a [u8], seen: Seen) -> Lent<'a, R>
        requires { SeesBy R.WIDTH R.KEY bytes.now seen }
        ensures { (result.bytes.now ≡ bytes.now) × (result.seen ≡ seen) }
    {
        Lent {
            bytes,
            seen,
            of: [],
        }
    }

    // The rows of a key. They answer as the table does.
    pub fn of_key(&self, key: u32) -> KeyRows<'a, R>
        ensures stretch { Stretch self.now.bytes.now (by_width R.WIDTH self.now.bytes.now) R.KEY key result.view }
        ensures bytes { result.bytes.now ≡ self.now.bytes.now }
        ensures key { result.key ≡ key }
        ensures rows { key_rows result ≡ among (R.keyed key) (lent_rows self.now) }
    {
        let all = cells::every_row::<R>(self.bytes);
        let view = find(self.bytes, all, R::KEY, key, self.seen.rising);
        KeyRows {
            bytes: self.bytes,
            view,
            key,
            of: [],
        }
    }
}
