// Rows whose fields have ranges.
ghost use Rattle.std.specs.Prelude.{◌≡◌, Bool};

use cells::row::TableRow;

pub trait Ranged: TableRow {
    ghost sound: { Self → Bool };

    // 122 of a row: is every field in its range?
    fn in_range(self) -> bool
        ensures { result ≡ sound self };
}
