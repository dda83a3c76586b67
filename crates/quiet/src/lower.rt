// 3.4.2.2 to 3.4.2.5, over the rules of the rows per day that fit, in one pass.
ghost use Rattle.std.specs.Prelude.{◌≡◌};
ghost use Rattle.guideline.specs.Quiet.{lower};
ghost use Rattle.keys.specs.Rows.{lent_rows};
ghost use Rattle.sieve.specs.Left.{kept_of};
ghost use Rattle.units.specs.Comparing.{Amounts, Tested};

use crate::rule::judge;
use cells::row::TableRow;
use guideline::context::Ratio;
use guideline::entries::Prescription;
use guideline::rows::{Row643, Row649};
use keys::lent::Lent;
use keys::next::next;
use keys::rows::KeyRows;
use sieve::settled::Settled;

pub fn lower(
    rows: &KeyRows<'_, Row643>,
    settled: Settled,
    t649: &Lent<'_, Row649>,
    p: Prescription,
    q: Ratio,
) -> bool
    requires { Amounts q × Tested p (lent_rows t649.now) }
    ensures { result ≡ lower (lent_rows t649.now) p q (kept_of rows.now settled) }
{
    let mut more = false;
    let mut from: usize = 0;
    while let Some(here) = next(rows.bytes, rows.view, Row643::KEY, rows.key, from) {
        from = here + 1;
        let Some(allows) = judge(settled, t649, p, q, rows.row(here)) else {
            return false;
        };
        more |= allows;
    }
    more
}
