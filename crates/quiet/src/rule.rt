// 3.4.2.2 to 3.4.2.5, of the rule of one row. None: it keeps the signal whatever the others say; else, does it allow more than the entered dose? An Option, since None ends the pass.
ghost use Rattle.std.specs.Prelude.{◌≡◌, not, ◌&&◌, eqb};
ghost use Rattle.guideline.specs.Quiet.{minimum_empty, maximum_given, above_dose, above_day_dose, allows_more};
ghost use Rattle.guideline.specs.Values.{no_limit};
ghost use Rattle.keys.specs.Rows.{lent_rows};
ghost use Rattle.sieve.specs.Settled.{settled643};
ghost use Rattle.units.specs.Comparing.{Amounts, Products, Tested};
ghost use Rattle.quiet.specs.Judged.{judged};

use guideline::context::Ratio;
use guideline::entries::Prescription;
use guideline::rows::{Row643, Row649};
use keys::lent::Lent;
use sieve::settled::Settled;
use tables::found::Found;

// 3.4.2.3 to 3.4.2.5. The products of the day doses can pass 64 bits.
#[tactic(auto, unfolding(guideline::specs::Steps::below, guideline::specs::Quiet::maximum_given, guideline::specs::Quiet::above_dose, guideline::specs::Quiet::above_day_dose))]
fn allows_more(p: Prescription, q: Ratio, row: Row643, m: Row649) -> bool
    requires { Products q m.normmaximum p.highest }
    ensures { result ≡ (maximum_given m && (above_dose p q m && above_day_dose p q row m)) }
{
    let entered = p.highest as u64 * p.count as u64;
    let most = m.normmaximum as u64 * row.gpdfaa as u64;
    units::below(q, m.normmaximum, p.highest) && exact::less(entered, q.base, most, q.entered)
}

// 3.4.2.2, where the rule has one row.
fn of_limits(p: Prescription, q: Ratio, row: Row643, m: Row649) -> Option<bool>
    requires { Products q m.normmaximum p.highest }
    ensures { result ≡ judged (not (eqb m.normminimum no_limit)) (maximum_given m && (above_dose p q m && above_day_dose p q row m)) }
{
    if m.normminimum == Row649::NO_LIMIT {
        return Some(allows_more(p, q, row, m));
    }
    None
}

fn of_rule(t649: &Lent<'_, Row649>, p: Prescription, q: Ratio, row: Row643) -> Option<bool>
    requires { Amounts q × Tested p (lent_rows t649.now) }
    ensures { result ≡ judged (not (minimum_empty (lent_rows t649.now) row)) (allows_more (lent_rows t649.now) p q row) }
{
    match tables::look_up(t649, row.gpddnr) {
        Found::Nothing => None,
        Found::One(m) => of_limits(p, q, row, m),
        Found::Many(_) => None,
    }
}

// A row that what is settled does not let pass has no say.
pub fn judge(
    s: Settled,
    t649: &Lent<'_, Row649>,
    p: Prescription,
    q: Ratio,
    row: Row643,
) -> Option<bool>
    requires { Amounts q × Tested p (lent_rows t649.now) }
    ensures { result ≡ judged (settled643 s row && not (minimum_empty (lent_rows t649.now) row)) (settled643 s row && allows_more (lent_rows t649.now) p q row) }
{
    if s.passes(row) {
        return of_rule(t649, p, q, row);
    }
    Some(false)
}
