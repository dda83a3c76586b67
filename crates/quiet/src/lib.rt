// P4, quiet on a missing frequency: document 001, 3.4.2. Is the signal of step 9 suppressed?
#![tactic(auto)]

ghost use Rattle.std.specs.Prelude.{◌≡◌};
ghost use Rattle.guideline.specs.Types.{Blank};
ghost use Rattle.guideline.specs.Ask.{run};
ghost use Rattle.guideline.specs.Entries.{datum};
ghost use Rattle.guideline.specs.Quiet.{may_suppress, suppresses};
ghost use Rattle.filter.specs.declared.Filter.TheVariants.{Every};
ghost use Rattle.keys.specs.Rows.{lent_rows};
ghost use Rattle.sieve.specs.Left.{kept};
ghost use Rattle.units.specs.Comparing.{Amounts, Tested};
ghost use Rattle.quiet.specs.Suppressed.{outcome};

use crate::fitting::fitting;
use crate::lower::lower;
use filter::{Filter, Measure};
use guideline::context::Context;
use guideline::entries::{Data, Prescription, switched};
use guideline::refusals::Question;
use guideline::rows::{Row640, Row649};
use guideline::setting::Setting;
use guideline::time_unit::TimeUnit;
use keys::lent::Lent;
use sieve::left::Left;

mod fitting;
mod lower;
mod rule;

// 3.4.2, the setting of the host and the three conditions.
#[tactic(auto, unfolding(guideline::specs::Quiet::may_suppress, guideline::specs::Quiet::risk_empty, guideline::specs::Quiet::for_Q_general, guideline::specs::Quiet::entered_per_day))]
fn may_suppress(p: Prescription, c: Context) -> bool
    ensures { result ≡ may_suppress p c }
{
    switched(p.quiet)
        && c.product.gprisc == Row640::EMPTY
        && c.setting.icpcnr1 == Setting::Q_GENERAL
        && p.time == TimeUnit::PER_DAY
}

// Is the signal suppressed, where no row that passed the age has the frequency? Or a weight or a surface is asked for.
pub fn suppresses(
    left: &Left<'_>,
    t649: &Lent<'_, Row649>,
    p: Prescription,
    d: Data,
    c: Context,
) -> Result<bool, Question>
    requires { Amounts c.ratio × Tested p (lent_rows t649.now) × (left.now.settled.frequency ≡ Every) × (left.now.settled.weight ≡ Blank) × (left.now.settled.surface ≡ Blank) }
    ensures { run (datum d) (suppresses (lent_rows t649.now) p c (kept left.now)) ≡ outcome result }
{
    if !may_suppress(p, c) {
        return Ok(false);
    }
    let rows = &left.rows;
    let per_day = left.settled.by_frequency(Filter::PerDay);
    let heavy = fitting(
        rows,
        per_day,
        Measure::Weight,
        Question::WeightPerDay,
        d.weight,
    )?;
    let large = fitting(
        rows,
        heavy,
        Measure::Surface,
        Question::SurfacePerDay,
        d.surface,
    )?;
    Ok(lower(rows, large, t649, p, c.ratio))
}
