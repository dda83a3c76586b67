// Step 10, of one measure of the patient. "Weight matters if some remaining row has low above 0 or high below 999,999. Then blank 105; keep" rows that fit it (P1);
// "none 118. Surface the same, 106 and 119."
ghost use Rattle.std.specs.Prelude.{◌≡◌};
ghost use Rattle.guideline.specs.Types.{Blank};
ghost use Rattle.guideline.specs.Steps.{by_measure};
ghost use Rattle.filter.specs.Filters.{measure_bounds};
ghost use Rattle.sieve.specs.Left.{kept};
ghost use Rattle.sieve.specs.Settled.{own_value, other_value};
ghost use Rattle.dose_row.specs.Steps.{Where, Leaves};

use crate::narrow::narrow;
use filter::{Filter, Measure};
use guideline::refusals::{Ending, Question, Refusal};
use sieve::left::Left;

pub fn by_measure(
    left: &mut Left<'_>,
    m: Measure,
    question: Question,
    none: Ending,
    value: Option<u32>,
) -> Result<(), Refusal>
    requires { own_value m left.old.settled ≡ Blank }
    ensures { Where question value (λ d. Leaves d (by_measure question none (measure_bounds m) (kept left.old)) (λ s. other_value m s ≡ other_value m left.old.settled) left.new result) }
{
    let Some(x) = left.needed(m, question, value)? else {
        return Ok(());
    };
    narrow(left, Filter::FitsMeasure(m, x), none)?;
    let settled = left.settled.by_measure(m, x);
    left.settled = settled;
    Ok(())
}
