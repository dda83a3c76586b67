// 3.4.2.1: rows per day that fit a measure of the patient. A blank one that matters is asked for; that no row is left is no refusal.
ghost use Rattle.std.specs.Prelude.{◌≡◌};
ghost use Rattle.guideline.specs.Table.{some};
ghost use Rattle.filter.specs.Filters.{filter643};
ghost use Rattle.filter.specs.declared.Filter.TheVariants.{Matters};
ghost use Rattle.sieve.specs.Left.{kept_of};
ghost use Rattle.sieve.specs.Needed.{needed};
ghost use Rattle.quiet.specs.Fitted.{fitted};

use filter::Measure;
use guideline::refusals::Question;
use guideline::rows::Row643;
use keys::rows::KeyRows;
use sieve::settled::Settled;

pub fn fitting(
    rows: &KeyRows<'_, Row643>,
    settled: Settled,
    m: Measure,
    question: Question,
    value: Option<u32>,
) -> Result<Settled, Question>
    ensures { result ≡ fitted settled m (needed question (some (kept_of rows.now settled (filter643 (Matters m)))) value) }
{
    match settled.needed(rows, m, question, value)? {
        None => Ok(settled),
        Some(x) => Ok(settled.by_measure(m, x)),
    }
}
