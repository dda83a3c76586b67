// Step 10, and P4's of step 9: what a measure of the patient has to fit. "Weight matters if some remaining row has low above 0 or high below 999,999. Then blank 105".
ghost use Rattle.std.specs.Prelude.{◌≡◌};
ghost use Rattle.guideline.specs.Table.{some};
ghost use Rattle.filter.specs.Filters.{filter643};
ghost use Rattle.filter.specs.declared.Filter.TheVariants.{Matters};
ghost use Rattle.sieve.specs.Needed.{needed};
ghost use Rattle.sieve.specs.Left.{kept, kept_of};

use crate::left::Left;
use crate::settled::Settled;
use filter::{Filter, Measure};
use guideline::refusals::Question;
use guideline::rows::Row643;
use keys::rows::KeyRows;

impl Settled {
    // None where the measure does not matter.
    pub fn needed(
        &self,
        rows: &KeyRows<'_, Row643>,
        m: Measure,
        question: Question,
        value: Option<u32>,
    ) -> Result<Option<u32>, Question>
        ensures { result ≡ needed question (some (kept_of rows.now self.now (filter643 (Matters m)))) value }
    {
        if self.first(rows, Filter::Matters(m)).is_none() {
            return Ok(None);
        }
        let Some(x) = value else {
            return Err(question);
        };
        Ok(Some(x))
    }
}

impl<'a> Left<'a> {
    pub fn needed(
        &self,
        m: Measure,
        question: Question,
        value: Option<u32>,
    ) -> Result<Option<u32>, Question>
        ensures { result ≡ needed question (some (kept self.now (filter643 (Matters m)))) value }
    {
        self.settled.needed(&self.rows, m, question, value)
    }
}
