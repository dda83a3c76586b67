// Step 8. "Age: rows" that fit it (P1); "none 114."
ghost use Rattle.std.specs.Prelude.{◌≡◌};
ghost use Rattle.guideline.specs.Types.{Blank};
ghost use Rattle.guideline.specs.Steps.{by_age};
ghost use Rattle.sieve.specs.Left.{kept};
ghost use Rattle.sieve.specs.Settled.{and_age};
ghost use Rattle.dose_row.specs.Steps.{Always, Leaves};

use crate::narrow::narrow;
use filter::Filter;
use guideline::refusals::{Ending, Refusal};
use sieve::left::Left;

pub fn by_age(left: &mut Left<'_>, months: u32) -> Result<(), Refusal>
    requires { left.old.settled.age ≡ Blank }
    ensures { Always (λ d. Leaves d (by_age months (kept left.old)) (λ s. s ≡ and_age left.old.settled months) left.new result) }
{
    narrow(left, Filter::Age(months), Ending::NoRowForAge)?;
    left.settled = left.settled.by_age(months);
    Ok(())
}
