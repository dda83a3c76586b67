// Step 11. "Several rows left: 123, table 643."
ghost use Rattle.guideline.specs.Results.{Chooses};
ghost use Rattle.guideline.specs.Steps.{one_row};
ghost use Rattle.sieve.specs.Left.{kept};

use guideline::refusals::{Ending, Refusal};
use guideline::rows::Row643;
use sieve::left::Left;

pub fn one_row(left: &Left<'_>) -> Result<Row643, Refusal>
    ensures { Chooses (one_row (kept left.now)) result }
{
    let settled = left.settled;
    tables::ask(&left.rows, |r: Row643| settled.passes(r)).one(
        Ending::RowsSeveral,
        Ending::RowsSeveral,
    )
}
