// A filter of which there has to be a row: the rows are seen from the first of them on.
ghost use Rattle.dose_row.specs.Steps.{Narrows};

use filter::Filter;
use guideline::refusals::{Ending, Refusal};
use sieve::left::Left;

pub fn narrow(left: &mut Left<'_>, filter: Filter, none: Ending) -> Result<(), Refusal>
    ensures { Narrows left.old filter none left.new result }
{
    let Some(i) = left.first(filter) else {
        return Err(Refusal::Ends(none));
    };
    left.rows = left.rows.rest(i);
    Ok(())
}
