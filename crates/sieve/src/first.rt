// Is there a row that is left and passes a filter, and where does the first of them stand?
ghost use Rattle.std.specs.Prelude.{◌≡◌};
ghost use Rattle.guideline.specs.Table.{some};
ghost use Rattle.filter.specs.Filters.{filter643};
ghost use Rattle.keys.specs.Hits.{First};
ghost use Rattle.sieve.specs.Left.{kept, passing, passing_of};

use crate::left::Left;
use crate::settled::Settled;
use filter::Filter;
use guideline::rows::Row643;
use keys::rows::KeyRows;

impl Settled {
    // Of the rows of a category, where they are lent.
    pub fn first(&self, rows: &KeyRows<'_, Row643>, filter: Filter) -> Option<usize>
        ensures { First (passing_of rows.now self.now (filter643 filter)) rows.now.view.rows result }
    {
        let settled = *self;
        rows.first(|r: Row643| settled.passes_and(r, filter))
    }
}

impl<'a> Left<'a> {
    pub fn first(&self, filter: Filter) -> Option<usize>
        ensures { First (passing self.now (filter643 filter)) self.now.rows.view.rows result }
    {
        self.settled.first(&self.rows, filter)
    }

    pub fn any(&self, filter: Filter) -> bool
        ensures { result ≡ some (kept self.now (filter643 filter)) }
    {
        self.first(filter).is_some()
    }
}
