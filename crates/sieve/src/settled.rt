// What steps 8 to 10 have settled so far, by value: what a row of the category has to pass. Each filter is a method by value that hands the narrowed
// description back.
ghost use Rattle.std.specs.Prelude.{◌≡◌, ◌&&◌};
ghost use Rattle.filter.specs.Filters.{filter643};
ghost use Rattle.sieve.specs.Settled.{nothing_settled, and_age, and_frequency, and_measure, settled643};

use filter::{Filter, Measure};
use guideline::rows::Row643;

// An age and the measures are settled by a number alone: it takes half the bytes of a filter on the stack. None: nothing is settled yet.
#[derive(Clone, Copy)]
pub struct Settled {
    pub age: Option<u32>,
    pub frequency: Filter,
    pub weight: Option<u32>,
    pub surface: Option<u32>,
}

impl Settled {
    // Step 7. All rows of the category.
    pub fn nothing() -> Settled
        ensures { result ≡ nothing_settled }
    {
        Settled {
            age: None,
            frequency: Filter::Every,
            weight: None,
            surface: None,
        }
    }

    // Step 8. The rows that fit the age (P1).
    pub fn by_age(self, months: u32) -> Settled
        ensures { result ≡ and_age self months }
    {
        Settled {
            age: Some(months),
            ..self
        }
    }

    // Step 9. "Same count and unit on one row. If none, same count and the twin unit." Or P4's rows per day.
    pub fn by_frequency(self, frequency: Filter) -> Settled
        ensures { result ≡ and_frequency self frequency }
    {
        Settled { frequency, ..self }
    }

    // Step 10. The rows that fit the measure (P1).
    pub fn by_measure(self, m: Measure, x: u32) -> Settled
        ensures { result ≡ and_measure self m x }
    {
        match m {
            Measure::Weight => Settled {
                weight: Some(x),
                ..self
            },
            Measure::Surface => Settled {
                surface: Some(x),
                ..self
            },
        }
    }

    // All rows pass where nothing is settled yet. A part of what calls it: it is run for each row of a category.
    #[inline(always)]
    pub fn passes(self, r: Row643) -> bool
        ensures { result ≡ settled643 self r }
    {
        let by_age = self.age.is_none_or(|months| filter::fits_age(r, months));
        let by_frequency = filter::passes(r, self.frequency);
        let by_weight = self
            .weight
            .is_none_or(|x| filter::fits_measure(r, Measure::Weight, x));
        let by_surface = self
            .surface
            .is_none_or(|x| filter::fits_measure(r, Measure::Surface, x));
        // `&` makes no branch: the pass over the rows of a category is measured.
        by_age & by_frequency & by_weight & by_surface
    }

    // Does a row pass what is settled, and a filter?
    pub fn passes_and(self, r: Row643, filter: Filter) -> bool
        ensures { result ≡ (settled643 self r && filter643 filter r) }
    {
        self.passes(r) && filter::passes(r, filter)
    }
}
