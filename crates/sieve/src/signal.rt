// Step 9, where no row has the entered frequency. "115 if some row has the unit or its twin, else 116 if some row has the count, else 117."
ghost use Rattle.std.specs.Prelude.{◌≡◌};
ghost use Rattle.guideline.specs.Steps.{signal};
ghost use Rattle.sieve.specs.Left.{kept};

use crate::left::Left;
use filter::Filter;
use guideline::entries::Prescription;
use guideline::refusals::Signal;

impl<'a> Left<'a> {
    pub fn signal(&self, p: Prescription) -> Signal
        ensures { result ≡ signal p (kept self.now) }
    {
        let f = filter::entered(p);
        if self.any(Filter::UnitOrTwin(f)) {
            return Signal::OnlyCount;
        }
        if self.any(Filter::Count(f)) {
            return Signal::OnlyUnit;
        }
        Signal::Both
    }
}
