// Step 9. "Frequency: same count and unit on one row. If none, same count and the twin unit."
ghost use Rattle.std.specs.Prelude.{◌≡◌};
ghost use Rattle.guideline.specs.Types.{Blank};
ghost use Rattle.guideline.specs.Ask.{Refused, run};
ghost use Rattle.guideline.specs.Entries.{datum};
ghost use Rattle.guideline.specs.Steps.{no_frequency, by_frequency};
ghost use Rattle.filter.specs.declared.Filter.TheVariants.{Every};
ghost use Rattle.keys.specs.Rows.{lent_rows};
ghost use Rattle.sieve.specs.Left.{kept};
ghost use Rattle.units.specs.Comparing.{Amounts, Tested};
ghost use Rattle.dose_row.specs.Steps.{Leaves};

use guideline::context::Context;
use guideline::entries::{Data, Prescription};
use guideline::refusals::{Ending, Refusal};
use guideline::rows::Row649;
use keys::lent::Lent;
use sieve::left::Left;

// Where no row has the frequency. "None: 115 if some row has the unit or its twin, else 116 if some row has the count, else 117." P4 may suppress it.
fn no_frequency(
    left: &Left<'_>,
    t649: &Lent<'_, Row649>,
    p: Prescription,
    d: Data,
    c: Context,
) -> Refusal
    requires { Amounts c.ratio × Tested p (lent_rows t649.now) × (left.now.settled.frequency ≡ Every) × (left.now.settled.weight ≡ Blank) × (left.now.settled.surface ≡ Blank) }
    ensures { run (datum d) (no_frequency (lent_rows t649.now) p c (kept left.now)) ≡ Refused result tt }
{
    let signal = left.signal(p);
    match quiet::suppresses(left, t649, p, d, c) {
        Ok(true) => Refusal::Ends(Ending::Suppressed(signal)),
        Ok(false) => Refusal::Ends(Ending::NoFrequency(signal)),
        Err(question) => Refusal::from(question),
    }
}

pub fn by_frequency(
    left: &mut Left<'_>,
    t649: &Lent<'_, Row649>,
    p: Prescription,
    d: Data,
    c: Context,
) -> Result<(), Refusal>
    requires { Amounts c.ratio × Tested p (lent_rows t649.now) × (left.old.settled.frequency ≡ Every) × (left.old.settled.weight ≡ Blank) × (left.old.settled.surface ≡ Blank) }
    ensures { Leaves (datum d) (by_frequency (lent_rows t649.now) p c (kept left.old)) (λ s. (s.weight ≡ Blank) × (s.surface ≡ Blank)) left.new result }
{
    let Some((i, filter)) = left.search(filter::entered(p)) else {
        return Err(no_frequency(left, t649, p, d, c));
    };
    left.rows = left.rows.rest(i);
    left.settled = left.settled.by_frequency(filter);
    Ok(())
}
