// The rows that are looked for: none, the one, or how many. No Option of one: several are refused where none is not.
ghost use Rattle.std.specs.Prelude.{◌≡◌};
ghost use Rattle.guideline.specs.Forms.{one};
ghost use Rattle.guideline.specs.Results.{Chooses};
ghost use Rattle.guideline.specs.Table.{Hits};
ghost use Rattle.tables.specs.Found.{found};

use guideline::refusals::{Ending, Refusal};

#[derive(Clone, Copy)]
pub enum Found<R> {
    Nothing,
    One(R),
    Many(usize),
}

impl<R: Copy> Found<R> {
    // The one row, or else a refusal.
    pub fn one(self, none: Ending, several: Ending) -> Result<R, Refusal>
        ensures { (h : Hits R) → self ≡ found h → Chooses (one h none several) result }
    {
        match self {
            Found::Nothing => Err(Refusal::Ends(none)),
            Found::One(row) => Ok(row),
            Found::Many(_) => Err(Refusal::Ends(several)),
        }
    }
}
