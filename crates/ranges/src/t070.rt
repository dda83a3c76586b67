// 122 of a row of table 70: HPKODE, PRKODE, HPANPR, GPKODE, PRANGP, HPANGP.
ghost use Rattle.guideline.specs.declared.rows.TableName.TheVariants.{T070};
ghost use Rattle.guideline.specs.Rows.{sound_row};

use crate::ranged::Ranged;
use guideline::rows::Row070;

impl Ranged for Row070 {
    ghost sound = { sound_row T070 };

    #[tactic(auto, unfolding(guideline::specs::Rows::sound_row))]
    fn in_range(self) -> bool {
        // One `&` and no branch: the pass over a table is measured.
        fields::CODES_FROM_1.holds(self.hpkode)
            & fields::CODES_FROM_1.holds(self.prkode)
            & fields::COUNTS_OF_070.holds(self.hpanpr)
            & fields::CODES_FROM_1.holds(self.gpkode)
            & fields::COUNTS_OF_070.holds(self.prangp)
            & fields::COUNTS_OF_070.holds(self.hpangp)
    }
}
