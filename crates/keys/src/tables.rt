// The seven tables as they are handed over, and what was seen of each.
ghost use Rattle.std.specs.Prelude.{◌≡◌};
ghost use Rattle.guideline.specs.Lent.{lent};
ghost use Rattle.keys.specs.Seen.{all_seen};
ghost use Rattle.keys.specs.Tables.{bytes_of};

use crate::lent::Lent;
use crate::seen::AllSeen;
use guideline::lents::LentTables;
use guideline::rows::{Row070, Row640, Row641, Row642, Row643, Row649, Row730};

// The five that steps 3 to 11 ask: of the two others nothing has to be seen there.
#[derive(Drop)]
pub struct RuleTables<'a> {
    pub t640: Lent<'a, Row640>,
    pub t641: Lent<'a, Row641>,
    pub t642: Lent<'a, Row642>,
    pub t643: Lent<'a, Row643>,
    pub t649: Lent<'a, Row649>,
}

#[derive(Drop)]
pub struct SeenTables<'a> {
    pub rules: RuleTables<'a>,
    pub t730: Lent<'a, Row730>,
    pub t070: Lent<'a, Row070>,
}

impl AllSeen {
    pub fn of<'a>(self, t: LentTables<'a>) -> SeenTables<'a>
        requires { self ≡ all_seen (lent t) }
        ensures { bytes_of result ≡ lent t.entry }
    {
        let rules = RuleTables {
            t640: Lent::new(t.t640, self.t640),
            t641: Lent::new(t.t641, self.t641),
            t642: Lent::new(t.t642, self.t642),
            t643: Lent::new(t.t643, self.t643),
            t649: Lent::new(t.t649, self.t649),
        };
        SeenTables {
            rules,
            t730: Lent::new(t.t730, self.t730),
            t070: Lent::new(t.t070, self.t070),
        }
    }
}
