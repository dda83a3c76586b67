// An amount of table 730 (CDHOEV), as step 1 (122) and step 2 (127, 128) test it.
ghost use Rattle.std.specs.Prelude.{◌≡◌};
ghost use Rattle.guideline.specs.Values.{amount_in_range, amount_zero, amount_large};

use guideline::rows::Row730;

#[derive(Clone, Copy)]
pub struct Amount {
    pub cdhoev: u64,
}

impl Amount {
    pub const MOST: u64 = 999_999_999_999;

    pub const MOST_CONVERTED: u64 = 9_999_999_999;

    pub fn in_range(self) -> bool
        ensures { result ≡ amount_in_range self.cdhoev }
    {
        self.cdhoev <= Amount::MOST
    }

    pub fn is_zero(self) -> bool
        ensures { result ≡ amount_zero self.cdhoev }
    {
        self.cdhoev == 0
    }

    pub fn is_large(self) -> bool
        ensures { result ≡ amount_large self.cdhoev }
    {
        Amount::MOST_CONVERTED < self.cdhoev
    }
}

impl From<Row730> for Amount {
    ghost from_gives = { λ row amount. amount.cdhoev ≡ row.cdhoev };

    fn from(row: Row730) -> Amount {
        Amount { cdhoev: row.cdhoev }
    }
}
