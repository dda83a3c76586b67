// The bounds of a row of table 643.
ghost use Rattle.std.specs.Prelude.{◌≡◌};
ghost use Rattle.guideline.specs.Values.{bounds_in_range, fits, matters};

// The bounds of a row of table 643, for age, weight or surface.
#[derive(Clone, Copy)]
pub struct Bounds {
    pub low: u32,
    pub high: u32,
}

impl Bounds {
    // A high bound of 999,999 means no upper bound: a number and no Option, as the lent rows have it.
    pub const NO_BOUND: u32 = 999_999;

    #[tactic(auto, unfolding(crate::specs::Values::bounds_in_range))]
    pub fn in_range(self) -> bool
        ensures { result ≡ bounds_in_range self }
    {
        self.low <= self.high && self.high <= Bounds::NO_BOUND
    }

    // P1: "from its low bound up to but not including its high bound". Months in thousandths take more than 32 bits.
    #[tactic(auto, unfolding(crate::specs::Values::fits))]
    pub fn fit(self, x: u64) -> bool
        ensures { result ≡ fits self x }
    {
        let one_value = self.low == self.high && x == self.high as u64;
        self.low as u64 <= x && (x < self.high as u64 || self.high == Bounds::NO_BOUND || one_value)
    }

    #[tactic(auto, unfolding(crate::specs::Values::matters))]
    pub fn matter(self) -> bool
        ensures { result ≡ matters self }
    {
        0 < self.low || self.high < Bounds::NO_BOUND
    }
}
