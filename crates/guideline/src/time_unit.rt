// The time unit of a frequency.
ghost use Rattle.std.specs.Prelude.{◌≡◌};
ghost use Rattle.guideline.specs.Values.{per_day, pair, twins};

// A time unit of a frequency (GPDFEE): a number and no enum, since rows and entries may have any unit. Twins stand in pairs.
#[derive(Clone, Copy)]
pub struct TimeUnit {
    pub code: u32,
}

impl TimeUnit {
    pub const PER_DAY: u32 = 19;

    pub const PER_2_DAYS: u32 = 21;

    pub const EVERY_OTHER_DAY: u32 = 22;

    pub const PER_4_WEEKS: u32 = 35;

    pub const PER_MONTH: u32 = 36;

    pub const PER_8_WEEKS: u32 = 40;

    pub const PER_2_MONTHS: u32 = 41;

    pub const PER_HALF_YEAR: u32 = 50;

    pub const PER_6_MONTHS: u32 = 51;

    pub fn per_day() -> TimeUnit
        ensures { result ≡ record { code = per_day } }
    {
        TimeUnit {
            code: TimeUnit::PER_DAY,
        }
    }

    // The two units are these two, either way round.
    #[tactic(auto, unfolding(crate::specs::Values::pair))]
    fn pair(self, other: TimeUnit, one: u32, two: u32) -> bool
        ensures { result ≡ pair one two self.code other.code }
    {
        self.code == one && other.code == two || self.code == two && other.code == one
    }

    // With months on, weeks and months are twins too.
    #[tactic(auto, unfolding(crate::specs::Values::twins))]
    pub fn twins(self, other: TimeUnit, months: bool) -> bool
        ensures { result ≡ twins months self.code other.code }
    {
        let days = self.pair(other, TimeUnit::PER_2_DAYS, TimeUnit::EVERY_OTHER_DAY);
        let years = self.pair(other, TimeUnit::PER_HALF_YEAR, TimeUnit::PER_6_MONTHS);
        let month = self.pair(other, TimeUnit::PER_4_WEEKS, TimeUnit::PER_MONTH);
        let two = self.pair(other, TimeUnit::PER_8_WEEKS, TimeUnit::PER_2_MONTHS);
        days || years || months && (month || two)
    }
}
