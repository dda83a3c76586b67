// One prescription to be checked.
ghost use Rattle.std.specs.Prelude.{◌≡◌};
ghost use Rattle.guideline.specs.Entries.{with_count, with_months};
ghost use Rattle.guideline.specs.Values.{switched, given_or};

// The six data that an entry may leave blank.
#[derive(Clone, Copy)]
pub enum Datum {
    Age,
    Sex,
    Hpk,
    Prk,
    Weight,
    Surface,
}

// P3 and P4: a setting of the host that is not given means off.
pub fn switched(setting: Option<u32>) -> bool
    ensures { result ≡ switched setting }
{
    setting.is_some_and(|position| position == Prescription::ON)
}

// What is given, or else this position.
pub fn given_or(setting: Option<u32>, position: u32) -> Option<u32>
    ensures { result ≡ given_or position setting }
{
    setting.or(Some(position))
}

// One prescription to be checked: the data that may be blank, and the rest. specs/Entries.antt has document 01's order of its numbers.
#[derive(Clone, Copy)]
pub struct Entry {
    pub known: Data,
    pub rest: Prescription,
}

impl Entry {
    pub fn with_count(self, count: u32) -> Entry
        ensures { result ≡ with_count count self }
    {
        let rest = Prescription { count, ..self.rest };
        Entry { rest, ..self }
    }

    pub fn with_months(self, months: Option<u32>) -> Entry
        ensures { result ≡ with_months months self }
    {
        let rest = Prescription {
            months,
            ..self.rest
        };
        Entry { rest, ..self }
    }
}

// None is blank.
#[derive(Clone, Copy)]
pub struct Data {
    pub age: Option<u32>,
    pub sex: Option<u32>,
    pub hpk: Option<u32>,
    pub prk: Option<u32>,
    pub weight: Option<u32>,
    pub surface: Option<u32>,
}

// The part of an entry that is never blank. A setting of the host, months or quiet, may be not given; which numbers it may hold is tested by the check (125).
#[derive(Clone, Copy)]
pub struct Prescription {
    pub gpk: u32,
    pub care: u32,
    pub reason: u32,
    pub icpcto: u32,
    pub route: u32,
    pub count: u32,
    pub time: u32,
    pub lowest: u32,
    pub highest: u32,
    pub entered: u32,
    pub base: u32,
    pub srtcde: u32,
    pub code: u32,
    pub months: Option<u32>,
    pub quiet: Option<u32>,
    pub edition: u32,
}

// Codes are numbers and no enums: an entry may hold any number, and 125 judges it (`in_range`).
impl Prescription {
    // "GPK (0 none)"
    pub const NO_GPK: u32 = 0;

    // The positions of a setting.
    pub const OFF: u32 = 0;

    pub const ON: u32 = 1;

    // P7: hosts that have only text 8 for a missing frequency, and hosts with 24 and 25.
    pub const FORMER: u32 = 1;

    pub const CURRENT: u32 = 2;
}
