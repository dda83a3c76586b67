// How a check ends before step 12.
ghost use Rattle.std.specs.Prelude.{◌≡◌};
ghost use Rattle.guideline.specs.declared.refusals.Refusal.TheVariants.{Asks};
ghost use Rattle.guideline.specs.Ask.{asks_for};
ghost use Rattle.guideline.specs.Steps.{nothing};
ghost use Rattle.guideline.specs.Results.{stopped_at, answered_at};

use crate::answer::Reached;
use crate::entries::Datum;
use crate::rows::TableName;

// A question: the datum that it asks for and the step that asks. One datum may be asked for at several places.
#[derive(Clone, Copy)]
pub enum Question {
    AgeOfPerson,
    SexOfPerson,
    HpkOfLevel,
    PrkOfLevel,
    WeightPerDay,
    SurfacePerDay,
    WeightOfRow,
    SurfaceOfRow,
}

impl Question {
    pub fn asks_for(self) -> Datum
        ensures { result ≡ asks_for self }
    {
        match self {
            Question::AgeOfPerson => Datum::Age,
            Question::SexOfPerson => Datum::Sex,
            Question::HpkOfLevel => Datum::Hpk,
            Question::PrkOfLevel => Datum::Prk,
            Question::WeightPerDay | Question::WeightOfRow => Datum::Weight,
            Question::SurfacePerDay | Question::SurfaceOfRow => Datum::Surface,
        }
    }
}

// What the frequency differs in, where no row has it.
#[derive(Clone, Copy)]
pub enum Signal {
    OnlyCount,
    OnlyUnit,
    Both,
}

// How a check ends before its comparison (step 12), other than by a missing datum: one for each test of "Order of steps", in its order. `HpkRowsSeveral` and
// `HpkRowDiffers` are P5's. `Suppressed` is P4's; its answer is 100.
#[derive(Clone, Copy)]
pub enum Ending {
    EntryOutOfRange,
    NotWhole(TableName),
    OutOfRange(TableName),
    HpkRowsSeveral,
    HpkRowDiffers,
    BaseUnitAbsent,
    BaseUnitSeveral,
    EnteredUnitAbsent,
    EnteredUnitSeveral,
    AmountZero,
    AmountLarge,
    NoGpk,
    GpkUnknown,
    GpkSeveral,
    SexNotAllowed,
    HpkSeveral,
    PrkSeveral,
    BaseLevelAbsent,
    BaseLevelSeveral,
    NoSetting,
    SettingSeveral,
    TooManyRows,
    NoRowForAge,
    Suppressed(Signal),
    NoFrequency(Signal),
    NoRowForWeight,
    NoRowForSurface,
    RowsSeveral,
    LimitsAbsent,
    LimitsSeveral,
}

// A step's refusal: it asks for a missing datum, or it ends the check. No Result: either is a refusal.
#[derive(Clone, Copy)]
pub enum Refusal {
    Asks(Question),
    Ends(Ending),
}

impl From<Question> for Refusal {
    ghost from_gives = { λ question r. r ≡ Asks question };

    fn from(question: Question) -> Refusal {
        Refusal::Asks(question)
    }
}

// A check that has ended before its comparison: by a step's refusal, and what is reached there.
#[derive(Clone, Copy)]
pub struct Stopped {
    pub why: Refusal,
    pub reached: Reached,
}

impl Reached {
    // A step, where this is reached.
    pub fn at<A>(self, step: Result<A, Refusal>) -> Result<A, Stopped>
        ensures { result ≡ answered_at self step }
    {
        step.map_err(|why| Stopped { why, reached: self })
    }
}

// A step that is refused before the basis is chosen.
impl From<Refusal> for Stopped {
    ghost from_gives = { λ why s. s ≡ stopped_at nothing why };

    fn from(why: Refusal) -> Stopped {
        Stopped {
            why,
            reached: Reached::nothing(),
        }
    }
}
