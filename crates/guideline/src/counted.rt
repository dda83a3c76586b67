// What the check of a range of counts answers (P2).
ghost use Rattle.std.specs.Prelude.{◌≡◌};
ghost use Rattle.guideline.specs.Counts.{refusal_number};

// A range is refused, and the lent list is as it was. (Else each count has its answer, and it is said how many stand in the list.)
#[derive(Clone, Copy, PartialEq, Eq)]
pub enum RangeRefusal {
    NoRange,
    NoRoom,
}

impl RangeRefusal {
    // A method and no From: the refusal is no number, it has one.
    pub fn number(self) -> u32
        ensures { result ≡ refusal_number self }
    {
        match self {
            RangeRefusal::NoRange => 131,
            RangeRefusal::NoRoom => 132,
        }
    }
}
