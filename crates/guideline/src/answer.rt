// The answer: its numbers, what is reached on the way to it, and what a comparison says.
ghost use Rattle.std.specs.Prelude.{◌≡◌};
ghost use Rattle.guideline.specs.Check.{numbers_of};
ghost use Rattle.guideline.specs.Steps.{nothing, to_basis, to_category, to_rule};

use crate::context::Context;
use crate::rows::{Row641, Row643};

// The nine numbers, as document 01 has them, high and low among them.
#[derive(Clone, Copy)]
pub struct Answer {
    pub answer: u32,
    pub text: u32,
    pub table: u32,
    pub basis: u32,
    pub category: u32,
    pub rule: u32,
    pub high: u32,
    pub low: u32,
    pub suppressed: u32,
}

impl Answer {
    pub const LENGTH: usize = 9;

    // The one list of the numbers in the code.
    pub fn numbers(self) -> [u32; Answer::LENGTH]
        ensures { result ≡ numbers_of self }
    {
        [
            self.answer,
            self.text,
            self.table,
            self.basis,
            self.category,
            self.rule,
            self.high,
            self.low,
            self.suppressed,
        ]
    }
}

// What the steps have chosen so far; 0 is not reached, as in the numbers of the answer.
#[derive(Clone, Copy)]
pub struct Reached {
    pub basis: u32,
    pub category: u32,
    pub rule: u32,
}

impl Reached {
    pub fn nothing() -> Reached
        ensures { result ≡ nothing }
    {
        Reached {
            basis: 0,
            category: 0,
            rule: 0,
        }
    }

    pub fn to_basis(level: Row641) -> Reached
        ensures { result ≡ to_basis level }
    {
        Reached {
            basis: level.gpdbas,
            ..Reached::nothing()
        }
    }

    pub fn to_category(c: Context) -> Reached
        ensures { result ≡ to_category c }
    {
        Reached {
            basis: c.level.gpdbas,
            category: c.setting.gpdcat,
            rule: 0,
        }
    }

    pub fn to_rule(c: Context, row: Row643) -> Reached
        ensures { result ≡ to_rule c row }
    {
        Reached {
            basis: c.level.gpdbas,
            category: c.setting.gpdcat,
            rule: row.gpddnr,
        }
    }
}

// What the comparison of step 12 says.
#[derive(Clone, Copy)]
pub struct Compared {
    pub risk: u32,
    pub high: u32,
    pub low: u32,
}

// How a check ends that reaches step 12.
#[derive(Clone, Copy)]
pub struct Verdict {
    pub compared: Compared,
    pub reached: Reached,
}
