// The seven tables as they are handed over.
ghost use Rattle.std.specs.Prelude.{◌≡◌};
ghost use Rattle.guideline.specs.Lent.{lent};

use crate::rows::TableName;

// Each is what a caller lends under its name, as bytes.
// Seven fields by name, as `AllSeen` of keys has seven: the rows of each are of another type.
#[derive(Clone, Copy)]
pub struct LentTables<'a> {
    pub t640: &'a [u8],
    pub t641: &'a [u8],
    pub t642: &'a [u8],
    pub t643: &'a [u8],
    pub t649: &'a [u8],
    pub t730: &'a [u8],
    pub t070: &'a [u8],
}

impl<'a> LentTables<'a> {
    pub fn table(self, n: TableName) -> &'a [u8]
        ensures { result.now ≡ lent self.entry n }
    {
        match n {
            TableName::T640 => self.t640,
            TableName::T641 => self.t641,
            TableName::T642 => self.t642,
            TableName::T643 => self.t643,
            TableName::T649 => self.t649,
            TableName::T730 => self.t730,
            TableName::T070 => self.t070,
        }
    }
}
