// What the records of document 004's files share: the parts of a record, and how reading and writing one end. Each file is a crate above this one.
#![tactic(auto)]

pub mod layout;
pub mod part;
pub mod parts;

ghost use Rattle.std.specs.Prelude.{◌≡◌};
ghost use Rattle.records.specs.Numbers.{read_refusal, write_refusal};

// In the order in which they are tested.
#[derive(Clone, Copy, PartialEq, Eq)]
pub enum ReadRefusal {
    Length,
    Fixed,
    Digit,
    Mutation,
}

// A number by a method and no From: a refusal is no number, it has one. Likewise below.
impl ReadRefusal {
    pub fn number(self) -> u64
        ensures { result ≡ read_refusal self }
    {
        match self {
            ReadRefusal::Length => 201,
            ReadRefusal::Fixed => 202,
            ReadRefusal::Digit => 203,
            ReadRefusal::Mutation => 204,
        }
    }
}

// In the order in which they are tested.
#[derive(Clone, Copy, PartialEq, Eq)]
pub enum WriteRefusal {
    TooWide,
    NoRoom,
}

impl WriteRefusal {
    pub fn number(self) -> u64
        ensures { result ≡ write_refusal self }
    {
        match self {
            WriteRefusal::TooWide => 205,
            WriteRefusal::NoRoom => 206,
        }
    }
}
