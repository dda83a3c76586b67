// A range of values.
ghost use Rattle.std.specs.Prelude.{◌≡◌};
ghost use Rattle.guideline.specs.Values.{within};

// The least and the greatest value that a field may have.
#[derive(Clone, Copy)]
pub struct Range {
    pub low: u32,
    pub high: u32,
}

impl Range {
    pub fn holds(self, x: u32) -> bool
        ensures { result ≡ within self x }
    {
        self.low <= x && x <= self.high
    }
}
