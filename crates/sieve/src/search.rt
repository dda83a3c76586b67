// Step 9. Where the first row of the entered frequency stands: exact unit first, twin second.
ghost use Rattle.sieve.specs.Matched.{Matched};

use crate::left::Left;
use filter::{Filter, Frequency};

impl<'a> Left<'a> {
    // "Same count and unit on one row. If none, same count and the twin unit." The place of a row, and by which of the two filters it is found.
    pub fn search(&self, f: Frequency) -> Option<(usize, Filter)>
        ensures { Matched self.now f result }
    {
        let exact = Filter::Exact(f);
        if let Some(i) = self.first(exact) {
            return Some((i, exact));
        }
        let twin = Filter::Twin(f);
        if let Some(i) = self.first(twin) {
            return Some((i, twin));
        }
        None
    }
}
