// The rows of a table that have a key: the next of them, how many, and the stretch of the table from the first to the last, by halving where the keys
// rise and by a scan where they do not.
#![tactic(auto)]

pub mod find;
pub mod first;
pub mod halved;
pub mod keyed;
pub mod lent;
pub mod next;
pub mod rows;
pub mod seen;
pub mod stretch;
pub mod tables;
pub mod tally;
