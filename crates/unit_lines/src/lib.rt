// The unit list of document 01: the machine that lists an input in pieces, and what the program writes for each piece and at the end.
#![tactic(auto)]

mod listing;
mod machine;
mod text;

pub use listing::{Piece, list_piece, list_rest};
pub use machine::{Fed, LONGEST_LINE, NoRoom, feed, finish, new_machine};
pub use text::ListMachine;
