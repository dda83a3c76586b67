// What the program writes: the lines of a piece of the input, all of it taken, and at the end the line of a last record.
ghost use Rattle.std.specs.Prelude.{◌≤◌, length};
ghost use Rattle.unit_lines.specs.Machine.{longest_line};
ghost use Rattle.unit_lines.specs.Listing.{room_for, Lists, Rests};

use crate::machine::{feed, finish};
use crate::text::ListMachine;

// The machine after a piece, and how many characters of lines stand in front in the buffer.
#[derive(Clone, Copy)]
pub struct Piece {
    pub machine: ListMachine,
    pub written: usize,
}

pub fn list_piece(m: ListMachine, input: &[u8], out: &mut [u8]) -> Piece
    requires { room_for (length input.now) ≤ length out.old }
    ensures { Lists m input.now out.old out.new result }
{
    let fed = feed(m, input, 0, out, 0);
    Piece {
        machine: fed.machine,
        written: fed.written,
    }
}

pub fn list_rest(m: ListMachine, out: &mut [u8]) -> usize
    requires { longest_line ≤ length out.old }
    ensures { Rests m out.old out.new result }
{
    finish(m, out, 0).unwrap().unwrap_or(0)
}
