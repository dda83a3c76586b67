// The list machine: it takes an input in pieces and writes a line for each record that ends.
ghost use Rattle.std.specs.Prelude.{◌≡◌, [], ◌+◌, ◌-◌, ◌≤◌, ◌<◌, length, drop, leb};
ghost use Rattle.decimals.specs.Put.{Put};
ghost use Rattle.unit_lines.specs.Records.{crlf, line_of};
ghost use Rattle.unit_lines.specs.Machine.{longest_line, but_last, end_from, run, keep, text_of};
ghost use Rattle.unit_lines.specs.Feeding.{Feeds, Finishes, Moves};

use crate::text::ListMachine;
use decimals::LINE_FEED;
use unit_line::put_line;

const CARRIAGE_RETURN: u8 = b'\r';

// 6 and 8 digits, 9 digits with a point and three decimals, 6 digits, three spaces and the line feed.
pub const LONGEST_LINE: usize = 37;

fn ends(last: u8, c: u8) -> bool
    ensures { result ≡ crlf last c }
{
    last == CARRIAGE_RETURN && c == LINE_FEED
}

// The place of the LF that ends the record. `before` is the character before the place from which it is looked for.
// A function of its own in the program: as a part of `main` the pass over the characters takes 13 instructions for each where it takes 9.
#[inline(never)]
fn find_end(input: &[u8], from: usize, before: u8) -> Option<usize>
    requires { from ≤ length input.now }
    ensures { result ≡ end_from before input.now from }
{
    let mut last = before;
    for i in from..input.len() {
        let c = input[i];
        if ends(last, c) {
            return Some(i);
        }
        last = c;
    }
    None
}

fn has_room(room: usize, at: usize) -> bool
    ensures { result ≡ leb longest_line (room - at) }
{
    LONGEST_LINE <= room.saturating_sub(at)
}

fn list_text(text: &[u8], out: &mut [u8], at: usize) -> usize
    requires { at + longest_line ≤ length out.old }
    ensures { Put out.old at (line_of text.now) out.new result }
{
    put_line(out, at, records_730::read_730(text))
}

// Where the text that goes on begins, up to where the input was taken, and the place behind the lines.
#[derive(Clone, Copy)]
struct Moved {
    next: usize,
    stop: usize,
    end: usize,
}

// Records that lie in the input whole, from the place where one begins. By `while`: it goes on by records, as long as there is room.
fn list_whole(input: &[u8], from: usize, out: &mut [u8], at: usize) -> Moved
    requires { (from ≤ length input.now) × (at ≤ length out.old) }
    ensures { Moves (run (length out.old - at) [] (drop from input.now)) input.now from out.old at out.new result }
{
    let mut next = from;
    let mut end = at;
    while has_room(out.len(), end) {
        let Some(e) = find_end(input, next, 0) else {
            return Moved {
                next,
                stop: input.len(),
                end,
            };
        };
        end = list_text(&input[next..e - 1], out, end);
        next = e + 1;
    }
    Moved {
        next,
        stop: next,
        end,
    }
}

// The line of the record whose text and CR the machine holds.
fn list_begun(m: ListMachine, out: &mut [u8], at: usize) -> usize
    requires { (0 < length (text_of m)) × (at + longest_line ≤ length out.old) }
    ensures { Put out.old at (line_of (but_last (text_of m))) out.new result }
{
    let text = m.text();
    list_text(&text[..text.len() - 1], out, at)
}

#[derive(Clone, Copy)]
pub struct Fed {
    pub machine: ListMachine,
    pub taken: usize,
    pub written: usize,
}

pub fn new_machine() -> ListMachine
    ensures { result ≡ keep [] }
{
    ListMachine::empty()
}

// The record that has begun, and then those that lie in the input whole.
fn feed_on(m: ListMachine, input: &[u8], from: usize, out: &mut [u8], at: usize) -> Fed
    requires { (from ≤ length input.now) × (longest_line ≤ length out.old - at) }
    ensures { Feeds m input.now from out.old at out.new result }
{
    let Some(e) = find_end(input, from, m.last()) else {
        return Fed {
            machine: m.grown(&input[from..]),
            taken: input.len() - from,
            written: 0,
        };
    };
    let first = list_begun(m.grown(&input[from..e]), out, at);
    let Moved { next, stop, end } = list_whole(input, e + 1, out, first);
    Fed {
        machine: ListMachine::empty().grown(&input[next..stop]),
        taken: stop - from,
        written: end - at,
    }
}

// Takes the input from a place on and writes lines from a place of the buffer on, until the input is used up or the room left is less than
// a longest line. A place past the end has no input, or no room.
pub fn feed(m: ListMachine, input: &[u8], from: usize, out: &mut [u8], at: usize) -> Fed
    ensures { Feeds m input.now from out.old at out.new result }
{
    if from <= input.len() && has_room(out.len(), at) {
        return feed_on(m, input, from, out, at);
    }
    Fed {
        machine: m.grown(&[]),
        taken: 0,
        written: 0,
    }
}

// For a longest line.
#[derive(Clone, Copy, PartialEq, Eq)]
pub struct NoRoom;

// How many characters the line of a last record without CR LF has, if there is one.
pub fn finish(m: ListMachine, out: &mut [u8], at: usize) -> Result<Option<usize>, NoRoom>
    ensures { Finishes m out.old at out.new result }
{
    let text = m.text();
    if text.is_empty() {
        return Ok(None);
    }
    if !has_room(out.len(), at) {
        return Err(NoRoom);
    }
    Ok(Some(list_text(text, out, at) - at))
}
