// A stream of calls of the readers and writers of records: where a call ends, and from its bytes to the line of its answer. A file's calls are its cases of `FileNumber`.
#![tactic(auto)]

ghost use Rattle.std.specs.Prelude.{◌≡◌, ◌+◌, ◌-◌, ◌≤◌, length};
ghost use Rattle.std.proofs.lemmas.List.Edits.{sets};
ghost use Rattle.decimals.specs.Put.{Put};
ghost use Rattle.records.specs.Digits.{chars};
ghost use Rattle.call_lines.specs.Lines.{most_bytes, longest_line};
ghost use Rattle.call_stream.specs.Calls.{call_length};
ghost use Rattle.call_stream.specs.Lines.{line_by, left_by, last_line};
ghost use Rattle.call_stream.specs.Takes.{Takes};

mod calls;

use crate::calls::{Asked, Call, FileNumber, NoCall, find};
use call_lines::file_070::{put_read_070, put_write_070};
use call_lines::file_730::{put_read_730, put_write_730};
use decimals::put_text;

// Room for any line.
pub const LONGEST_LINE: usize = 8_214;

// How many bytes a call has, and the place behind its line.
#[derive(Clone, Copy)]
pub struct Spans {
    pub call: usize,
    pub end: usize,
}

// Of bytes gathered so far: they begin with a whole call, whose line is written, or with a part of one, or with none, which the line says.
// No Result: `Broken` is answered by a line as a call is, and its place is no error.
#[derive(Clone, Copy)]
pub enum Taken {
    Answered(Spans),
    More,
    Broken(usize),
}

fn put_answer(call: Call, s: &mut [u8], out: &mut [u8], at: usize) -> usize
    requires { (call_length call ≤ length s.old) × (call.bytes ≤ most_bytes) × (at + longest_line ≤ length out.old) }
    ensures { Put out.old at (line_by call.file call.asked s.old call.bytes) out.new result × (result ≤ at + longest_line) × (s.new ≡ left_by call.file call.asked s.old call.bytes) }
{
    let n = call.bytes;
    match (call.file, call.asked) {
        (FileNumber::File730, Asked::Reads) => put_read_730(s, n, out, at),
        (FileNumber::File730, Asked::Writes) => put_write_730(s, n, out, at),
        (FileNumber::File070, Asked::Reads) => put_read_070(s, n, out, at),
        (FileNumber::File070, Asked::Writes) => put_write_070(s, n, out, at),
    }
}

pub fn take_call(s: &mut [u8], out: &mut [u8], at: usize) -> Taken
    requires { at + longest_line ≤ length out.old }
    ensures { Takes s.old out.old at s.new out.new result }
{
    match find(s) {
        Ok(Some(call)) => Taken::Answered(Spans {
            call: call.length(),
            end: put_answer(call, s, out, at),
        }),
        Ok(None) => Taken::More,
        Err(NoCall) => Taken::Broken(put_text(out, at, b"broken\n")),
    }
}

// The bytes from one place to another, moved to the front: how many they are. What stands behind them there is left.
pub fn to_front(s: &mut [u8], from: usize, to: usize) -> usize
    requires { (from ≤ to) × (to ≤ length s.old) }
    ensures { (result ≡ to - from) × (s.new ≡ sets s.old 0 (chars s.old from (to - from))) }
{
    // `copy_within` would call memmove, which no program calls (.ci/assumptions).
    let n = to - from;
    for i in 0..n {
        s[i] = s[from + i];
    }
    n
}

// The stream has ended, and these bytes are left.
pub fn finish(s: &[u8], out: &mut [u8], at: usize) -> usize
    requires { at + longest_line ≤ length out.old }
    ensures { Put out.old at (last_line s.now) out.new result × (result ≤ at + longest_line) }
{
    if s.is_empty() {
        return at;
    }
    put_text(out, at, b"broken\n")
}
