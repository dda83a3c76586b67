// What the programs that check in bulk share: cases from a reader, their lines to a writer; the programs lend standard input and output. What a case
// says and which lines it gets is in the libraries below. Of the bytes of standard input and output no contract says anything. An Err is the reader's or the
// writer's own, the first that fails; none is made here.
#![tactic(auto)]

ghost use Rattle.std.specs.Prelude.{◌≡◌, ◌≤◌, length, IfOk, OnErr};
ghost use Rattle.stream.specs.Cases.{longest_case, Whole};
ghost use Rattle.case_lines.specs.Lines.{longest_text};
ghost use Rattle.bulk.specs.Arrivals.{Held};

use std::io::{self, Read, Write};
use stream::cases::{Form, LONGEST, Next};

// The lines of many cases have room in it, and so have those of any entry.
const LARGE: usize = 65_536;

// What came of reading a case. A whole one is so many bytes long. No Result: a stream that is broken is answered by a line, and no error.
#[derive(Clone, Copy)]
enum Arrival {
    Case(usize),
    Broken,
    Finished,
}

fn put_out<W: Write>(writer: &mut W, lines: &[u8]) -> io::Result<()> {
    writer.write_all(lines)
}

// One read, which answers 0 bytes at the end of the stream.
fn read_piece<R: Read>(reader: &mut R, buf: &mut [u8]) -> io::Result<usize>
    ensures ok { IfOk result (λ count. count ≤ length buf.new) }
    ensures err { OnErr result (length buf.new ≡ length buf.old) }
{
    reader.read(buf)
}

fn read_case<R: Read>(reader: &mut R, form: Form, case: &mut [u8]) -> io::Result<Arrival>
    requires { longest_case ≤ length case.old }
    ensures ok { IfOk result (Held form case.new) }
    ensures err { OnErr result (length case.new ≡ length case.old) }
{
    let mut have: usize = 0;
    let mut ended = false;
    loop {
        let next = stream::cases::what_next(form, &case[..have], ended);
        match next {
            Next::Answer => return Ok(Arrival::Case(have)),
            Next::Broken => return Ok(Arrival::Broken),
            Next::Finished => return Ok(Arrival::Finished),
            Next::Read(until) => {
                let count = read_piece(reader, &mut case[have..until])?;
                ended = count == 0;
                have += count;
            }
        }
    }
}

// Where the lines fill the buffer they are written, and its room is free again. The place behind those that are left in it.
fn answer_case<W: Write>(
    writer: &mut W,
    form: Form,
    case: &[u8],
    out: &mut [u8],
    at: usize,
) -> io::Result<usize>
    requires { Whole form case.now × (at ≤ length out.old) × (longest_text form ≤ length out.old) }
    ensures ok { IfOk result (λ end. end ≤ length out.new) }
    ensures err { OnErr result (length out.new ≡ length out.old) }
{
    let tested = case_lines::test_tables(case);
    let mut next: usize = 0;
    let mut end = at;
    loop {
        let done = case_lines::lines(form, case, tested, next, out, end);
        let Some(left) = done.next else {
            return Ok(done.end);
        };
        put_out(writer, &out[..done.end])?;
        next = left;
        end = 0;
    }
}

fn finish<W: Write>(writer: &mut W, arrival: Arrival, out: &[u8], at: usize) -> io::Result<()>
    requires { at ≤ length out.now }
{
    put_out(writer, &out[..at])?;
    if let Arrival::Broken = arrival {
        put_out(writer, b"broken\n")?;
    }
    Ok(())
}

// A proved loop has to end, and nothing says that the input does: it goes round as often as no run does. After a failed read the lines of the cases
// before it are written, and nothing else.
fn answer_all<R: Read, W: Write>(
    reader: &mut R,
    writer: &mut W,
    form: Form,
    case: &mut [u8],
    out: &mut [u8],
) -> io::Result<()>
    requires { (longest_case ≤ length case.old) × (longest_text form ≤ length out.old) }
    ensures { OnErr result ((length case.new ≡ length case.old) × (length out.new ≡ length out.old)) }
{
    let mut end: usize = 0;
    for _ in 0..u64::MAX {
        let arrival = match read_case(reader, form, case) {
            Ok(arrival) => arrival,
            Err(error) => {
                put_out(writer, &out[..end])?;
                return Err(error);
            }
        };
        let Arrival::Case(n) = arrival else {
            return finish(writer, arrival, out, end);
        };
        end = answer_case(writer, form, &case[..n], out, end)?;
    }
    Ok(())
}

// The room for a case goes in as an array, whose type says its length: for a slice the proof would write out four million zeros.
fn answer_stream<R: Read, W: Write>(
    reader: &mut R,
    writer: &mut W,
    form: Form,
    case: &mut [u8; LONGEST],
) -> io::Result<()> {
    // Of fixed length: no heap, so no Vec.
    let mut out = [0u8; LARGE];
    answer_all(reader, writer, form, case, &mut out)
}

pub fn answer_input<R: Read, W: Write>(
    reader: &mut R,
    writer: &mut W,
    form: Form,
) -> io::Result<()> {
    let mut case = [0u8; LONGEST];
    answer_stream(reader, writer, form, &mut case)
}
