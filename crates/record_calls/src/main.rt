// The calls of the readers and writers of records in bulk: calls from standard input, the line of each answer to standard output. An Err is the reader's or the
// writer's own, the first that fails; none is made here.
#![tactic(auto)]

ghost use Rattle.std.specs.Prelude.{◌≡◌, ◌+◌, ◌≤◌, ◌<◌, length, IfOk, OnErr};
ghost use Rattle.call_lines.specs.Lines.{longest_line};
ghost use Rattle.call_stream.specs.Calls.{longest_call};
ghost use Rattle.record_calls.specs.Inside.{Inside};

use call_stream::Taken;
use std::io::{self, Read, Write};
use std::ops::ControlFlow;

// How many bytes the buffers of the input and of the lines have.
const LARGE: usize = 65_536;

// The bytes of the input from `from` to `have` are gathered and not yet taken; the lines that are gathered end at `end`.
#[derive(Clone, Copy)]
struct Gathered {
    from: usize,
    have: usize,
    end: usize,
}

// More of the input behind what is gathered, or the end of the lines where nothing more is to be read. Room is left, so that nothing read means
// that the input has ended.
fn gather<R: Read>(
    reader: &mut R,
    input: &mut [u8],
    have: usize,
    out: &mut [u8],
    at: usize,
) -> io::Result<ControlFlow<usize, Gathered>>
    requires { (have < length input.old) × (at + longest_line ≤ length out.old) }
    ensures ok { IfOk result (Inside (length input.new) (length out.new)) }
    ensures err { OnErr result (out.new ≡ out.old) }
{
    let more = reader.read(&mut input[have..])?;
    if more == 0 {
        return Ok(ControlFlow::Break(call_stream::finish(&input[..have], out, at)));
    }
    Ok(ControlFlow::Continue(Gathered {
        from: 0,
        have: have + more,
        end: at,
    }))
}

fn next_call<R: Read>(
    reader: &mut R,
    input: &mut [u8],
    gathered: Gathered,
    out: &mut [u8],
) -> io::Result<ControlFlow<usize, Gathered>>
    requires { (gathered.from ≤ gathered.have) × (gathered.have ≤ length input.old) × (longest_call ≤ length input.old) × (gathered.end + longest_line ≤ length out.old) }
    ensures ok { IfOk result (Inside (length input.new) (length out.new)) }
    ensures err { OnErr result (out.new ≡ out.old) }
{
    let Gathered {
        from,
        have,
        end: at,
    } = gathered;
    match call_stream::take_call(&mut input[from..have], out, at) {
        Taken::Answered(spans) => Ok(ControlFlow::Continue(Gathered {
            from: from + spans.call,
            have,
            end: spans.end,
        })),
        Taken::More => {
            let rest = call_stream::to_front(input, from, have);
            gather(reader, input, rest, out, at)
        }
        Taken::Broken(end) => Ok(ControlFlow::Break(end)),
    }
}

// A place with room for a line: where too little is left, the lines are written and their room is free again.
fn room<W: Write>(writer: &mut W, out: &[u8], at: usize) -> io::Result<usize>
    requires { (at ≤ length out.now) × (longest_line ≤ length out.now) }
    ensures { IfOk result (λ place. place + longest_line ≤ length out.now) }
{
    if call_stream::LONGEST_LINE <= out.len() - at {
        return Ok(at);
    }
    writer.write_all(&out[..at])?;
    Ok(0)
}

// A proved loop has to end, and nothing says that an input does: it goes round as often as no run does. After a failed read the lines of the calls
// before it are written, and nothing else.
fn answer_all<R: Read, W: Write>(
    reader: &mut R,
    writer: &mut W,
    input: &mut [u8],
    out: &mut [u8],
) -> io::Result<usize>
    requires { (longest_call ≤ length input.old) × (longest_line ≤ length out.old) }
    ensures ok { IfOk result (λ n. n ≤ length out.new) }
    ensures err { OnErr result ((length input.new ≡ length input.old) × (length out.new ≡ length out.old)) }
{
    let mut gathered = Gathered {
        from: 0,
        have: 0,
        end: 0,
    };
    for _ in 0..u64::MAX {
        gathered.end = room(writer, out, gathered.end)?;
        match next_call(reader, input, gathered, out) {
            Ok(ControlFlow::Continue(next)) => gathered = next,
            Ok(ControlFlow::Break(end)) => return Ok(end),
            Err(error) => {
                writer.write_all(&out[..gathered.end])?;
                return Err(error);
            }
        }
    }
    Ok(gathered.end)
}

fn main(rt: HostRuntime) -> io::Result<()> {
    // Of fixed length: no heap, so no Vec.
    let mut input = [0u8; LARGE];
    let mut out = [0u8; LARGE];
    let mut writer = rt.stdout();
    let n = answer_all(&mut rt.stdin(), &mut writer, &mut input, &mut out)?;
    writer.write_all(&out[..n])
}
