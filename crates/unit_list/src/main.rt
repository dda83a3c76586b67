// The unit list of document 01: records from standard input, lines to standard output, both in large pieces. All that is decided is decided by
// unit_lines; here bytes are moved. An Err is the reader's or the writer's own, the first that fails; none is made here.
#![tactic(auto)]

ghost use Rattle.std.specs.Prelude.{◌≡◌, ◌≤◌, length, IfOk, OnErr, IfSome};
ghost use Rattle.unit_lines.specs.Machine.{longest_line};
ghost use Rattle.unit_lines.specs.Listing.{room_for};
ghost use Rattle.unit_list.specs.Turns.{Turns, Heard, Ends};

use std::io::{self, Read, Write};
use unit_lines::{ListMachine, Piece};

// Bytes read at once, and those of the buffer in which their lines have room.
const PIECE: usize = 8192;

const LARGE: usize = 65_536;

// None: the input has ended.
fn read_piece<R: Read>(
    reader: &mut R,
    m: ListMachine,
    input: &mut [u8],
    out: &mut [u8],
) -> io::Result<Option<Piece>>
    requires { room_for (length input.old) ≤ length out.old }
    ensures ok { IfOk result (Turns m input.new out.old out.new) }
    ensures err { OnErr result (out.new ≡ out.old) }
{
    let n = reader.read(input)?;
    if n == 0 {
        return Ok(None);
    }
    Ok(Some(unit_lines::list_piece(m, &input[..n], out)))
}

// The machine at the end of the input. A proved loop has to end, and nothing says that an input does: it goes round as often as no run does,
// and then has found no end.
fn list_all<R: Read, W: Write>(
    reader: &mut R,
    writer: &mut W,
    input: &mut [u8],
    out: &mut [u8],
) -> io::Result<Option<ListMachine>>
    requires { room_for (length input.old) ≤ length out.old }
    ensures ok { IfOk result (λ last. IfSome last Heard) }
    ensures err { OnErr result ((length input.new ≡ length input.old) × (length out.new ≡ length out.old)) }
{
    let mut machine = unit_lines::new_machine();
    for _ in 0..u64::MAX {
        let Some(piece) = read_piece(reader, machine, input, out)? else {
            return Ok(Some(machine));
        };
        machine = piece.machine;
        writer.write_all(&out[..piece.written])?;
    }
    Ok(None)
}

// The line of a last record; where no end was found nothing that is unfinished is listed.
fn list_end(last: Option<ListMachine>, out: &mut [u8]) -> usize
    requires { longest_line ≤ length out.old }
    ensures { Ends last out.new result }
{
    match last {
        Some(machine) => unit_lines::list_rest(machine, out),
        None => 0,
    }
}

fn main(rt: HostRuntime) -> io::Result<()> {
    // Of fixed length: no heap, so no Vec.
    let mut input = [0u8; PIECE];
    let mut out = [0u8; LARGE];
    let mut writer = rt.stdout();
    let last = list_all(&mut rt.stdin(), &mut writer, &mut input, &mut out)?;
    let n = list_end(last, &mut out);
    writer.write_all(&out[..n])
}
