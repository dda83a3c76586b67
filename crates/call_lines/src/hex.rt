// Bytes in lowercase hexadecimal, written at a place of a lent buffer. The answer is the place behind.
ghost use Rattle.std.specs.Prelude.{◌≡◌, ◌+◌, ◌*◌, ◌≤◌, ◌<◌, length};
ghost use Rattle.decimals.specs.Put.{Put};
ghost use Rattle.call_lines.specs.Lines.{hex_digit, hex};

// By hand: `write!` promises its bytes to a String or a Vec, and nothing is allocated.
fn hex_digit(d: u8) -> u8
    requires { d < 16 }
    ensures { result ≡ hex_digit d }
{
    if d < 10 { b'0' + d } else { b'a' - 10 + d }
}

pub fn put_hex(out: &mut [u8], at: usize, bytes: &[u8]) -> usize
    requires { at + 2 * length bytes.now ≤ length out.old }
    ensures { Put out.old at (hex bytes.now) out.new result }
{
    let mut end = at;
    for b in bytes {
        out[end] = hex_digit(b / 16);
        out[end + 1] = hex_digit(b % 16);
        end += 2;
    }
    end
}
