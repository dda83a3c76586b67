// Numbers in decimal and texts, written at a place of a lent buffer. What has a length of its own answers the place behind what it wrote.
// A buffer and a place, and no Vec or writer: nothing is allocated, the buffer is the caller's, and `Put` says what each of its bytes is afterwards, in every crate above too.
#![tactic(auto)]

ghost use Rattle.std.specs.Prelude.{◌≡◌, ◌+◌, ◌≤◌, length};
ghost use Rattle.decimals.specs.Decimal.{decimal, digits, field};
ghost use Rattle.std.proofs.lemmas.List.Edits.{sets};
ghost use Rattle.decimals.specs.Put.{Put};

pub const SPACE: u8 = b' ';

pub const LINE_FEED: u8 = b'\n';

// How many digits the number has without zeros in front.
fn places(n: u64) -> usize
    ensures { result ≡ length (decimal n) }
{
    n.checked_ilog10().map_or(1, |log| log as usize + 1)
}

// The number's last digits, zeros in front. No other byte changes.
pub fn put_digits(out: &mut [u8], at: usize, width: usize, n: u64)
    requires { at + width ≤ length out.old }
    ensures { out.new ≡ sets out.old at (digits width n) }
{
    let mut rest = n;
    for place in (at..at + width).rev() {
        // By hand: `write!` promises its bytes to a String or a Vec, and nothing is allocated.
        out[place] = b'0' + (rest % 10) as u8;
        rest /= 10;
    }
}

pub fn put_decimal(out: &mut [u8], at: usize, n: u64) -> usize
    requires { at + length (decimal n) ≤ length out.old }
    ensures { Put out.old at (decimal n) out.new result }
{
    let width = places(n);
    put_digits(out, at, width, n);
    at + width
}

// A number, and the character behind it.
pub fn put_field(out: &mut [u8], at: usize, n: u64, behind: u8) -> usize
    requires { at + length (field n behind) ≤ length out.old }
    ensures { Put out.old at (field n behind) out.new result }
{
    let end = put_decimal(out, at, n);
    out[end] = behind;
    end + 1
}

pub fn put_text(out: &mut [u8], at: usize, text: &[u8]) -> usize
    requires { at + length text.now ≤ length out.old }
    ensures { Put out.old at text.now out.new result }
{
    // No copy_from_slice: it calls memmove, and the C functions that a program calls are pinned.
    for (i, character) in text.iter().enumerate() {
        out[at + i] = *character;
    }
    at + text.len()
}
