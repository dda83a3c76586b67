// The parts of a record by place and width, whatever the file.
ghost use Rattle.std.specs.Prelude.{◌≡◌, ◌+◌, ◌≤◌, length, leb};
ghost use Rattle.records.specs.Digits.{chars, same};
ghost use Rattle.records.specs.Numbers.{field_of};

use crate::ReadRefusal;

// Whether the text stands at the place. A function of its own in the program, as `put_number` is.
#[inline(never)]
pub fn is_text(s: &[u8], at: usize, text: &[u8]) -> bool
    requires { at + length text.now ≤ length s.now }
    ensures { result ≡ same text.now (chars s.now at (length text.now)) }
{
    text == &s[at..at + text.len()]
}

// The number that the digits at the place say. (Twelve is the widest field of the files.) Not by `parse`, which takes a sign.
#[inline(always)]
pub fn number_at(s: &[u8], at: usize, width: usize) -> Result<u64, ReadRefusal>
    requires { (at + width ≤ length s.now) × (width ≤ 12) }
    ensures { result ≡ field_of (chars s.now at width) }
{
    let mut n: u64 = 0;
    for d in &s[at..at + width] {
        if !d.is_ascii_digit() {
            return Err(ReadRefusal::Digit);
        }
        n = n * 10 + (*d - b'0') as u64;
    }
    Ok(n)
}

// Whether a text of that width has room at the place, which may be any number.
#[inline(always)]
pub fn has_room(room: usize, at: usize, width: usize) -> bool
    ensures { result ≡ leb (at + width) room }
{
    at.checked_add(width).is_some_and(|end| end <= room)
}
