// A part of a record, and what its characters and its number have to do with each other.
ghost use Rattle.std.specs.Prelude.{◌≡◌, ◌+◌, ◌≤◌, length, IsTrue};
ghost use Rattle.std.proofs.lemmas.List.Edits.{sets};
ghost use Rattle.decimals.specs.Decimal.{digits};
ghost use Rattle.records.specs.Digits.{chars};
ghost use Rattle.records.specs.Layout.{width, fixed_part, fits_part, spelt};
ghost use Rattle.records.specs.Parts.{part_of, narrow_part, from_number, number_of};

use crate::ReadRefusal;
use crate::parts::{is_text, number_at};
use decimals::{put_digits, put_text};

const HIGHEST_MUTATION: u64 = 3;

// A number is that of so many digits. No Option: each of the three has its own tests.
#[derive(Clone, Copy)]
pub enum Part {
    Text(&'static [u8]),
    Mutation,
    Number(usize),
}

// The number's last digits, W of them. The slice is as long as the number of digits, which is known where this is compiled: so each digit is worked out
// for itself, and none waits for the one behind it.
#[inline(always)]
fn put_width<const W: usize>(buf: &mut [u8], at: usize, n: u64)
    requires { at + W ≤ length buf.old }
    ensures { buf.new ≡ sets buf.old at (digits W n) }
{
    put_digits(&mut buf[at..at + W], 0, W, n);
}

// By the widths of the files, where the number has no more digits: then it is short as well, and so quick to divide. Any other is written too, only slower. A function of its own in
// the program, so that the loop over the parts stays short.
#[inline(never)]
fn put_number(buf: &mut [u8], at: usize, width: usize, n: u64)
    requires { at + width ≤ length buf.old }
    ensures { buf.new ≡ sets buf.old at (digits width n) }
{
    match width {
        1 if n < 10 => put_width::<1>(buf, at, n),
        6 if n < 1_000_000 => put_width::<6>(buf, at, n),
        8 if n < 100_000_000 => put_width::<8>(buf, at, n),
        12 => put_width::<12>(buf, at, n),
        _ => put_digits(buf, at, width, n),
    }
}

impl Part {
    #[inline(always)]
    pub fn width(self) -> usize
        ensures { result ≡ width (part_of self) }
    {
        match self {
            Part::Text(text) => text.len(),
            Part::Mutation => 1,
            Part::Number(width) => width,
        }
    }

    // Whether a fixed text stands at the place.
    #[inline(always)]
    pub fn is_fixed(self, s: &[u8], at: usize) -> bool
        requires { at + width (part_of self) ≤ length s.now }
        ensures { result ≡ fixed_part (part_of self) (chars s.now at (width (part_of self))) }
    {
        match self {
            Part::Text(text) => is_text(s, at, text),
            Part::Mutation | Part::Number(_) => true,
        }
    }

    // The number that the characters at the place say, 0 for a fixed text.
    #[inline(always)]
    pub fn number(self, s: &[u8], at: usize) -> Result<u64, ReadRefusal>
        requires inside { at + width (part_of self) ≤ length s.now }
        requires narrow { IsTrue (narrow_part (part_of self)) }
        ensures { result ≡ number_of (part_of self) (chars s.now at (width (part_of self))) }
    {
        match self {
            Part::Text(_) => Ok(0),
            Part::Mutation | Part::Number(_) => number_at(s, at, self.width()),
        }
    }

    #[inline(always)]
    pub fn fits(self, n: u64) -> bool
        requires { IsTrue (narrow_part (part_of self)) }
        ensures { result ≡ fits_part (part_of self) (from_number (part_of self) n) }
    {
        match self {
            Part::Text(_) => true,
            Part::Mutation => n <= HIGHEST_MUTATION,
            Part::Number(width) => n < 10_u64.pow(width as u32),
        }
    }

    // The part's characters at the place. No other byte changes.
    #[inline(always)]
    pub fn put(self, buf: &mut [u8], at: usize, n: u64)
        requires { at + width (part_of self) ≤ length buf.old }
        ensures { buf.new ≡ sets buf.old at (spelt (part_of self) (from_number (part_of self) n)) }
    {
        match self {
            Part::Text(text) => {
                put_text(buf, at, text);
            }
            Part::Mutation => put_number(buf, at, 1, n),
            Part::Number(width) => put_number(buf, at, width, n),
        }
    }
}
