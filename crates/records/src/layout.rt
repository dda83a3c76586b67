// A record as its parts in order: the reader and the writer of every file.
ghost use Rattle.std.specs.Prelude.{◌≡◌, ◌+◌, ◌≤◌, ◌<◌, ◌^◌, length, IsTrue, IfOk};
ghost use Rattle.std.proofs.lemmas.List.Edits.{sets};
ghost use Rattle.records.specs.Digits.{unless};
ghost use Rattle.records.specs.Layout.{total, every, fixed_part, digit_part, values, said, refused, read_by, scan, fits, Within, spell, answer, leaving};
ghost use Rattle.records.specs.Numbers.{says, write_number};
ghost use Rattle.records.specs.Parts.{parts_of, narrow, to_numbers, from_numbers};

use crate::part::Part;
use crate::parts::has_room;
use crate::{ReadRefusal, WriteRefusal};

// A record of N parts. Its numbers stand in an array, one for each part, 0 for a fixed text, so that one array does for every file.
#[derive(Clone, Copy)]
pub struct Layout<const N: usize> {
    pub parts: &'static [Part],
    ghost count: { length parts.now ≡ N },
    ghost narrow: { IsTrue (narrow (parts_of parts.now)) },
    ghost whole: { total (parts_of parts.now) < 2 ^ 64 },
}

// Each of these is laid out where a file calls it: the parts are constants there, and the loops over them are gone from the program.
impl<const N: usize> Layout<N> {
    #[inline(always)]
    pub fn read(&self, s: &[u8]) -> Result<[u64; N], ReadRefusal>
        ensures numbers { says result ≡ read_by (to_numbers (parts_of self.now.parts.now)) (scan (parts_of self.now.parts.now) s.now) }
        ensures fit { IfOk result (λ n. Within (parts_of self.now.parts.now) (from_numbers (parts_of self.now.parts.now) 0 n)) }
    {
        if s.len() != self.total() {
            return Err(ReadRefusal::Length);
        }
        if !self.is_fixed(s) {
            return Err(ReadRefusal::Fixed);
        }
        let numbers = self.numbers(s)?;
        // Digits say no number that is too wide, so what does not fit is the mutation digit.
        if !self.fits(&numbers) {
            return Err(ReadRefusal::Mutation);
        }
        Ok(numbers)
    }

    #[inline(always)]
    pub fn write(&self, numbers: &[u64; N], buf: &mut [u8], at: usize) -> Result<(), WriteRefusal>
        ensures answer { write_number result ≡ answer (parts_of self.now.parts.now) (from_numbers (parts_of self.now.parts.now) 0 numbers.now) at (length buf.old) }
        ensures bytes { buf.new ≡ leaving (parts_of self.now.parts.now) (from_numbers (parts_of self.now.parts.now) 0 numbers.now) at buf.old }
    {
        if !self.fits(numbers) {
            return Err(WriteRefusal::TooWide);
        }
        if !has_room(buf.len(), at, self.total()) {
            return Err(WriteRefusal::NoRoom);
        }
        self.put(numbers, buf, at);
        Ok(())
    }

    #[inline(always)]
    fn total(&self) -> usize
        ensures { result ≡ total (parts_of self.now.parts.now) }
    {
        let mut width = 0;
        for part in self.parts {
            width += part.width();
        }
        width
    }

    #[inline(always)]
    fn is_fixed(&self, s: &[u8]) -> bool
        requires { total (parts_of self.now.parts.now) ≤ length s.now }
        ensures { result ≡ every fixed_part (parts_of self.now.parts.now) 0 s.now }
    {
        let mut at = 0;
        for part in self.parts {
            if !part.is_fixed(s, at) {
                return false;
            }
            at += part.width();
        }
        true
    }

    #[inline(always)]
    fn numbers(&self, s: &[u8]) -> Result<[u64; N], ReadRefusal>
        requires { total (parts_of self.now.parts.now) ≤ length s.now }
        ensures { says result ≡ unless (every digit_part (parts_of self.now.parts.now) 0 s.now) (refused 203) (said (to_numbers (parts_of self.now.parts.now) (values (parts_of self.now.parts.now) 0 s.now))) }
    {
        let mut numbers = [0; N];
        let mut at = 0;
        for (i, part) in self.parts.iter().enumerate() {
            numbers[i] = part.number(s, at)?;
            at += part.width();
        }
        Ok(numbers)
    }

    #[inline(always)]
    fn fits(&self, numbers: &[u64; N]) -> bool
        ensures { result ≡ fits (parts_of self.now.parts.now) (from_numbers (parts_of self.now.parts.now) 0 numbers.now) }
    {
        for (i, part) in self.parts.iter().enumerate() {
            if !part.fits(numbers[i]) {
                return false;
            }
        }
        true
    }

    #[inline(always)]
    fn put(&self, numbers: &[u64; N], buf: &mut [u8], place: usize)
        requires { place + total (parts_of self.now.parts.now) ≤ length buf.old }
        ensures { buf.new ≡ sets buf.old place (spell (parts_of self.now.parts.now) (from_numbers (parts_of self.now.parts.now) 0 numbers.now)) }
    {
        let mut at = place;
        for (i, part) in self.parts.iter().enumerate() {
            part.put(buf, at, numbers[i]);
            at += part.width();
        }
    }
}
