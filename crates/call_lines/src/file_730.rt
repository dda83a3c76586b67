// The calls of file 730.
ghost use Rattle.std.specs.Prelude.{◌≡◌, ◌+◌, ◌≤◌, length};
ghost use Rattle.std.proofs.Common.{lit≤};
ghost use Rattle.decimals.specs.Put.{Put};
ghost use Rattle.records_730.specs.File730.{file_730};
ghost use Rattle.call_lines.specs.Lines.{front, front_730, most_bytes, longest_line, call_730, read_call, write_730, left_730};

use crate::call::{CallRecord, put_read, put_write};
use crate::lines::put_spaced;
use numbers::{long, word};
use records::{ReadRefusal, WriteRefusal};
use records_730::{Record730, read_730, write_730};

// How many bytes a writing call has in front of its buffer.
pub const FRONT_730: usize = 44;

// Where its numbers stand.
const MUTATION: usize = 20;

const SRTCDE: usize = 24;

const CODE: usize = 28;

const CDHOEV: usize = 32;

const CDEENH: usize = 40;

impl CallRecord for Record730 {
    ghost file = { file_730 };

    ghost call = { call_730 };

    ghost FRONT = { front_730 };

    ghost place_in_front = { lit≤ tt };

    const FRONT: usize = FRONT_730;

    fn read(s: &[u8]) -> Result<Record730, ReadRefusal> {
        read_730(s)
    }

    fn write(self, buf: &mut [u8], at: usize) -> Result<(), WriteRefusal> {
        write_730(buf, at, self)
    }

    fn of_call(s: &[u8]) -> Record730 {
        Record730 {
            mutation: word(s, MUTATION),
            srtcde: word(s, SRTCDE),
            code: word(s, CODE),
            cdhoev: long(s, CDHOEV),
            cdeenh: word(s, CDEENH),
        }
    }

    fn put_line(self, out: &mut [u8], at: usize) -> usize {
        let numbers = [
            self.mutation as u64,
            self.srtcde as u64,
            self.code as u64,
            self.cdhoev,
            self.cdeenh as u64,
        ];
        put_spaced(out, at, 0, &numbers)
    }
}

// These two stand under their names for who has the page of promises in hand.
pub fn put_read_730(s: &[u8], n: usize, out: &mut [u8], at: usize) -> usize
    requires { (front + n ≤ length s.now) × (at + longest_line ≤ length out.old) }
    ensures { Put out.old at (read_call file_730 s.now n) out.new result × (result ≤ at + longest_line) }
{
    put_read::<Record730>(s, n, out, at)
}

pub fn put_write_730(s: &mut [u8], n: usize, out: &mut [u8], at: usize) -> usize
    requires { (front_730 + n ≤ length s.old) × (n ≤ most_bytes) × (at + longest_line ≤ length out.old) }
    ensures { Put out.old at (write_730 s.old n) out.new result × (result ≤ at + longest_line) × (s.new ≡ left_730 s.old n) }
{
    put_write::<Record730>(s, n, out, at)
}
