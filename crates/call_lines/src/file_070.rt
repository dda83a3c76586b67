// The calls of file 070.
ghost use Rattle.std.specs.Prelude.{◌≡◌, ◌+◌, ◌≤◌, length};
ghost use Rattle.std.proofs.Common.{lit≤};
ghost use Rattle.decimals.specs.Put.{Put};
ghost use Rattle.records_070.specs.File070.{file_070};
ghost use Rattle.call_lines.specs.Lines.{front, front_070, most_bytes, longest_line, call_070, read_call, write_070, left_070};

use crate::call::{CallRecord, put_read, put_write};
use crate::lines::put_spaced;
use numbers::word;
use records::{ReadRefusal, WriteRefusal};
use records_070::{Record070, read_070, write_070};

// How many bytes a writing call has in front of its buffer.
pub const FRONT_070: usize = 48;

// Where its numbers stand.
const MUTATION: usize = 20;

const HPKODE: usize = 24;

const PRKODE: usize = 28;

const HPANPR: usize = 32;

const GPKODE: usize = 36;

const PRANGP: usize = 40;

const HPANGP: usize = 44;

impl CallRecord for Record070 {
    ghost file = { file_070 };

    ghost call = { call_070 };

    ghost FRONT = { front_070 };

    ghost place_in_front = { lit≤ tt };

    const FRONT: usize = FRONT_070;

    fn read(s: &[u8]) -> Result<Record070, ReadRefusal> {
        read_070(s)
    }

    fn write(self, buf: &mut [u8], at: usize) -> Result<(), WriteRefusal> {
        write_070(buf, at, self)
    }

    fn of_call(s: &[u8]) -> Record070 {
        Record070 {
            mutation: word(s, MUTATION),
            hpkode: word(s, HPKODE),
            prkode: word(s, PRKODE),
            hpanpr: word(s, HPANPR),
            gpkode: word(s, GPKODE),
            prangp: word(s, PRANGP),
            hpangp: word(s, HPANGP),
        }
    }

    fn put_line(self, out: &mut [u8], at: usize) -> usize {
        let numbers = [
            self.mutation as u64,
            self.hpkode as u64,
            self.prkode as u64,
            self.hpanpr as u64,
            self.gpkode as u64,
            self.prangp as u64,
            self.hpangp as u64,
        ];
        put_spaced(out, at, 0, &numbers)
    }
}

// These two stand under their names for who has the page of promises in hand.
pub fn put_read_070(s: &[u8], n: usize, out: &mut [u8], at: usize) -> usize
    requires { (front + n ≤ length s.now) × (at + longest_line ≤ length out.old) }
    ensures { Put out.old at (read_call file_070 s.now n) out.new result × (result ≤ at + longest_line) }
{
    put_read::<Record070>(s, n, out, at)
}

pub fn put_write_070(s: &mut [u8], n: usize, out: &mut [u8], at: usize) -> usize
    requires { (front_070 + n ≤ length s.old) × (n ≤ most_bytes) × (at + longest_line ≤ length out.old) }
    ensures { Put out.old at (write_070 s.old n) out.new result × (result ≤ at + longest_line) × (s.new ≡ left_070 s.old n) }
{
    put_write::<Record070>(s, n, out, at)
}
