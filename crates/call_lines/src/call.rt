// A call that reads or writes a record, whatever the file.
ghost use Rattle.std.specs.Prelude.{◌≡◌, ℕ, List, ◌+◌, ◌≤◌, length};
ghost use Rattle.decimals.specs.Put.{Put};
ghost use Rattle.records.specs.Layout.{said};
ghost use Rattle.records.specs.File.{File, reading, writing, leaves};
ghost use Rattle.records.specs.Numbers.{says, read_numbers, write_number};
ghost use Rattle.call_lines.specs.Lines.{front, most_bytes, longest_line, read_line, read_call, write_call, left_call};

use crate::FRONT;
use crate::lines::put_written;
use decimals::{LINE_FEED, put_field};
use numbers::long;
use records::{ReadRefusal, WriteRefusal};

// Where the place in the buffer stands in a call that writes.
const PLACE: usize = 12;

// A file's record, in calls.
pub trait CallRecord: Copy {
    ghost file: { File Self };

    ghost call: { List ℕ → Self };

    ghost FRONT: { ℕ };

    // How many bytes a writing call has in front of its buffer.
    const FRONT: usize;

    fn read(s: &[u8]) -> Result<Self, ReadRefusal>
        ensures { says result ≡ reading file s.now };

    fn write(self, buf: &mut [u8], at: usize) -> Result<(), WriteRefusal>
        ensures { (write_number result ≡ writing file self at (length buf.old)) × (buf.new ≡ leaves file self at buf.old) };

    // From the numbers of a writing call.
    fn of_call(s: &[u8]) -> Self
        requires { FRONT ≤ length s.now }
        ensures { result ≡ call s.now };

    // 0 and its numbers.
    fn put_line(self, out: &mut [u8], at: usize) -> usize
        requires { at + longest_line ≤ length out.old }
        ensures { Put out.old at (read_line (read_numbers file (said self))) out.new result × (result ≤ at + longest_line) };

    ghost place_in_front: { 20 ≤ FRONT };
}

#[tactic(auto, using(decimals::proofs::Decimal::field_64))]
pub fn put_read<R: CallRecord>(s: &[u8], n: usize, out: &mut [u8], at: usize) -> usize
    requires { (front + n ≤ length s.now) × (at + longest_line ≤ length out.old) }
    ensures { Put out.old at (read_call R.file s.now n) out.new result × (result ≤ at + longest_line) }
{
    let end = FRONT + n;
    match R::read(&s[FRONT..end]) {
        Ok(r) => r.put_line(out, at),
        Err(e) => put_field(out, at, e.number(), LINE_FEED),
    }
}

pub fn put_write<R: CallRecord>(s: &mut [u8], n: usize, out: &mut [u8], at: usize) -> usize
    requires { (R.FRONT + n ≤ length s.old) × (n ≤ most_bytes) × (at + longest_line ≤ length out.old) }
    ensures { Put out.old at (write_call R.file (R.call s.old) R.FRONT s.old n) out.new result × (result ≤ at + longest_line) × (s.new ≡ left_call R.file (R.call s.old) R.FRONT s.old n) }
{
    let r = R::of_call(s);
    let place = long(s, PLACE) as usize;
    let end = R::FRONT + n;
    let written = r.write(&mut s[R::FRONT..end], place);
    put_written(out, at, written, &s[R::FRONT..end])
}
