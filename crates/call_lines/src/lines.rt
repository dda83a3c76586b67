// Parts of lines that every file's calls have. Each function answers the place behind what it wrote.
ghost use Rattle.std.specs.Prelude.{◌≡◌, ◌+◌, ◌*◌, ◌≤◌, length};
ghost use Rattle.decimals.specs.Put.{Put};
ghost use Rattle.records.specs.Numbers.{write_number};
ghost use Rattle.call_lines.specs.Lines.{most_bytes, longest_line, spaced, write_line};

use crate::hex::put_hex;
use decimals::{LINE_FEED, SPACE, put_field};
use records::WriteRefusal;

// Room for a number of 64 bits and the character behind it, each.
#[tactic(auto, using(decimals::proofs::Decimal::field_64))]
pub fn put_spaced(out: &mut [u8], at: usize, first: u64, others: &[u64]) -> usize
    requires { at + 21 * (1 + length others.now) ≤ length out.old }
    ensures { Put out.old at (spaced first others.now) out.new result × (result ≤ at + 21 * (1 + length others.now)) }
{
    let mut last = first;
    let mut end = at;
    for n in others {
        end = put_field(out, end, last, SPACE);
        last = *n;
    }
    put_field(out, end, last, LINE_FEED)
}

fn number_of(written: Result<(), WriteRefusal>) -> u64
    ensures { result ≡ write_number written }
{
    match written {
        Ok(()) => 0,
        Err(e) => e.number(),
    }
}

#[tactic(auto, using(decimals::proofs::Decimal::field_64, crate::proofs::Lining::length_hex))]
pub fn put_written(
    out: &mut [u8],
    at: usize,
    written: Result<(), WriteRefusal>,
    buffer: &[u8],
) -> usize
    requires { (length buffer.now ≤ most_bytes) × (at + longest_line ≤ length out.old) }
    ensures { Put out.old at (write_line (write_number written) buffer.now) out.new result × (result ≤ at + longest_line) }
{
    let bytes = put_field(out, at, number_of(written), SPACE);
    let end = put_hex(out, bytes, buffer);
    out[end] = LINE_FEED;
    end + 1
}
