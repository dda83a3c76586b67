// The line of what was read of a record, written at a place of a lent buffer. Each function answers the place behind what it wrote.
#![tactic(auto)]

ghost use Rattle.std.specs.Prelude.{◌≡◌, ◌+◌, ◌≤◌, length};
ghost use Rattle.decimals.specs.Decimal.{space};
ghost use Rattle.decimals.specs.Put.{Put};
ghost use Rattle.records.specs.Layout.{said, refused};
ghost use Rattle.records.specs.Numbers.{read_refusal, says};
ghost use Rattle.unit_line.specs.Line.{amount, line};

use decimals::{LINE_FEED, SPACE, put_digits, put_field, put_text};
use records::ReadRefusal;
use records_730::Record730;

const POINT: u8 = b'.';

// An amount in thousandths, and a space behind it.
#[tactic(auto, using(crate::proofs::Pieces::length_amount))]
fn put_amount(out: &mut [u8], at: usize, n: u64) -> usize
    requires { at + length (amount n space) ≤ length out.old }
    ensures { Put out.old at (amount n space) out.new result }
{
    let decimals = put_field(out, at, n / 1000, POINT);
    put_digits(out, decimals, 3, n % 1000);
    let end = decimals + 3;
    out[end] = SPACE;
    end + 1
}

#[tactic(auto, using(crate::proofs::Pieces::length_row))]
fn put_row(out: &mut [u8], at: usize, r: Record730) -> usize
    requires { at + length (line (said r)) ≤ length out.old }
    ensures { Put out.old at (line (said r)) out.new result }
{
    let srtcde = put_field(out, at, r.srtcde as u64, SPACE);
    let code = put_field(out, srtcde, r.code as u64, SPACE);
    let amount = put_amount(out, code, r.cdhoev);
    put_field(out, amount, r.cdeenh as u64, LINE_FEED)
}

#[tactic(auto, using(crate::proofs::Pieces::length_refused))]
fn put_refused(out: &mut [u8], at: usize, e: ReadRefusal) -> usize
    requires { at + length (line (refused (read_refusal e))) ≤ length out.old }
    ensures { Put out.old at (line (refused (read_refusal e))) out.new result }
{
    let number = put_text(out, at, b"refused ");
    put_field(out, number, e.number(), LINE_FEED)
}

pub fn put_line(out: &mut [u8], at: usize, read: Result<Record730, ReadRefusal>) -> usize
    requires { at + length (line (says read)) ≤ length out.old }
    ensures { Put out.old at (line (says read)) out.new result }
{
    match read {
        Ok(r) => put_row(out, at, r),
        Err(e) => put_refused(out, at, e),
    }
}
