// An entry for the range check (P2): the number of its refusal, or a line for each answer that stands in the list.
ghost use Rattle.std.specs.Prelude.{◌≡◌, ◌+◌, ◌*◌, ◌≤◌, length};
ghost use Rattle.decimals.specs.Put.{Put};
ghost use Rattle.guideline.specs.Bytes.{spelled};
ghost use Rattle.guideline.specs.Check.{answer_length};
ghost use Rattle.guideline.specs.Counts.{in_turn, numbers_at};
ghost use Rattle.guideline.specs.Lent.{lent};
ghost use Rattle.each_count.specs.Each.{AnswersEach};
ghost use Rattle.stream.specs.Cases.{most_places};
ghost use Rattle.stream.specs.Lines.{line, longest_line};
ghost use Rattle.case_lines.specs.Lines.{Fitting, InList, counted_lines, range_lines, longest_range};

use crate::Tested;
use each_count::{check_each, check_each_after};
use guideline::answer::Answer;
use guideline::counted::RangeRefusal;
use guideline::entries::Entry;
use guideline::lents::LentTables;
use stream::cases::Wanted;

// Room for the lines of 16 answers.
pub const LONGEST: usize = 1_584;

// The numbers of the longest list, of 64 places.
const LIST: usize = 576;

fn answer(
    t: LentTables<'_>,
    tested: Option<Tested>,
    e: Entry,
    w: Wanted,
    list: &mut [u32],
) -> Result<usize, RangeRefusal>
    requires { Fitting tested (lent t) }
    ensures { AnswersEach (lent t.entry) e w.first w.last list.old list.new result }
{
    match tested {
        None => check_each(t, e, w.first, w.last, list),
        Some(tested) => check_each_after(t, tested, e, w.first, w.last, list),
    }
}

// The lines of the first n places.
fn put_places(list: &[u32], n: usize, out: &mut [u8], at: usize) -> usize
    requires { (n * answer_length ≤ length list.now) × (at + n * longest_line ≤ length out.old) }
    ensures { Put out.old at (in_turn (λ i. line (numbers_at i list.now)) n) out.new result × (result ≤ at + n * longest_line) }
{
    let mut end = at;
    for i in 0..n {
        let from = i * Answer::LENGTH;
        let to = from + Answer::LENGTH;
        end = stream::lines::put_numbers(&list[from..to], out, end);
    }
    end
}

fn put_counted(
    counted: Result<usize, RangeRefusal>,
    list: &[u32],
    out: &mut [u8],
    at: usize,
) -> usize
    requires { InList counted (length list.now) × (at + longest_range ≤ length out.old) }
    ensures { Put out.old at (counted_lines (λ i. numbers_at i list.now) counted) out.new result × (result ≤ at + longest_range) }
{
    match counted {
        Ok(n) => put_places(list, n, out, at),
        Err(why) => stream::lines::put_numbers(&[why.number()], out, at),
    }
}

// By a list of as many places as are wanted.
fn put_by(
    t: LentTables<'_>,
    tested: Option<Tested>,
    e: Entry,
    w: Wanted,
    list: &mut [u32],
    out: &mut [u8],
    at: usize,
) -> usize
    requires { Fitting tested (lent t) × (length list.old ≡ w.places * answer_length) × (at + longest_range ≤ length out.old) }
    ensures { Put out.old at (range_lines (spelled (lent t.entry)) e w) out.new result × (result ≤ at + longest_range) }
{
    let counted = answer(t, tested, e, w, list);
    put_counted(counted, list, out, at)
}

pub fn put(
    t: LentTables<'_>,
    tested: Option<Tested>,
    e: Entry,
    w: Wanted,
    out: &mut [u8],
    at: usize,
) -> usize
    requires { Fitting tested (lent t) × (w.places ≤ most_places) × (at + longest_range ≤ length out.old) }
    ensures { Put out.old at (range_lines (spelled (lent t.entry)) e w) out.new result × (result ≤ at + longest_range) }
{
    // Of fixed length: no heap, so no Vec.
    let mut list = [0u32; LIST];
    let n = w.places as usize * Answer::LENGTH;
    put_by(t, tested, e, w, &mut list[..n], out, at)
}
