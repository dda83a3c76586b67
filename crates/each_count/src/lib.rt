// The check for each count of a range (P2): "1 to 3 times a day" is 1, 2 and 3 times a day, each by itself.
#![tactic(auto)]

ghost use Rattle.std.specs.Prelude.{◌≡◌, ◌++◌, ◌+◌, ◌*◌, ◌≤◌, length, drop};
ghost use Rattle.std.proofs.lemmas.List.Edits.{sets};
ghost use Rattle.guideline.specs.Bytes.{spelled};
ghost use Rattle.guideline.specs.Check.{answer_length};
ghost use Rattle.guideline.specs.Counts.{on_unless_given, counted, answers_from};
ghost use Rattle.guideline.specs.Lent.{lent};
ghost use Rattle.ranges.specs.Soundly.{soundness};
ghost use Rattle.each_count.specs.Each.{AnswersEach};

use guideline::answer::Answer;
use guideline::counted::RangeRefusal;
use guideline::entries::{Entry, Prescription, given_or};
use guideline::lents::LentTables;
use guideline::refusals::Refusal;
use keys::seen::AllSeen;
use ranges::sound::tables_sound;

const MOST_COUNTS: usize = 16;

// 131, then 132; or how many counts there are.
#[tactic(auto, unfolding(guideline::specs::Counts::counted))]
fn count(first: u32, last: u32, places: usize) -> Result<usize, RangeRefusal>
    ensures { result ≡ counted first last places }
{
    if last < first {
        return Err(RangeRefusal::NoRange);
    }
    let n = (last - first) as usize + 1;
    if MOST_COUNTS < n {
        return Err(RangeRefusal::NoRange);
    }
    if places < n {
        return Err(RangeRefusal::NoRoom);
    }
    Ok(n)
}

fn put_numbers(list: &mut [u32], at: usize, numbers: &[u32])
    requires { at + length numbers.now ≤ length list.old }
    ensures { list.new ≡ sets list.old at numbers.now }
{
    // No copy_from_slice, which may call memmove: the C functions that a program calls are pinned.
    for (i, number) in numbers.iter().enumerate() {
        list[at + i] = *number;
    }
}

// P3: the range check "says on where its entry gives no setting".
fn on_unless_given(e: Entry) -> Entry
    ensures { result ≡ on_unless_given e }
{
    e.with_months(given_or(e.rest.months, Prescription::ON))
}

// n answers, from that of the first count on.
fn put_answers(
    t: LentTables<'_>,
    tested: Result<AllSeen, Refusal>,
    e: Entry,
    first: u32,
    n: usize,
    list: &mut [u32],
)
    requires { (tested ≡ soundness (lent t)) × (n * answer_length ≤ length list.old) × (first + n ≤ 4_294_967_296) }
    ensures { list.new ≡ answers_from (spelled (lent t.entry)) e first n ++ drop (n * answer_length) list.old }
{
    let asked = on_unless_given(e);
    for i in 0..n {
        let count = first + i as u32;
        let a = dosecheck::check_after(t, tested, asked.with_count(count));
        put_numbers(list, i * Answer::LENGTH, &a.numbers());
    }
}

// The range check, where the tables have been tested already.
pub fn check_each_after(
    t: LentTables<'_>,
    tested: Result<AllSeen, Refusal>,
    e: Entry,
    first: u32,
    last: u32,
    list: &mut [u32],
) -> Result<usize, RangeRefusal>
    requires { tested ≡ soundness (lent t) }
    ensures { AnswersEach (lent t.entry) e first last list.old list.new result }
{
    let n = count(first, last, list.len() / Answer::LENGTH)?;
    put_answers(t, tested, e, first, n, list);
    Ok(n)
}

// The range check of P2, for all tables, entries, counts and lists that can be handed over. The tables are tested once, and not where the range is refused.
pub fn check_each(
    t: LentTables<'_>,
    e: Entry,
    first: u32,
    last: u32,
    list: &mut [u32],
) -> Result<usize, RangeRefusal>
    ensures { AnswersEach (lent t.entry) e first last list.old list.new result }
{
    count(first, last, list.len() / Answer::LENGTH)?;
    check_each_after(t, tables_sound(t), e, first, last, list)
}
