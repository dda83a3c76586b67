// From the bytes of a case to its lines, entry by entry.
#![tactic(auto)]

ghost use Rattle.std.specs.Prelude.{◌≡◌, ◌+◌, ◌≤◌, ◌<◌, length};
ghost use Rattle.decimals.specs.Put.{Put};
ghost use Rattle.guideline.specs.Lent.{lent};
ghost use Rattle.stream.specs.Cases.{tables_of, tables_end, entry_count, Whole};
ghost use Rattle.case_lines.specs.Lines.{Fitting, test_of, lines_of, longest_text, Ready, Answered};

use guideline::lents::LentTables;
use guideline::refusals::Refusal;
use keys::seen::AllSeen;
use ranges::sound::tables_sound;
use stream::cases::{Form, entry, entry_count, tables, wanted_of};

pub mod range;
pub mod single;

// What was seen of the tables, or their refusal.
pub type Tested = Result<AllSeen, Refusal>;

// The entry to go on with, where any is left, and the place behind the lines.
#[derive(Clone, Copy)]
pub struct Progress {
    pub next: Option<usize>,
    pub end: usize,
}

// The tables of a case are tested once for all its entries, or (None) by the check where there is one.
pub fn test_tables(case: &[u8]) -> Option<Tested>
    requires { tables_end case.now ≤ length case.now }
    ensures { result ≡ test_of case.now }
{
    if entry_count(case) <= 1 {
        return None;
    }
    Some(tables_sound(tables(case)))
}

// Room for what any entry gets.
pub fn longest(form: Form) -> usize
    ensures { result ≡ longest_text form }
{
    match form {
        Form::Single => stream::lines::LONGEST,
        Form::Range => range::LONGEST,
    }
}

// What entry i gets, over the tables of the case.
fn put_entry(
    form: Form,
    case: &[u8],
    i: usize,
    t: LentTables<'_>,
    tested: Option<Tested>,
    out: &mut [u8],
    at: usize,
) -> usize
    requires { Whole form case.now × (i < entry_count case.now) × Fitting tested (tables_of case.now) × (lent t ≡ tables_of case.now) × (at + longest_text form ≤ length out.old) }
    ensures { Put out.old at (lines_of form case.now i) out.new result × (result ≤ at + longest_text form) }
{
    let e = entry(form, case, i);
    match form {
        Form::Single => single::put(t, tested, e, out, at),
        Form::Range => range::put(t, tested, e, wanted_of(case, i), out, at),
    }
}

// What an entry and those behind it get, at a place of a lent buffer, as long as there is room for what any entry gets.
pub fn lines(
    form: Form,
    case: &[u8],
    tested: Option<Tested>,
    from: usize,
    out: &mut [u8],
    at: usize,
) -> Progress
    requires { Ready form case.now tested from (length out.old) at }
    ensures { Answered form case.now from out.old at out.new result }
{
    let t = tables(case);
    let longest = longest(form);
    let mut end = at;
    for i in from..entry_count(case) {
        if out.len() - end < longest {
            return Progress { next: Some(i), end };
        }
        end = put_entry(form, case, i, t, tested, out, end);
    }
    Progress { next: None, end }
}
