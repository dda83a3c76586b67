// An entry for the single check: the line of its answer.
ghost use Rattle.std.specs.Prelude.{◌≡◌, ◌+◌, ◌≤◌, length};
ghost use Rattle.decimals.specs.Put.{Put};
ghost use Rattle.guideline.specs.Bytes.{spelled};
ghost use Rattle.guideline.specs.Check.{check};
ghost use Rattle.guideline.specs.Lent.{lent};
ghost use Rattle.stream.specs.Lines.{longest_line};
ghost use Rattle.case_lines.specs.Lines.{Fitting, answer_line};

use crate::Tested;
use dosecheck::{check, check_after};
use guideline::answer::Answer;
use guideline::entries::Entry;
use guideline::lents::LentTables;

// By the value, and no closure: what was tested goes into the contract.
fn answer(t: LentTables<'_>, tested: Option<Tested>, e: Entry) -> Answer
    requires { Fitting tested (lent t) }
    ensures { result ≡ check (spelled (lent t.entry)) e }
{
    match tested {
        None => check(t, e),
        Some(tested) => check_after(t, tested, e),
    }
}

pub fn put(t: LentTables<'_>, tested: Option<Tested>, e: Entry, out: &mut [u8], at: usize) -> usize
    requires { Fitting tested (lent t) × (at + longest_line ≤ length out.old) }
    ensures { Put out.old at (answer_line (spelled (lent t.entry)) e) out.new result × (result ≤ at + longest_line) }
{
    stream::lines::put_line(answer(t, tested, e), out, at)
}
