// P7, hosts on the former text set: the one place that knows editions. (That there are two is a range of the entry: 125.)
ghost use Rattle.std.specs.Prelude.{◌≡◌};
ghost use Rattle.guideline.specs.Edition.{missing_frequency, former_signal, former_text, in_former, in_edition};

use guideline::answer::Answer;
use guideline::entries::Prescription;
use guideline::range::Range;

// "115, 116 or 117"
const SIGNALS: Range = Range {
    low: 115,
    high: 117,
};

#[tactic(auto, unfolding(guideline::specs::Edition::missing_frequency))]
fn missing_frequency(n: u32) -> bool
    ensures { result ≡ missing_frequency n }
{
    SIGNALS.holds(n)
}

// "Edition 1 gives 117"
#[tactic(auto, unfolding(guideline::specs::Edition::former_signal))]
fn former_signal(n: u32) -> u32
    ensures { result ≡ former_signal n }
{
    if missing_frequency(n) {
        return 117;
    }
    n
}

// "with text 8"
#[tactic(auto, unfolding(guideline::specs::Edition::former_text))]
fn former_text(answer: u32, text: u32) -> u32
    ensures { result ≡ former_text answer text }
{
    if missing_frequency(answer) {
        return 8;
    }
    text
}

#[tactic(auto, unfolding(guideline::specs::Edition::in_former))]
fn in_former(a: Answer) -> Answer
    ensures { result ≡ in_former a }
{
    Answer {
        answer: former_signal(a.answer),
        text: former_text(a.answer, a.text),
        suppressed: former_signal(a.suppressed),
        ..a
    }
}

// An answer as edition 2 gives it, in the entry's edition.
#[tactic(auto, unfolding(guideline::specs::Edition::in_edition))]
pub fn in_edition(edition: u32, a: Answer) -> Answer
    ensures { result ≡ in_edition edition a }
{
    if edition == Prescription::FORMER {
        return in_former(a);
    }
    a
}
