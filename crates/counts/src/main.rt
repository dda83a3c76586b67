// Range checks in bulk (P2): cases from standard input, to standard output for each entry `131`, `132`, or a line for each count.
#![tactic(auto)]

use std::io;
use stream::cases::Form;

fn main(rt: HostRuntime) -> io::Result<()> {
    bulk::answer_input(&mut rt.stdin(), &mut rt.stdout(), Form::Range)
}
