// Reads a plan from standard input and words from its arguments, draws labels of the kinds X, S and B on the plan's
// tracks, and prints them, or why it is refused.
#![tactic(auto)]

use listing::read_input;
use std::env;
use std::rt::Env;

mod drawing;
mod text;

use text::printed_text;

// The words, decimal numbers of 64 bits, one to an argument. The program `judged` reads its labels likewise, and says why it does so for itself.
fn words_given(rt: &(impl Env + AllocGlobal)) -> anyhow::Result<Vec<u64>> {
    env::args(rt)?
        .skip(1)
        .map(|word| Ok(word.parse()?))
        .try_collect(rt.alloc())
}

fn run(rt: &(impl Env + Input + Print + AllocGlobal)) -> anyhow::Result<()> {
    let words = words_given(rt)?;
    let input = read_input(rt.alloc(), rt.reader())?;
    let text = printed_text(rt.alloc(), input.as_slice(), words.as_slice())?;
    print!(rt; "{text}")?;
    Ok(())
}

fn main(rt: HostRuntime) -> anyhow::Result<()> {
    run(&rt)
}
