// Reads a plan from standard input and prints its track table, or why it is refused.
#![tactic(auto)]

use listing::{printed_text, read_input};

fn run(rt: &(impl Input + Print + AllocGlobal)) -> anyhow::Result<()> {
    let input = read_input(rt.alloc(), rt.reader())?;
    let text = printed_text(rt.alloc(), input.as_slice())?;
    print!(rt; "{text}")?;
    Ok(())
}

fn main(rt: HostRuntime) -> anyhow::Result<()> {
    run(&rt)
}
