// Every capacity at its limits: none, one short, exactly full, one over. Prints 0 for a call that is granted, and else the number of the
// refusal; what it must print stands in the file stdout.
#![tactic(auto)]

mod answer;
mod fresh;
mod one_row;
mod whole_book;

fn run(rt: &HostRuntime) -> anyhow::Result<()> {
    one_row::show(rt)?;
    whole_book::show(rt)
}

fn main(rt: HostRuntime) -> anyhow::Result<()> {
    run(&rt)
}
