// The programs of a cutting table journalled on a card, told as it goes, with the power cut in an entry and in a change of halves.
#![tactic(auto)]

mod cuts;
mod journalled;
mod paths;
mod table;
mod telling;

fn run(rt: &HostRuntime) -> anyhow::Result<()> {
    let programs = table::sorted(rt.alloc())?;
    telling::tell(rt, programs.as_slice())
}

fn main(rt: HostRuntime) -> anyhow::Result<()> {
    run(&rt)
}
