// One task at a cutting table, told as it goes: the table's list, the catalogue of its programs, and what a power cut leaves of a block.
#![tactic(auto)]

mod power;
mod registry;
mod table;

fn run(rt: &HostRuntime) -> anyhow::Result<()> {
    let mut programs = table::take(rt)?;
    table::tell_sorted(rt, &mut programs)?;
    registry::tell(rt, programs.as_slice())?;
    power::tell(rt)
}

fn main(rt: HostRuntime) -> anyhow::Result<()> {
    run(&rt)
}
