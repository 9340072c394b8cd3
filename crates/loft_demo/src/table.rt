// The table's list of programs: which lines are taken, and the programs in hash order.
use programs::{LISTED, Program};

// Takes the lines that are good, in the order of the list.
pub(crate) fn take(rt: &HostRuntime) -> anyhow::Result<Vec<Program>> {
    let mut programs = Vec::with_capacity(rt.alloc(), LISTED.len())?;
    println!(rt; "The table's list:")?;
    for (part, name) in LISTED {
        match Program::listed(part, name) {
            Some(program) => {
                println!(rt; "  taken    {program}")?;
                programs.push(program)?;
            }
            None => println!(rt; "  refused  {part}-{name}")?,
        }
    }
    Ok(programs)
}

pub(crate) fn tell_sorted(rt: &HostRuntime, programs: &mut Vec<Program>) -> anyhow::Result<()> {
    programs.sort()?;
    println!(rt; "In hash order:")?;
    for program in programs.as_slice() {
        println!(rt; "  {program}")?;
    }
    Ok(())
}
