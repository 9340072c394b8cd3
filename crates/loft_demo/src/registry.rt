// The table's programs in a catalogue: three parts and the task that refers to them, a generation, a closure and a free run.
use anyhow::Context;
use catalogue::Catalogue;
use naming::Hash;
use programs::{BLOCKS, PART_SIZE, PROFILE, Program, TASK_SIZE};
use queries::{closure, free_run};
use records::Entry;

// The length of the run that is looked for at the end.
const WANTED: u32 = 10;

fn register(
    rt: &HostRuntime,
    catalogue: &mut Catalogue,
    program: &Program,
    size: u32,
    needed: &[Hash],
) -> anyhow::Result<()> {
    let path = program
        .placed(catalogue, size, needed)
        .context("no room on the card")?;
    catalogue
        .apply(&Entry::Register(path))
        .context("the path does not fit the catalogue")?;
    let first = path.first;
    println!(rt; "  {program}: {size} bytes from block {first}")?;
    Ok(())
}

// Registers the parts, and after them the task that refers to all of them.
fn register_all(
    rt: &HostRuntime,
    catalogue: &mut Catalogue,
    parts: &[Program],
    task: &Program,
) -> anyhow::Result<()> {
    println!(rt;
        "Registered on a card of {BLOCKS} blocks, the last with references to the others:"
    )?;
    // Named: the checker does not cover a slice without a name that is lent in a loop.
    let none: [Hash; 0] = [];
    for part in parts {
        register(rt, catalogue, part, PART_SIZE, &none)?;
    }
    let needed: Vec<Hash> = parts.iter().map(|part| part.hash).collect(rt.alloc())?;
    register(rt, catalogue, task, TASK_SIZE, needed.as_slice())
}

fn commit(rt: &HostRuntime, catalogue: &mut Catalogue, task: &Program) -> anyhow::Result<()> {
    let entry = Entry::Commit {
        profile: PROFILE,
        number: 1,
        hash: task.hash,
    };
    match catalogue.apply(&entry) {
        Ok(_) => println!(rt; "Profile {PROFILE} has generation 1: {task}")?,
        Err(_) => println!(rt; "Profile {PROFILE} takes no generation 1")?,
    }
    Ok(())
}

fn tell_closure(rt: &HostRuntime, catalogue: &Catalogue, task: &Program) -> anyhow::Result<()> {
    let row = catalogue
        .row_of(&task.hash)
        .context("the task is not registered")?;
    let members = closure(catalogue, row);
    let count = members.len();
    println!(rt; "Its closure has {count} paths:")?;
    for (row, path) in catalogue.paths().iter().enumerate() {
        if members.contains(row) {
            let member = Program::from(*path);
            println!(rt; "  {member}")?;
        }
    }
    Ok(())
}

fn tell_removal(
    rt: &HostRuntime,
    catalogue: &mut Catalogue,
    program: &Program,
) -> anyhow::Result<()> {
    match catalogue.apply(&Entry::Remove(program.hash)) {
        Ok(_) => println!(rt; "Removed {program}")?,
        Err(_) => println!(rt; "Not removed, since it is needed: {program}")?,
    }
    Ok(())
}

fn tell_room(rt: &HostRuntime, catalogue: &Catalogue) -> anyhow::Result<()> {
    match free_run(catalogue, &[], WANTED) {
        Some(first) => println!(rt;
            "The last free run of {WANTED} blocks starts at block {first}"
        )?,
        None => println!(rt; "There is no free run of {WANTED} blocks")?,
    }
    Ok(())
}

pub(crate) fn tell(rt: &HostRuntime, programs: &[Program]) -> anyhow::Result<()> {
    let [parts @ .., task] = programs else {
        return Ok(());
    };
    let mut catalogue = Catalogue::new(rt.alloc(), BLOCKS)?;
    register_all(rt, &mut catalogue, parts, task)?;
    commit(rt, &mut catalogue, task)?;
    tell_closure(rt, &catalogue, task)?;
    if let Some(part) = parts.first() {
        tell_removal(rt, &mut catalogue, part)?;
    }
    tell_room(rt, &catalogue)
}
