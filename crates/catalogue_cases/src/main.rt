// Tables of entries that fit a catalogue and that do not, each rule at its edge; closures, free runs, and listings made again.
#![tactic(auto)]

mod entries;
mod listings;
mod tables;

use catalogue::Catalogue;
use entries::{hash, plain_path, told};
use order::RowSet;
use queries::{closure, free_run, newest, newest_below};
use records::Entry;

// Applies the entry, where it could be made and fits.
fn apply(catalogue: &mut Catalogue, entry: Option<Entry>) {
    if let Some(entry) = entry {
        let _ = catalogue.apply(&entry);
    }
}

fn registers(rt: &HostRuntime, catalogue: &mut Catalogue) -> anyhow::Result<()> {
    for number in 1..9u8 {
        apply(catalogue, plain_path(number, 0, 0, &[]));
    }
    apply(catalogue, plain_path(10, 257, 200, &[]));
    println!(rt; "Registers, after hashes 1 to 8 and 10, which has blocks 200 and 201 of 256:")?;
    for (what, number, size, first, refs) in tables::REGISTERS {
        let answer = told(catalogue, plain_path(number, size, first, refs));
        println!(rt; "  {answer}  {what}")?;
    }
    Ok(())
}

fn generations(rt: &HostRuntime, catalogue: &mut Catalogue) -> anyhow::Result<()> {
    println!(rt; "Generations, each entry applied where it fits:")?;
    for (what, kind, profile, number, part) in tables::GENERATIONS {
        let entry = Some(entries::of_profile(kind, profile, number, part));
        let answer = told(catalogue, entry);
        apply(catalogue, entry);
        println!(rt; "  {answer}  {what}")?;
    }
    for profile in 0..4u8 {
        let all = newest(catalogue, profile);
        let below = newest_below(catalogue, profile, 9);
        println!(rt; "  profile {profile}: newest {all:?}, below 9 {below:?}")?;
    }
    Ok(())
}

fn removes(rt: &HostRuntime, catalogue: &mut Catalogue) -> anyhow::Result<()> {
    println!(rt; "Removes, each applied where it fits:")?;
    apply(catalogue, plain_path(50, 0, 0, &[50]));
    apply(catalogue, plain_path(51, 0, 0, &[50]));
    for (what, number) in tables::REMOVES {
        let entry = Some(Entry::Remove(hash(number)));
        let answer = told(catalogue, entry);
        apply(catalogue, entry);
        println!(rt; "  {answer}  {what}")?;
    }
    Ok(())
}

fn closures(rt: &HostRuntime, catalogue: &mut Catalogue) -> anyhow::Result<()> {
    println!(rt; "Closures:")?;
    for (number, refs) in tables::NEEDS {
        apply(catalogue, plain_path(number, 0, 0, refs));
    }
    for row in 0..catalogue.paths().len() {
        let members = closure(catalogue, row);
        let count = members.len();
        println!(rt; "  row {row} needs {count}:")?;
        tell_rows(rt, members)?;
    }
    Ok(())
}

fn tell_rows(rt: &HostRuntime, rows: RowSet) -> anyhow::Result<()> {
    for row in 0..64usize {
        if rows.contains(row) {
            println!(rt; "    row {row}")?;
        }
    }
    Ok(())
}

fn free_runs(rt: &HostRuntime, catalogue: &mut Catalogue) -> anyhow::Result<()> {
    println!(rt; "Free runs, with blocks 136, 142 to 144, 148 to 154 and 156 to 255 taken:")?;
    for (number, size, first) in tables::TAKEN {
        apply(catalogue, plain_path(number, size, first, &[]));
    }
    for count in 0..10u32 {
        let first = free_run(catalogue, &[], count);
        println!(rt; "  {count} blocks: {first:?}")?;
    }
    Ok(())
}

fn run(rt: &HostRuntime) -> anyhow::Result<()> {
    let mut catalogue = Catalogue::new(rt.alloc(), 256)?;
    registers(rt, &mut catalogue)?;
    generations(rt, &mut catalogue)?;
    removes(rt, &mut catalogue)?;
    listings::again(rt, &catalogue)?;
    let mut needs = Catalogue::new(rt.alloc(), 256)?;
    closures(rt, &mut needs)?;
    let mut gaps = Catalogue::new(rt.alloc(), 256)?;
    free_runs(rt, &mut gaps)?;
    listings::again(rt, &gaps)?;
    listings::full(rt)
}

fn main(rt: HostRuntime) -> anyhow::Result<()> {
    run(&rt)
}
