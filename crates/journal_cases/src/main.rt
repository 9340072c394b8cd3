// Every power cut in a run of entries that changes halves three times, tried on the bench card, plain and under write-behind: what a restart finds
// has to be the catalogue before the entry that was cut, or the one after it.
#![tactic(auto)]

mod trying;

use anyhow::{Context, anyhow};
use bench_card::BenchCard;
use naming::{Hash, Name};
use records::{PathRecord, References};
use std::alloc::Global;
use tallies::{BLOCKS, Cut, Ending, KEPT, OPERATIONS, Tally, all_cuts};
use trying::try_entries;
use write_behind::WriteBehind;

// What the run ends in on the bytes of a new card, with every cut and every restart number.
fn try_cuts<F: Fn(&mut [u8], Cut) -> anyhow::Result<Ending>>(
    heap: Global,
    run: F,
) -> anyhow::Result<Tally>
    requires { F.IsAlwaysCallable run }
{
    let mut tally = Tally::default();
    for cut in all_cuts(heap, OPERATIONS, &KEPT)? {
        let mut bytes = vec![in heap; 0; BLOCKS * 512]?;
        tally.count(run(bytes.as_mut_slice(), cut)?);
    }
    Ok(tally)
}

// In words of its own: a tally is printed without the cuts in the format, which stand second here.
fn tell(rt: &HostRuntime, on: &str, tally: Tally) -> anyhow::Result<()> {
    let Tally {
        uncut,
        in_format,
        before,
        after,
        neither,
    } = tally;
    println!(rt;
        "{on}: {uncut} uncut, {in_format} cut in format, {before} found as before, {after} found as after, {neither} found otherwise"
    )?;
    Ok(())
}

fn run(rt: &HostRuntime) -> anyhow::Result<()> {
    let heap = rt.alloc();
    let path = PathRecord {
        hash: Hash::new([7; 20]),
        name: Name::new(b"vacuum-1").context("no name")?,
        size: 0,
        first: 0,
        refs: References::new(),
    };
    let plain = try_cuts(heap, |bytes, cut| {
        let mut card = BenchCard::new(bytes, cut.at, cut.kept);
        try_entries(heap, &mut card, &path)
    })?;
    tell(rt, "on the bench card", plain)?;
    let layered = try_cuts(heap, |bytes, cut| {
        // By a pattern: of `ok` and `map_err`, which take the disk with what is lent to it, the checker makes no proof.
        let Ok(mut layer) = WriteBehind::new(heap, BenchCard::new(bytes, cut.at, cut.kept)) else {
            return Err(anyhow!("no memory"));
        };
        try_entries(heap, &mut layer, &path)
    })?;
    tell(rt, "under write-behind", layered)
}

fn main(rt: HostRuntime) -> anyhow::Result<()> {
    run(&rt)
}
