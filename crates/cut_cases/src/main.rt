// Power cuts tried on the bench card, plain and under write-behind: every single cut of a run of entries that changes halves three times, and pairs of
// cuts around changes of halves. What a restart finds has to be the catalogue before the entry that was cut, or the one after it.
#![tactic(auto)]

mod cutting;
mod runs;
mod scripts;
#[cfg(test)]
mod tests;
mod trying;

use anyhow::Context;
use cutting::{CutPairs, Found, pairs_around, single_cuts};
use naming::Name;
use runs::{Entries, Layer, Run, Start};
use scripts::{Script, empty_path};
use std::alloc::Global;
use tallies::{ENTRIES, KEPT, OPERATIONS, all_cuts};

// The numbers around a change of halves: nothing is kept, all is, or the label (with the blocks that share its bit) and all else are told apart.
const AROUND: [u32; 4] = [0, 0xffff_ffff, 1, 0xffff_fffe];

// Fewer, where the pairs are many.
const FIRST: [u32; 2] = [0, 0xffff_fffe];

const SECOND: [u32; 1] = [1];

// More operations than a run around a change of halves has.
const OPERATIONS_AROUND: u64 = 141;

// Changes of halves to cut around: the script, the entries of it in which they come, which entries follow a first cut, and the numbers for the restarts.
#[derive(Clone, Copy, PartialEq, Eq, Debug)]
struct Changes {
    what: &'static str,
    script: Script,
    entries: &'static [u32],
    then: Entries,
    first_kept: &'static [u32],
    second_kept: &'static [u32],
}

fn tell_singles(rt: &HostRuntime, script: Script, layer: Layer) -> anyhow::Result<()> {
    let run = Run {
        script,
        layer,
        start: Start::Format,
        entries: Entries::Scripted,
        from: 0,
        to: ENTRIES,
    };
    let cuts = all_cuts(rt.alloc(), OPERATIONS, &KEPT)?;
    let tally = single_cuts(rt.alloc(), run, cuts.as_slice())?;
    println!(rt;
        "single cuts, {layer}: {} cut in format, {tally}",
        tally.in_format
    )?;
    Ok(())
}

// What the pairs of cuts around these changes end in.
fn pairs_of(heap: Global, changes: &Changes, layer: Layer) -> anyhow::Result<Found> {
    let cuts = CutPairs {
        first: all_cuts(heap, OPERATIONS_AROUND, changes.first_kept)?,
        second: all_cuts(heap, OPERATIONS_AROUND, changes.second_kept)?,
        then: changes.then,
    };
    pairs_around(heap, changes.script, layer, changes.entries, &cuts)
}

fn tell_pairs(rt: &HostRuntime, changes: &Changes, layer: Layer) -> anyhow::Result<()> {
    let Found { first, second } = pairs_of(rt.alloc(), changes, layer)?;
    println!(rt;
        "pairs of cuts, {layer}, around {}: after {first} first cuts {second}",
        changes.what
    )?;
    Ok(())
}

// The changes of halves of the run with single cuts.
fn short_changes(name: Name, what: &'static str, then: Entries) -> Changes {
    Changes {
        what,
        script: Script::Small(empty_path(name)),
        entries: &[64, 124, 184],
        then,
        first_kept: &AROUND,
        second_kept: &AROUND,
    }
}

// A change of halves with the longest listing.
fn longest_change(name: Name) -> Changes {
    Changes {
        what: "a change with 61 listed entries, with another entry then",
        script: Script::Full(empty_path(name)),
        entries: &[64],
        then: Entries::Other,
        first_kept: &FIRST,
        second_kept: &SECOND,
    }
}

fn tell_layer(rt: &HostRuntime, name: Name, layer: Layer) -> anyhow::Result<()> {
    let again = short_changes(
        name,
        "three changes of halves, with the same entry again",
        Entries::Scripted,
    );
    let other = short_changes(
        name,
        "three changes of halves, with another entry then",
        Entries::Other,
    );
    tell_singles(rt, again.script, layer)?;
    tell_pairs(rt, &again, layer)?;
    tell_pairs(rt, &other, layer)
}

fn run(rt: &HostRuntime) -> anyhow::Result<()> {
    let name = Name::new(b"vacuum-1").context("no name")?;
    tell_layer(rt, name, Layer::Nothing)?;
    tell_pairs(rt, &longest_change(name), Layer::Nothing)?;
    tell_layer(rt, name, Layer::WriteBehind)
}

fn main(rt: HostRuntime) -> anyhow::Result<()> {
    run(&rt)
}
