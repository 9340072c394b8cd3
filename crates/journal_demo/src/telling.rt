// The table's programs on a card: formatted, journalled, and then the power fails in the middle of an entry and of a change of halves.
use crate::cuts::{CHANGE_REASONS, Cut, ENTRY_REASONS, IN_CHANGE, IN_ENTRY, Reasons, Trial};
use crate::journalled::{Journalled, Summary};
use crate::paths::commit_of;
use anyhow::{Context, anyhow};
use bench_card::BenchCard;
use disk::Disk;
use naming::Hash;
use programs::{BLOCKS, PART_SIZE, PROFILE, Program, TASK_SIZE};
use records::Entry;
use std::alloc::Global;
use write_behind::WriteBehind;

// The bytes of a bench card of that many blocks: the present ones and the settled ones.
const CARD_BYTES: usize = 512 * BLOCKS as usize;

// The last entry for which a half has room.
const LAST_IN_HALF: u64 = 64;

// Registers a program by the next entry.
fn record_program<D: Disk>(
    rt: &HostRuntime,
    journalled: &mut Journalled,
    disk: &mut D,
    program: &Program,
    needed: &[Hash],
) -> anyhow::Result<()> {
    let number = journalled.summary().next;
    let size = if needed.is_empty() {
        PART_SIZE
    } else {
        TASK_SIZE
    };
    let path = program
        .placed(&journalled.catalogue, size, needed)
        .context("no room on the card")?;
    journalled
        .record(disk, &Entry::Register(path))
        .context("the entry is not recorded")?;
    println!(rt; "  entry {number} registers {program}")?;
    Ok(())
}

// Records the parts, the task that refers to them, and its first generation.
fn record_all<D: Disk>(
    rt: &HostRuntime,
    journalled: &mut Journalled,
    disk: &mut D,
    parts: &[Program],
    task: &Program,
) -> anyhow::Result<()> {
    // Named: the checker does not cover a slice without a name that is lent in a loop.
    let none: [Hash; 0] = [];
    for part in parts {
        record_program(rt, journalled, disk, part, &none)?;
    }
    let needed: Vec<Hash> = parts.iter().map(|part| part.hash).collect(rt.alloc())?;
    record_program(rt, journalled, disk, task, needed.as_slice())?;
    let number = journalled.summary().next;
    journalled
        .record(disk, &commit_of(task, 1))
        .context("the entry is not recorded")?;
    println!(rt; "  entry {number} commits it as generation 1")?;
    Ok(())
}

// A switch between generations 1 and 2, so that no two entries in a row are the same.
fn switch_at(number: u64) -> Entry {
    Entry::Switch {
        profile: PROFILE,
        number: if number % 2 == 0 { 1 } else { 2 },
    }
}

// Records the second generation, and switches until the half is full.
fn fill_half<D: Disk>(heap: Global, disk: &mut D, task: &Program) -> anyhow::Result<Summary> {
    let mut journalled = Journalled::recovered(heap, disk)?;
    journalled
        .record(disk, &commit_of(task, 2))
        .context("the entry is not recorded")?;
    let next = journalled.summary().next;
    for number in next..=LAST_IN_HALF {
        journalled
            .record(disk, &switch_at(number))
            .context("the entry is not recorded")?;
    }
    Ok(journalled.summary())
}

fn behind<'a>(
    heap: Global,
    bytes: &'a mut [u8],
    cut: &Cut,
) -> anyhow::Result<WriteBehind<BenchCard<'a>>> {
    let card = BenchCard::new(bytes, cut.at, cut.kept);
    // By a pattern: of `ok` and `map_err`, which take the disk with what is lent to it, the checker makes no proof.
    match WriteBehind::new(heap, card) {
        Ok(disk) => Ok(disk),
        Err(_) => Err(anyhow!("no memory for write-behind")),
    }
}

// Records the entry on a copy of the card whose power goes at that cut, restarts the card and loads it.
fn tried(heap: Global, card: &[u8], cut: &Cut, entry: &Entry) -> anyhow::Result<Trial> {
    let mut bytes = card.to_vec(heap)?;
    let mut disk = behind(heap, bytes.as_mut_slice(), cut)?;
    let mut journalled = Journalled::recovered(heap, &mut disk)?;
    let before = journalled.summary();
    let recorded = journalled.record(&mut disk, entry).is_ok();
    let found = Journalled::recovered(heap, &mut disk)?.summary();
    Ok(Trial {
        recorded,
        before,
        found,
    })
}

// Tells what each cut in this entry leaves on a copy of the card, and why.
fn tell_trials(
    rt: &HostRuntime,
    card: &[u8],
    entry: &Entry,
    cuts: &[Cut],
    reasons: &Reasons,
) -> anyhow::Result<()> {
    for cut in cuts {
        let trial = tried(rt.alloc(), card, cut, entry)?;
        let when = cut.when;
        let found = trial.found;
        let why = trial.reason(reasons);
        println!(rt; "  power cut {when}, found {found}: {why}")?;
    }
    Ok(())
}

fn tell_entry(rt: &HostRuntime, card: &[u8], task: &Program) -> anyhow::Result<()> {
    println!(rt;
        "Generation 2 is committed as the next entry, which comes to the card (operation 1) and is settled by a barrier (2):"
    )?;
    tell_trials(rt, card, &commit_of(task, 2), &IN_ENTRY, &ENTRY_REASONS)
}

fn tell_change(rt: &HostRuntime, card: &[u8]) -> anyhow::Result<()> {
    println!(rt;
        "The next entry changes halves: seven entries that make the catalogue go to the other half (operations 1 to 14), then the label (15 and 16), then the entry (17 and 18):"
    )?;
    let entry = switch_at(LAST_IN_HALF + 1);
    tell_trials(rt, card, &entry, &IN_CHANGE, &CHANGE_REASONS)
}

// Formats the card of these bytes, journals the programs on it, and loads it again.
fn tell_journal(
    rt: &HostRuntime,
    bytes: &mut [u8],
    parts: &[Program],
    task: &Program,
) -> anyhow::Result<()> {
    println!(rt;
        "A bench card of {BLOCKS} blocks is formatted behind write-behind, and the programs are journalled:"
    )?;
    let mut disk = behind(rt.alloc(), bytes, &Cut::NEVER)?;
    let mut journalled = Journalled::formatted(rt.alloc(), &mut disk)?;
    record_all(rt, &mut journalled, &mut disk, parts, task)?;
    let found = Journalled::recovered(rt.alloc(), &mut disk)?.summary();
    println!(rt; "  restarted and loaded, found {found}")?;
    Ok(())
}

fn tell_full_half(rt: &HostRuntime, bytes: &mut [u8], task: &Program) -> anyhow::Result<()> {
    let mut disk = behind(rt.alloc(), bytes, &Cut::NEVER)?;
    let full = fill_half(rt.alloc(), &mut disk, task)?;
    println!(rt; "Switches between the two generations fill the half: {full}")?;
    Ok(())
}

pub(crate) fn tell(rt: &HostRuntime, programs: &[Program]) -> anyhow::Result<()> {
    let [parts @ .., task] = programs else {
        return Ok(());
    };
    let mut bytes = vec![in rt.alloc(); 0; CARD_BYTES]?;
    tell_journal(rt, bytes.as_mut_slice(), parts, task)?;
    tell_entry(rt, bytes.as_slice(), task)?;
    tell_full_half(rt, bytes.as_mut_slice(), task)?;
    tell_change(rt, bytes.as_slice())
}
