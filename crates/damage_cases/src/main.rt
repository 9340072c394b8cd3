// Damaged cards, and what load answers: done with the entries of the half in use and the paths that they make; or 1 for a dark card, 18 for a wrong size, 19 for
// a bad label, 20 for a bad entry, with its block.
#![tactic(auto)]

mod answer;
mod cards;
mod damage;
mod said;
mod tables;

use answer::{Answer, loaded, loaded_bytes};
use bench_card::BenchCard;
use card::{Label, encode_label};
use cards::{BLOCKS, Card};
use catalogue::Catalogue;
use damage::{Damage, damage_block, forge, set_count};
use disk::{Disk, Image, write_block};
use journal::format_and_clear;
use said::Said;
use std::alloc::Global;

// A card with no entries on this many blocks. It is formatted, if its size is one that a card may have, and its label is as after that.
fn empty_card(heap: Global, blocks: u32) -> anyhow::Result<Answer> {
    let mut bytes = vec![in heap; 0; blocks as usize * 256]?;
    let label = Label {
        count: 0,
        first_number: 1,
        first_block: 1,
    };
    let mut catalogue = Catalogue::new(heap, blocks)?;
    let _ = format_and_clear(&mut Image::new(bytes.as_mut_slice()), &mut catalogue);
    let _ = write_block(bytes.as_mut_slice(), 0, &encode_label(&label, blocks));
    Ok(loaded_bytes(heap, bytes.as_mut_slice())?)
}

// A card that went dark.
fn dark_card(heap: Global) -> anyhow::Result<Answer> {
    let mut bytes = vec![in heap; 0; BLOCKS as usize * 512]?;
    let mut disk = BenchCard::new(bytes.as_mut_slice(), 1, 0);
    let _ = disk.barrier();
    Ok(loaded(heap, &disk)?)
}

// The card with one block damaged.
fn damaged_card(heap: Global, card: Card, block: u32, damage: Damage) -> anyhow::Result<Answer> {
    let mut bytes = card.bytes(heap)?;
    damage_block(bytes.as_mut_slice(), block, damage);
    Ok(loaded_bytes(heap, bytes.as_mut_slice())?)
}

// Which entries the label counts.
#[derive(Clone, Copy, PartialEq, Eq, Debug)]
enum Counted {
    Before,
    Forged,
}

// The card with one more entry that counts, but for the bytes that are given.
fn forged_card(
    heap: Global,
    card: Card,
    said: &Said,
    bytes: &[(u8, u8)],
    counted: Counted,
) -> anyhow::Result<Answer> {
    let next = card.next();
    let mut row = card.bytes(heap)?;
    forge(row.as_mut_slice(), next.block, said, bytes)?;
    if counted == Counted::Forged {
        set_count(row.as_mut_slice(), next.count);
    }
    Ok(loaded_bytes(heap, row.as_mut_slice())?)
}

fn tell(rt: &HostRuntime, what: &str, answer: Answer) -> anyhow::Result<()> {
    println!(rt; "  {what}: {answer}")?;
    Ok(())
}

fn tell_both(rt: &HostRuntime, what: &str, one: Answer, other: Answer) -> anyhow::Result<()> {
    println!(rt; "  {what}: {one} / {other}")?;
    Ok(())
}

// Tells the answers with one more entry that is not among those that the label counts, and with one that is.
fn tell_forged(
    rt: &HostRuntime,
    what: &str,
    card: Card,
    said: &Said,
    bytes: &[(u8, u8)],
) -> anyhow::Result<()> {
    let beyond = forged_card(rt.alloc(), card, said, bytes, Counted::Before)?;
    let below = forged_card(rt.alloc(), card, said, bytes, Counted::Forged)?;
    tell_both(rt, what, beyond, below)
}

fn sizes(rt: &HostRuntime) -> anyhow::Result<()> {
    rt.println("Cards with no entries:")?;
    for (what, blocks) in [
        ("no blocks", 0),
        ("129 blocks", 129),
        ("130 blocks", 130),
        ("65,536 blocks", 65_536),
        ("65,537 blocks", 65_537),
    ] {
        tell(rt, what, empty_card(rt.alloc(), blocks)?)?;
    }
    tell(rt, "a dark card", dark_card(rt.alloc())?)
}

fn labels(rt: &HostRuntime) -> anyhow::Result<()> {
    rt.println("Labels; 16 entries in the upper half, of which the label counts 14:")?;
    for (what, card, damage) in &tables::LABELS {
        tell(rt, what, damaged_card(rt.alloc(), *card, 0, *damage)?)?;
    }
    Ok(())
}

fn trailers(rt: &HostRuntime) -> anyhow::Result<()> {
    rt.println("Trailers of the entry in block 70, below the count / in block 79, beyond it:")?;
    for (what, damage) in &tables::TRAILERS {
        let below = damaged_card(rt.alloc(), Card::Late, 70, *damage)?;
        let beyond = damaged_card(rt.alloc(), Card::Late, 79, *damage)?;
        tell_both(rt, what, below, beyond)?;
    }
    Ok(())
}

fn blocks(rt: &HostRuntime) -> anyhow::Result<()> {
    rt.println("Other blocks:")?;
    for (what, card, block, damage) in &tables::BLOCKS {
        tell(rt, what, damaged_card(rt.alloc(), *card, *block, *damage)?)?;
    }
    Ok(())
}

fn entries(rt: &HostRuntime, card: Card, cases: &[(&str, Said)]) -> anyhow::Result<()> {
    for (what, said) in cases {
        tell_forged(rt, what, card, said, &[])?;
    }
    Ok(())
}

fn registers(rt: &HostRuntime) -> anyhow::Result<()> {
    rt.println("One entry more, in block 81, beyond the count / below it:")?;
    entries(rt, Card::Late, &tables::REGISTERS)
}

fn other_kinds(rt: &HostRuntime) -> anyhow::Result<()> {
    entries(rt, Card::Late, &tables::OTHERS)
}

fn forgeries(rt: &HostRuntime) -> anyhow::Result<()> {
    rt.println("What no entry can say:")?;
    for (what, said, bytes) in &tables::FORGED {
        tell_forged(rt, what, Card::Late, said, bytes)?;
    }
    Ok(())
}

fn crowds(rt: &HostRuntime) -> anyhow::Result<()> {
    rt.println("One entry more on a crowded card, in block 47:")?;
    entries(rt, Card::Crowded, &tables::CROWDED)?;
    rt.println("One entry more after a full half, in block 65:")?;
    tell_forged(rt, "kind 0", Card::Full, &Said::Switch(0, 1), &[(0, 0)])
}

fn run(rt: &HostRuntime) -> anyhow::Result<()> {
    sizes(rt)?;
    labels(rt)?;
    trailers(rt)?;
    blocks(rt)?;
    registers(rt)?;
    other_kinds(rt)?;
    forgeries(rt)?;
    crowds(rt)
}

fn main(rt: HostRuntime) -> anyhow::Result<()> {
    run(&rt)
}
