// Listings applied to a new catalogue, and a catalogue of 40 paths.
use crate::entries::{hash, plain_path};
use catalogue::Catalogue;
use queries::{listing_entry, listing_len};
use records::Entry;

// How many entries of the listing fit one after the other.
fn make(listed: &Catalogue, made: &mut Catalogue) -> usize {
    (0..listing_len(listed))
        .filter_map(|place| listing_entry(listed, place))
        .take_while(|entry| made.apply(entry).is_ok())
        .count()
}

// The listing makes the catalogue again.
pub(crate) fn again(rt: &HostRuntime, listed: &Catalogue) -> anyhow::Result<()> {
    let mut made = Catalogue::new(rt.alloc(), listed.blocks())?;
    let count = make(listed, &mut made);
    let same = *listed == made;
    let paths = listed.paths().len();
    println!(rt; "A listing of {paths} paths, {count} entries, makes the same again: {same}")?;
    Ok(())
}

// 40 paths, each with the eight before it as its references, and 18 generations.
pub(crate) fn full(rt: &HostRuntime) -> anyhow::Result<()> {
    let mut catalogue = Catalogue::new(rt.alloc(), 256)?;
    let fitting = (0..41u8)
        .filter_map(|number| plain_path(number, 0, 0, before(&ALL, number)))
        .take_while(|entry| catalogue.apply(entry).is_ok())
        .count();
    println!(rt; "Of 41 paths the first {fitting} fit.")?;
    commits(&mut catalogue);
    again(rt, &catalogue)
}

const ALL: [u8; 40] =
    *b"\x00\x01\x02\x03\x04\x05\x06\x07\x08\x09\x0a\x0b\x0c\x0d\x0e\x0f\x10\x11\x12\x13\x14\x15\x16\x17\x18\x19\x1a\x1b\x1c\x1d\x1e\x1f\x20\x21\x22\x23\x24\x25\x26\x27";

// The eight numbers before this one, or fewer.
fn before(all: &[u8], number: u8) -> &[u8] {
    let end = (number as usize).min(all.len());
    &all[end.saturating_sub(8)..end]
}

fn commits(catalogue: &mut Catalogue) {
    for turn in 0..18u8 {
        let entry = Entry::Commit {
            profile: turn % 3,
            number: u32::from(turn) + 1,
            hash: hash(turn),
        };
        if catalogue.apply(&entry).is_err() {
            return;
        }
    }
}
