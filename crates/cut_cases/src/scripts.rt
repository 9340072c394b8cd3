// The entries of the runs.
use catalogue::Catalogue;
use naming::{Hash, Name};
use records::{Entry, PathRecord, References};
use std::alloc::{AllocError, Global};
use tallies::BLOCKS;

// What a run appends: entries that make a catalogue, and then switches from one generation to another, each of which changes it.
#[derive(Clone, Copy, PartialEq, Eq, Debug)]
pub(crate) enum Script {
    // One path and two generations of it: four entries in a listing.
    Small(PathRecord),
    // 40 paths like this one, each with references to the eight before it, and six generations in each profile: 61 entries in a listing.
    Full(PathRecord),
}

// The hash of this number; hash order is the order of the numbers. (Each program that makes hashes has these two lines, for numbers as wide as it needs: a
// crate for them would be no plainer.)
fn hash_of(number: u32) -> Hash {
    let mut bytes = [0; 20];
    bytes[0] = (number % 256) as u8;
    Hash::new(bytes)
}

// A path without content.
pub(crate) fn empty_path(name: Name) -> PathRecord {
    PathRecord {
        hash: hash_of(7),
        name,
        size: 0,
        first: 0,
        refs: References::new(),
    }
}

// References to the eight paths before this one, or to fewer; so none is refused.
fn eight_before(number: u32) -> References {
    let mut refs = References::new();
    for before in number.saturating_sub(8)..number {
        let _ = refs.push(hash_of(before));
    }
    refs
}

fn small_entry(path: &PathRecord, place: u32) -> Entry {
    match place {
        0 => Entry::Register(*path),
        1 | 2 => Entry::Commit {
            profile: 0,
            number: place,
            hash: path.hash,
        },
        _ => Entry::Switch {
            profile: 0,
            number: place % 2 + 1,
        },
    }
}

fn full_entry(path: &PathRecord, place: u32) -> Entry {
    if place < 40 {
        return Entry::Register(PathRecord {
            hash: hash_of(place),
            refs: eight_before(place),
            ..*path
        });
    }
    let turn = place - 40;
    let profile = (turn % 3) as u8;
    if turn < 18 {
        Entry::Commit {
            profile,
            number: turn / 3 + 1,
            hash: hash_of(turn),
        }
    } else {
        Entry::Switch {
            profile,
            number: turn / 3 % 2 + 1,
        }
    }
}

impl Script {
    // The entry in this place, from 0 on.
    pub(crate) fn entry_at(&self, place: u32) -> Entry {
        match self {
            Script::Small(path) => small_entry(path, place),
            Script::Full(path) => full_entry(path, place),
        }
    }

    // Another entry that fits in this place, once the first generations are there, and that no entry of the script equals.
    pub(crate) fn other_at(&self, place: u32) -> Entry {
        let turn = place.saturating_sub(40);
        match self {
            Script::Small(path) => Entry::Commit {
                profile: 1,
                number: place,
                hash: path.hash,
            },
            Script::Full(_) => Entry::Switch {
                profile: ((turn + 1) % 3) as u8,
                number: turn / 3 % 2 + 3,
            },
        }
    }

    // What the first `count` entries make.
    pub(crate) fn made(&self, heap: Global, count: u32) -> Result<Catalogue, AllocError> {
        let mut catalogue = Catalogue::new(heap, BLOCKS as u32)?;
        for place in 0..count {
            let _ = catalogue.apply(&self.entry_at(place));
        }
        Ok(catalogue)
    }
}
