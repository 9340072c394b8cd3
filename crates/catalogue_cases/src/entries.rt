// Entries made from small numbers.
use catalogue::Catalogue;
use naming::{Hash, Name};
use records::{Entry, PathRecord, References};

// The kinds of entry that speak of a profile.
#[derive(Clone, Copy, PartialEq, Eq, Debug)]
pub(crate) enum Kind {
    Commit,
    Switch,
    Forget,
}

// The hash of this number; hash order is the order of the numbers. (Each program that makes hashes has such lines, for numbers as wide as it needs: a crate
// for them would be no plainer.)
pub(crate) fn hash(number: u8) -> Hash {
    let mut bytes = [0; 20];
    bytes[0] = number;
    Hash::new(bytes)
}

// A register of a path with the hash of this number. (`damage_cases` makes its references by a like loop, from numbers of two
// bytes: a crate for it would be no plainer.)
pub(crate) fn plain_path(number: u8, size: u32, first: u32, numbers: &[u8]) -> Option<Entry> {
    let name = Name::new(b"tool")?;
    let mut refs = References::new();
    for number in numbers {
        refs.push(hash(*number)).ok()?;
    }
    Some(Entry::Register(PathRecord {
        hash: hash(number),
        name,
        size,
        first,
        refs,
    }))
}

// An entry that speaks of a profile.
pub(crate) fn of_profile(kind: Kind, profile: u8, number: u32, part: u8) -> Entry {
    match kind {
        Kind::Commit => Entry::Commit {
            profile,
            number,
            hash: hash(part),
        },
        Kind::Switch => Entry::Switch { profile, number },
        Kind::Forget => Entry::Forget { profile, number },
    }
}

// Whether the entry fits, in a word. An entry that cannot be made fits nowhere.
pub(crate) fn told(catalogue: &Catalogue, entry: Option<Entry>) -> &'static str {
    entry.map_or("unmade", |entry| {
        if catalogue.fits(&entry) {
            "fits  "
        } else {
            "unfit "
        }
    })
}
