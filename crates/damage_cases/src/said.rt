// Entries from small numbers.
use naming::{Hash, Name};
use records::{Entry, PathRecord, References};

// What an entry says, with a number for each hash.
#[derive(Clone, Copy, PartialEq, Eq, Debug)]
pub(crate) enum Said {
    // The hash, the size, the first block and the references of a path.
    Register(u16, u32, u32, &'static [u16]),
    // The name of a path with hash 30 and 97 bytes in block 129. (The first byte of that size is lawful in a name.)
    Name(&'static [u8]),
    // The profile, the number, and the hash.
    Commit(u8, u32, u16),
    // The profile and the number.
    Switch(u8, u32),
    Forget(u8, u32),
    // The hash.
    Remove(u16),
}

// The hash of this number; hash order is the order of the numbers. (Each program that makes hashes has such lines, for numbers as wide as it needs: a crate
// for them would be no plainer.)
fn hash_of(number: u16) -> Hash {
    let [low, high] = number.to_le_bytes();
    let mut bytes = [0; 20];
    bytes[0] = low;
    bytes[1] = high;
    Hash::new(bytes)
}

fn references(numbers: &[u16]) -> Option<References> {
    let mut refs = References::new();
    for number in numbers {
        refs.push(hash_of(*number)).ok()?;
    }
    Some(refs)
}

fn path(hash: u16, name: &[u8], size: u32, first: u32, refs: &[u16]) -> Option<Entry> {
    Some(Entry::Register(PathRecord {
        hash: hash_of(hash),
        name: Name::new(name)?,
        size,
        first,
        refs: references(refs)?,
    }))
}

impl Said {
    // The entry, or none where no entry can say it.
    pub(crate) fn entry(&self) -> Option<Entry> {
        match *self {
            Said::Register(hash, size, first, refs) => path(hash, b"tool", size, first, refs),
            Said::Name(name) => path(30, name, 97, 129, &[]),
            Said::Commit(profile, number, hash) => Some(Entry::Commit {
                profile,
                number,
                hash: hash_of(hash),
            }),
            Said::Switch(profile, number) => Some(Entry::Switch { profile, number }),
            Said::Forget(profile, number) => Some(Entry::Forget { profile, number }),
            Said::Remove(hash) => Some(Entry::Remove(hash_of(hash))),
        }
    }
}
