// Paths and generations, and what one entry of the journal says.
use crate::references::References;
use naming::{Hash, Name};

// A registered path: its hash and name, the length of its content in bytes, the first block of its run, and what it refers to.
#[derive(Clone, Copy, PartialEq, Eq, Debug)]
pub struct PathRecord {
    pub hash: Hash,
    pub name: Name,
    pub size: u32,
    pub first: u32,
    pub refs: References,
}

// A generation of a profile: its number, and the hash of the path that it names.
#[derive(Clone, Copy, PartialEq, Eq, Debug)]
pub struct Generation {
    pub number: u32,
    pub hash: Hash,
}

// What one entry of the journal says.
#[derive(Clone, Copy, PartialEq, Eq, Debug)]
pub enum Entry {
    Register(PathRecord),
    Commit {
        profile: u8,
        number: u32,
        hash: Hash,
    },
    Switch {
        profile: u8,
        number: u32,
    },
    Forget {
        profile: u8,
        number: u32,
    },
    Remove(Hash),
}
