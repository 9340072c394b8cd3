// Where the journal stands.
ghost use Rattle.std.specs.Prelude.{◌^◌, ◌≤◌};

// The halves of the journal: blocks 1 to 64, and blocks 65 to 128.
#[derive(Clone, Copy, PartialEq, Eq, Debug)]
pub enum Side {
    Lower,
    Upper,
}

// The half in use, the number of its first entry, and how many of its 64 positions are used.
#[derive(Clone, Copy, PartialEq, Eq, Debug)]
pub struct Place {
    pub side: Side,
    pub first: u64,
    pub used: u32,
    ghost low: { 1 ≤ first },
    ghost high: { first ≤ 2 ^ 62 },
    ghost room: { used ≤ 64 },
}

// Where an entry stands: its block, its number and its back block, which is written as 0 for the first entry of a half.
#[derive(Clone, Copy, PartialEq, Eq, Debug)]
pub struct Slot {
    pub block: u32,
    pub number: u64,
    pub back: u32,
}
