// The hashes that a path refers to: at most eight. The places after the last hash hold zeros, so that the same hashes are equal
// references. In fixed memory, with their count beside them: a `Vec` would be no plain copy, and could fail for want of memory.
ghost use Rattle.records.specs.Blank.{blank, bytes_each};
ghost use Rattle.std.specs.Prelude.{◌≡◌, ◌-◌, ◌≤◌, length, drop, replicate};

use naming::Hash;

// The most references of a path.
pub(crate) const MOST_REFERENCES: usize = 8;

#[derive(Clone, Copy, PartialEq, Eq, Debug)]
pub struct References {
    pub(crate) count: usize,
    pub(crate) hashes: [Hash; MOST_REFERENCES],
    ghost whole: { length hashes ≡ 8 },
    ghost few: { count ≤ 8 },
    ghost rest: { bytes_each (drop count hashes) ≡ replicate (8 - count) blank },
}
