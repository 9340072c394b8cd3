// A set of rows, held in the bits of one number.
ghost use Rattle.std.specs.Prelude.{◌≡◌, ℕ, ◌+◌, ◌<◌, ◌≤◌, ◌⊎◌, Decides, ◌≢◌};
ghost use Rattle.order.specs.Rows.{HasJust, Holds, Least, number};

// The rows that a set can hold are those below this number.
const WIDTH: usize = 64;

// A set of the rows 0 to 63. A row from 64 on is in no set.
#[derive(Clone, Copy, PartialEq, Eq, Debug)]
pub struct RowSet {
    bits: u64,
}

impl RowSet {
    // The set with no row.
    pub fn empty() -> RowSet
        ensures { HasJust result (λ k. ⊥) }
    {
        RowSet { bits: 0 }
    }

    // The rows below `n`.
    pub fn below(n: usize) -> RowSet
        ensures { HasJust result (λ k. (k < n) × (k < 64)) }
    {
        let bits = if n < WIDTH { (1 << n) - 1 } else { u64::MAX };
        RowSet { bits }
    }

    // Whether `row` is in the set.
    pub fn contains(self, row: usize) -> bool
        ensures test { Decides result (Holds self row) }
        ensures within { (k : ℕ) → Holds self k → k < 64 }
    {
        row < WIDTH && (self.bits >> row) & 1 == 1
    }

    // The rows of either set.
    pub fn union(self, other: RowSet) -> RowSet
        ensures { HasJust result (λ k. Holds self k ⊎ Holds other k) }
    {
        RowSet {
            bits: self.bits | other.bits,
        }
    }

    // Adds `row`, if a set can hold it.
    pub fn insert(&mut self, row: usize)
        ensures { HasJust self.new (λ k. Holds self.old k ⊎ ((k ≡ row) × (k < 64))) }
    {
        if row < WIDTH {
            self.bits |= 1 << row;
        }
    }

    // Takes `row` out, if it is there.
    pub fn remove(&mut self, row: usize)
        ensures { HasJust self.new (λ k. Holds self.old k × (k ≢ row)) }
    {
        if self.contains(row) {
            self.bits ^= 1 << row;
        }
    }

    // How many rows are in the set.
    pub fn len(self) -> usize
        ensures value { result ≡ number self 64 }
        ensures bound { result ≤ 64 }
    {
        self.bits.count_ones() as usize
    }

    // The least row of the set.
    pub fn first(self) -> Option<usize>
        ensures { Least self result }
    {
        let row = self.bits.trailing_zeros() as usize;
        (row < WIDTH).then_some(row)
    }

    // The set as it is once `row` is gone: rows above it have moved one down.
    pub fn without_row(self, row: usize) -> RowSet
        ensures { HasJust result (λ k. ((k < row) × Holds self k) ⊎ ((row ≤ k) × Holds self (k + 1))) }
    {
        if row >= WIDTH {
            return self;
        }
        let low = self.bits & ((1 << row) - 1);
        let high = (self.bits >> row) >> 1;
        RowSet {
            bits: (high << row) | low,
        }
    }
}
