// Positions, numbers and blocks of the journal.
ghost use Rattle.std.specs.Prelude.{◌≡◌, ◌+◌, ◌^◌, ◌<◌, ◌≤◌, MatchOption};
ghost use Rattle.journal.specs.Backed.{other};
ghost use Rattle.journal.specs.View.{SlotAt, start_of};

use crate::place::{Place, Side, Slot};

impl Side {
    // The first block of the half.
    pub(crate) fn start(&self) -> u32
        ensures { result ≡ start_of self.now }
    {
        match self {
            Side::Lower => 1,
            Side::Upper => 65,
        }
    }

    // The half that begins with this block, where one does.
    pub fn starting_at(first_block: u32) -> Option<Side>
        ensures { MatchOption result ((side : Side) → start_of side ≡ first_block → ⊥) (λ side. start_of side ≡ first_block) }
    {
        [Side::Lower, Side::Upper]
            .iter()
            .copied()
            .find(|side| side.start() == first_block)
    }

    // The other half.
    pub(crate) fn other(&self) -> Side
        ensures { start_of result ≡ other (start_of self.now) }
    {
        match self {
            Side::Lower => Side::Upper,
            Side::Upper => Side::Lower,
        }
    }
}

impl Place {
    // The number of the next entry.
    pub fn next_number(&self) -> u64
        ensures { result ≡ self.now.first + self.now.used }
    {
        self.first + u64::from(self.used)
    }

    // Where the entry at a position of the half stands, or none past its 64 positions.
    pub fn slot(&self, position: u32) -> Option<Slot>
        ensures { MatchOption result (64 ≤ position) (λ s. (position < 64) × SlotAt self.now position s) }
    {
        if position >= 64 {
            return None;
        }
        let block = self.side.start() + position;
        let back = if position == 0 { 0 } else { block - 1 };
        Some(Slot {
            block,
            number: self.first + u64::from(position),
            back,
        })
    }
}
