// The blocks that are held back, in memory that is reserved once.
ghost use Rattle.std.specs.Prelude.{◌≡◌, ◌<◌, [], ◌∷◌, ◌++◌, IfOk, length, drop};
ghost use Rattle.write_behind.specs.Behind.{Overflow, Place, Replace, overlaid};

use super::held::Pending;
use std::alloc::{AllocError, Global};
use std::marker::Model;

// The most blocks that are held.
const MOST_HELD: usize = 16;

// At most sixteen held blocks, the longest-held first. They are a `Vec`, since a `VecDeque` lends no one slice of them.
#[derive(Drop)]
pub(crate) struct Queue {
    items: Vec<Pending>,
}

impl Model for Queue {
    ghost use Rattle.std.specs.Prelude.{◌≤◌, List, vec_len, vec_capacity};
    ghost use Rattle.write_behind.specs.declared.held.Pending.{Pending};

    ghost Value = { List Pending };

    ghost view = { λ queue. queue.items.items };

    ghost invariant = { λ queue. (16 ≤ vec_capacity queue.items) × (vec_len queue.items ≤ 16) };
}

impl Queue {
    // Holds nothing. Fails where there is no memory for sixteen blocks.
    pub(crate) fn new(heap: Global) -> Result<Queue, AllocError>
        ensures { IfOk result (λ queue. queue ≡ []) }
    {
        let items = Vec::with_capacity(heap, MOST_HELD)?;
        Ok(Queue { items })
    }

    // The held blocks, the longest-held first.
    pub(crate) fn as_slice(&self) -> &[Pending]
        ensures { result.now ≡ self.now }
    {
        self.items.as_slice()
    }

    // Where block `b` is held, if it is.
    #[tactic(auto, using(crate::proofs::Helds::place_found))]
    fn place(&self, b: u64) -> Option<usize>
        ensures { Place b self.now result }
    {
        self.items.iter().rposition(|p| p.at == b)
    }

    // Lays what is held for block `b` over its content.
    #[tactic(auto, using(crate::proofs::Helds::last_less, crate::proofs::Helds::overlaid_last, crate::proofs::Helds::overlaid_free))]
    pub(crate) fn overlay(&self, b: u64, into: &mut [u8; 256])
        ensures { into.new ≡ overlaid b into.old self.now }
    {
        if let Some(i) = self.place(b) {
            *into = self.items[i].content;
        }
    }

    // Replaces what is held for the block of `p`, if it is held, and says whether it is.
    #[tactic(auto, using(crate::proofs::Helds::last_less))]
    pub(crate) fn replace(&mut self, p: Pending) -> bool
        ensures { Replace p.at p.content self.old result self.new }
    {
        match self.place(p.at) {
            Some(i) => {
                self.items[i] = p;
                true
            }
            None => false,
        }
    }

    // The longest-held block, if another can be held only in its stead.
    pub(crate) fn overflow(&self) -> Option<Pending>
        ensures { Overflow self.now result }
    {
        if self.items.len() < MOST_HELD {
            return None;
        }
        self.items.first().copied()
    }

    // Holds one more block.
    pub(crate) fn hold(&mut self, p: Pending)
        requires { length self.old < 16 }
        ensures { self.new ≡ self.old ++ p ∷ [] }
    {
        self.items.push_reserved(p);
    }

    // Lets the longest-held block go, and holds one more.
    pub(crate) fn shift(&mut self, p: Pending)
        requires { 0 < length self.old }
        ensures { self.new ≡ drop 1 self.old ++ p ∷ [] }
    {
        self.items.remove(0);
        self.hold(p);
    }

    // Lets all held blocks go.
    pub(crate) fn clear(&mut self)
        ensures { self.new ≡ [] }
    {
        self.items.clear();
    }
}
