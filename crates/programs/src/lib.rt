// The programs of a cutting table, each by hash and name. They are ordered by hash.
#![tactic(auto)]

ghost use Rattle.naming.specs.Hash.{hash_part, number_of};
ghost use Rattle.naming.specs.Name.{Lawful};
ghost use Rattle.naming.specs.Order.{HashOrder};
ghost use Rattle.naming.specs.Texts.{name_text};
ghost use Rattle.std.specs.Prelude.{◌≡◌, ◌⊎◌, IsSomeAnd, Decides, MatchOption, Some, ◌≢◌, ◌==◌};
ghost use Rattle.std.specs.Cmp.Rules.{comparing};
ghost use Rattle.std.proofs.Common.{rules};
ghost use Rattle.std.specs.Cmp.{partial_order_from_own_ties};
ghost use Rattle.std.specs.Ordering.{as_partial_cmp, nat_cmp, on};

mod list;
mod placing;

pub use list::{BLOCKS, LISTED, PART_SIZE, PROFILE, TASK_SIZE};
use naming::{Hash, Name};
use std::cmp::Ordering;
use std::fmt;

// A program: the hash of its content, and its name.
#[derive(Clone, Copy)]
pub struct Program {
    pub hash: Hash,
    pub name: Name,
}

impl Program {
    // The program of a line of the list, or none where the line has no hash part or no lawful name.
    pub fn listed(part: &str, name: &str) -> Option<Program>
        ensures { MatchOption result (((h : Hash) → hash_part h.bytes ≢ part.now) ⊎ (Lawful name.now → ⊥)) (λ p. (hash_part p.hash.bytes ≡ part.now) × (name_text p.name ≡ name.now)) }
    {
        let hash = Hash::from_part(part.as_bytes())?;
        let name = Name::new(name.as_bytes())?;
        Some(Program { hash, name })
    }
}

// By the hash alone, and by hand: a derive that skips the name would say nothing of the hash order, which the clauses promise.
impl PartialEq for Program {
    ghost eq = { on (λ p. number_of p.hash.bytes) ◌==◌ };

    ghost laws = { Prim.search (comparing, rules) };

    fn eq(&self, other: &Program) -> bool
        ensures eq { result ≡ (number_of self.now.hash.bytes == number_of other.now.hash.bytes) }
        ensures same { Decides result (self.now.hash ≡ other.now.hash) }
    {
        self.hash == other.hash
    }
}

impl Eq for Program {
    ghost laws = { Prim.search (comparing, rules) };
}

impl PartialOrd for Program {
    ghost partial_cmp = { as_partial_cmp (on (λ p. number_of p.hash.bytes) nat_cmp) };

    ghost laws = { partial_order_from_own_ties (Prim.search (comparing, rules)) (Prim.search (comparing, rules)) };

    fn partial_cmp(&self, other: &Program) -> Option<Ordering>
        ensures cmp { result ≡ Some (nat_cmp (number_of self.now.hash.bytes) (number_of other.now.hash.bytes)) }
        ensures order { IsSomeAnd result (HashOrder self.now.hash other.now.hash) }
    {
        Some(self.cmp(other))
    }
}

impl Ord for Program {
    ghost cmp = { on (λ p. number_of p.hash.bytes) nat_cmp };

    ghost total = { Prim.search (comparing, rules) };

    ghost matches_partial_cmp = { Prim.search (comparing, rules) };

    ghost matches_eq = { Prim.search (comparing, rules) };

    fn cmp(&self, other: &Program) -> Ordering
        ensures cmp { result ≡ nat_cmp (number_of self.now.hash.bytes) (number_of other.now.hash.bytes) }
        ensures order { HashOrder self.now.hash other.now.hash result }
    {
        self.hash.cmp(&other.hash)
    }
}

impl fmt::Display for Program {
    fn fmt<W: fmt::Write>(&self, f: &mut fmt::Formatter<W>) -> fmt::Result {
        let part = self.hash.part();
        for byte in part.iter().chain(b"-").chain(self.name.as_bytes()) {
            f.write_char(char::from(*byte))?;
        }
        Ok(())
    }
}
