// The order of hashes: the byte order of their hash parts, which is the order of their numbers.
ghost use Rattle.naming.specs.Hash.{number_of};
ghost use Rattle.naming.specs.Order.{HashOrder, InParts};
ghost use Rattle.std.specs.Cmp.Rules.{comparing};
ghost use Rattle.std.specs.Cmp.{partial_order_from_own_ties};
ghost use Rattle.std.specs.Ordering.{as_partial_cmp, nat_cmp, on};
ghost use Rattle.std.specs.Prelude.{◌≡◌, IsSomeAnd};
ghost use Rattle.naming.specs.Laws.{equal_by_number};
ghost use Rattle.std.proofs.Common.{rules};

use crate::hash::Hash;
use std::cmp::Ordering;

impl Hash {
    // The hash's number in two parts, since no type is as wide: what bytes 16 to 19 write, and then what bytes 0 to 15 do.
    fn number(&self) -> (u32, u128)
        ensures { InParts self.now.bytes result }
    {
        let (low, high) = self.bytes.split_at(16);
        (
            u32::from_le_bytes(<[u8; 4]>::try_from(high).unwrap()),
            u128::from_le_bytes(<[u8; 16]>::try_from(low).unwrap()),
        )
    }
}

impl PartialOrd for Hash {
    ghost partial_cmp = { as_partial_cmp (on (λ h. number_of h.bytes) nat_cmp) };

    ghost laws = { partial_order_from_own_ties (Prim.search (comparing, rules)) equal_by_number };

    fn partial_cmp(&self, other: &Hash) -> Option<Ordering>
        ensures { IsSomeAnd result (HashOrder self.now other.now) }
    {
        Some(self.cmp(other))
    }
}

impl Ord for Hash {
    ghost cmp = { on (λ h. number_of h.bytes) nat_cmp };

    ghost total = { Prim.search (comparing, rules) };

    ghost matches_partial_cmp = { Prim.search (comparing, rules) };

    ghost matches_eq = { equal_by_number };

    fn cmp(&self, other: &Hash) -> Ordering
        ensures { HashOrder self.now other.now result }
    {
        self.number().cmp(&other.number())
    }
}
