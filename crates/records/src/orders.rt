// The two orders: paths by hash part, and generations by number.
ghost use Rattle.records.specs.Orders.{by_hash, by_number};
ghost use Rattle.std.specs.Prelude.{◌≡◌};
ghost use Rattle.std.specs.Cmp.{nat_cmp_total};
ghost use Rattle.naming.specs.Hash.{number_of, number_order};
ghost use Rattle.naming.proofs.Parts.{part_order};
ghost use Rattle.order.proofs.Laws.{lawful_alike, lawful_by};
ghost use Rattle.records.specs.declared.records.PathRecord.{PathRecord};
ghost use Rattle.std.proofs.Common.{rules};

use crate::records::{Generation, PathRecord};
use order::Order;
use std::cmp::Ordering;

// Paths by hash part.
#[derive(Clone, Copy)]
pub struct ByHash;

impl Order for ByHash {
    type Element = PathRecord;

    ghost compares = { λ _ a b. by_hash a b };

    ghost lawful = { λ o.
        lawful_alike by_hash (λ a b. number_order (number_of a.hash.bytes) (number_of b.hash.bytes))
        (λ a b. part_order a.hash b.hash) (lawful_by nat_cmp_total (λ (p : PathRecord). number_of p.hash.bytes)) };

    fn compare(&self, a: &PathRecord, b: &PathRecord) -> Ordering {
        a.hash.cmp(&b.hash)
    }
}

// Generations by number.
#[derive(Clone, Copy)]
pub struct ByNumber;

impl Order for ByNumber {
    type Element = Generation;

    ghost compares = { λ _ a b. by_number a b };

    ghost lawful = { Prim.search rules };

    fn compare(&self, a: &Generation, b: &Generation) -> Ordering {
        a.number.cmp(&b.number)
    }
}
