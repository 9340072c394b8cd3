// Examples of row sets and of the search.
ghost use Rattle.std.specs.Ordering.{nat_cmp};
ghost use Rattle.std.proofs.Common.{rules};

use super::*;

#[derive(Clone, Copy)]
struct Weight {
    grams: u32,
}

struct ByGrams;

impl Order for ByGrams {
    type Element = Weight;

    ghost compares = { λ _ a b. nat_cmp a.grams b.grams };

    ghost lawful = { Prim.search rules };

    fn compare(&self, a: &Weight, b: &Weight) -> Ordering {
        a.grams.cmp(&b.grams)
    }
}

fn rows(a: usize, b: usize, c: usize) -> RowSet {
    let mut set = RowSet::empty();
    set.insert(a);
    set.insert(b);
    set.insert(c);
    set
}

#[test]
fn sets(rt: HostRuntime) {
    let set = rows(2, 63, 64);
    assert!(rt; set.contains(63) && !set.contains(64) && !set.contains(3));
    assert_eq!(rt; set.len(), 2);
    assert_eq!(rt; set.first(), Some(2));
    assert_eq!(rt; set.without_row(1), rows(1, 62, 62));
    assert_eq!(rt; set.without_row(2), rows(62, 62, 62));
    assert_eq!(rt; RowSet::below(65).len(), 64);
    assert_eq!(rt; RowSet::below(3), rows(0, 1, 2));
    assert_eq!(rt; RowSet::empty().first(), None);
}

#[test]
fn greatest_and_least(rt: HostRuntime) {
    let weights = [
        Weight { grams: 5 },
        Weight { grams: 9 },
        Weight { grams: 5 },
        Weight { grams: 9 },
    ];
    assert_eq!(rt; greatest(&ByGrams, &weights, RowSet::below(4)), Some(1));
    assert_eq!(rt; greatest(&ByGrams, &weights, rows(0, 2, 3)), Some(3));
    assert_eq!(rt;
        greatest(&Reversed(ByGrams), &weights, RowSet::below(4)),
        Some(0)
    );
    assert_eq!(rt;
        greatest(&Reversed(ByGrams), &weights, rows(1, 2, 3)),
        Some(2)
    );
    assert_eq!(rt; greatest(&ByGrams, &weights, rows(4, 5, 63)), None);
}
