// Orders that name the kind of element they compare, and one search for the greatest or the least element.
#![tactic(auto)]

ghost use Rattle.order.specs.Law.{Lawful};
ghost use Rattle.order.specs.Rows.{Holds};
ghost use Rattle.order.specs.Search.{Greatest};
ghost use Rattle.std.specs.Prelude.{◌≡◌};
ghost use Rattle.std.specs.declared.cmp.Ordering.{Ordering as Standing};
ghost use Rattle.std.proofs.Common.{rules};

use std::cmp::Ordering;

mod rows;

pub use rows::RowSet;

// An order of elements of one kind. Of two elements the first comes before the second, is level with it, or comes after.
pub trait Order {
    type Element;

    ghost compares: { Self → Self.Element → Self.Element → Standing };

    fn compare(&self, a: &Self::Element, b: &Self::Element) -> Ordering
        ensures { result ≡ compares self.now a.now b.now };

    ghost lawful: { (o : Self) → Lawful (compares o) };
}

// An order turned round: what came before comes after.
#[derive(Clone, Copy, Drop)]
pub struct Reversed<O>(pub O);

impl<O: Order> Order for Reversed<O> {
    type Element = O::Element;

    ghost compares = { λ o a b. O.Order.compares o.0 b a };

    ghost lawful = { Prim.search rules };

    fn compare(&self, a: &O::Element, b: &O::Element) -> Ordering {
        self.0.compare(b, a)
    }
}

// The first place, among those looked at, with an element that no other looked at comes after.
// For the least element look with the order turned round.
pub fn greatest<O: Order>(order: &O, elements: &[O::Element], places: RowSet) -> Option<usize>
    ensures { Greatest (O.Order.compares order.now) elements.now (Holds places) result }
{
    // The least with the order turned round, since `max_by` answers the last of the greatest, and `min_by` the first of the least.
    elements
        .iter()
        .enumerate()
        .filter(|(place, _)| places.contains(*place))
        .min_by(|(_, a), (_, b)| order.compare(b, a))
        .map(|(place, _)| place)
}

#[cfg(test)]
mod tests;
