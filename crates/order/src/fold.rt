ghost use Rattle.std.specs.Prelude.{◌≡◌, ◌<◌, List, [], ◌∷◌, Some};
ghost use Rattle.order.specs.Bounds.{Joined, Supremum, toward};
ghost use Rattle.order.specs.Search.{supremum_of};

use crate::bound::Bound;
use crate::order::{Lattice, Order};

// The bound of two labels.
pub fn bound_of_two<L: Lattice>(lattice: &L, which: Bound, a: u64, b: u64) -> Option<u64>
    ensures { Joined (toward which (L.Order.meaning lattice.now)) (a ∷ b ∷ []) result }
{
    match which {
        Bound::Join => lattice.join(a, b),
        Bound::Meet => lattice.meet(a, b),
    }
}

// Whether a flows to b, or b to a where the greatest lower label is asked for.
pub fn flows_toward<O: Order>(order: &O, which: Bound, a: u64, b: u64) -> bool
    ensures { result ≡ (toward which (O.Order.meaning order.now)).flow a b }
{
    match which {
        Bound::Join => order.flows(a, b),
        Bound::Meet => order.flows(b, a),
    }
}

// The bound of no labels: the bottom for joins, the top for meets.
pub fn bound_of_none<L: Lattice>(lattice: &L, which: Bound) -> u64
    ensures { Supremum (toward which (L.Order.meaning lattice.now)) [] result }
{
    let mut least = 0;
    for label in 1..lattice.count() {
        if flows_toward(lattice, which, label, least) {
            least = label;
        }
    }
    least
}

// The bound of a list of labels, one after the other.
fn folded_bound<L: Lattice>(lattice: &L, which: Bound, labels: &[u64]) -> Option<u64>
    ensures { Joined (toward which (L.Order.meaning lattice.now)) labels.now result }
{
    let Some((first, rest)) = labels.split_first() else {
        return Some(bound_of_none(lattice, which));
    };
    if *first >= lattice.count() {
        return None;
    }
    let mut bound = *first;
    for label in rest {
        bound = bound_of_two(lattice, which, bound, *label)?;
    }
    Some(bound)
}

// The bound of a list of labels, absent where one of them is unknown.
pub fn bound_of<L: Lattice>(lattice: &L, which: Bound, labels: &[u64]) -> Option<u64>
    ensures bound { Joined (toward which (L.Order.meaning lattice.now)) labels.now result }
    ensures value { result ≡ supremum_of (toward which (L.Order.meaning lattice.now)) labels.now }
{
    folded_bound(lattice, which, labels)
}
