ghost use Rattle.std.specs.Prelude.{◌≡◌};
ghost use Rattle.order.specs.Orders.{dual};

use crate::order::{Lattice, Order};

// An order turned round: flow runs the other way, and join and meet change places.
#[derive(Drop)]
pub struct Reversed<L> {
    pub inner: L,
}

impl<L: Order> Order for Reversed<L> {
    ghost meaning = { λ s. dual (L.Order.meaning s.inner) };

    fn count(&self) -> u64 {
        self.inner.count()
    }

    fn flows(&self, a: u64, b: u64) -> bool {
        self.inner.flows(b, a)
    }
}

impl<L: Lattice> Lattice for Reversed<L> {
    ghost bounds = { λ s.
        let inner = L.Lattice.bounds s.inner in
        record { joins = inner.meets; meets = inner.joins } };

    fn join(&self, a: u64, b: u64) -> Option<u64> {
        self.inner.meet(a, b)
    }

    fn meet(&self, a: u64, b: u64) -> Option<u64> {
        self.inner.join(a, b)
    }
}

// Whether a flows to b in an order that was reversed twice, which means what the order itself means.
pub fn flows_reversed_twice<L: Order>(order: &Reversed<Reversed<L>>, a: u64, b: u64) -> bool
    ensures flow { result ≡ (L.Order.meaning order.now.inner.inner).flow a b }
    ensures same { dual (dual (L.Order.meaning order.now.inner.inner)) ≡ L.Order.meaning order.now.inner.inner }
{
    order.flows(a, b)
}
