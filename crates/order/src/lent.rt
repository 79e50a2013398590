// A lent order means what the order itself means, so that layers and choices can be made of lent orders.
use crate::order::{Lattice, Order};

impl<'a, O: Order> Order for &'a O {
    ghost meaning = { λ s. O.Order.meaning s.now };

    fn count(&self) -> u64 {
        (**self).count()
    }

    fn flows(&self, a: u64, b: u64) -> bool {
        (**self).flows(a, b)
    }
}

impl<'a, L: Lattice> Lattice for &'a L {
    ghost bounds = { λ s. L.Lattice.bounds s.now };

    fn join(&self, a: u64, b: u64) -> Option<u64> {
        (**self).join(a, b)
    }

    fn meet(&self, a: u64, b: u64) -> Option<u64> {
        (**self).meet(a, b)
    }
}
