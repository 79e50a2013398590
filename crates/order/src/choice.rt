// An order of one of two types means what the one that is there means.
ghost use Rattle.either.specs.declared.Either.TheVariants.{Left, Right};

use crate::order::{Lattice, Order};
use either::{Either, for_both};

impl<P: Order, Q: Order> Order for Either<P, Q> {
    ghost meaning = { elim [ Left p ↦ P.Order.meaning p | Right q ↦ Q.Order.meaning q ] };

    fn count(&self) -> u64 {
        for_both!(self, order => order.count())
    }

    fn flows(&self, a: u64, b: u64) -> bool {
        for_both!(self, order => order.flows(a, b))
    }
}

impl<P: Lattice, Q: Lattice> Lattice for Either<P, Q> {
    ghost bounds = { elim [ Left p ↦ P.Lattice.bounds p | Right q ↦ Q.Lattice.bounds q ] };

    fn join(&self, a: u64, b: u64) -> Option<u64> {
        for_both!(self, order => order.join(a, b))
    }

    fn meet(&self, a: u64, b: u64) -> Option<u64> {
        for_both!(self, order => order.meet(a, b))
    }
}
