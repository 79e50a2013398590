ghost use Rattle.std.specs.Prelude.{◌≡◌, ◌<◌, not, ◌||◌, [], ◌∷◌};
ghost use Rattle.order.specs.Bounds.{toward};
ghost use Rattle.tables.specs.Bounded.{upper, least_in, bounded_in, better, lacking, bounded_at, bounds_judged, each_after, Candidate};

use crate::fault::TableFault;
use order::{Bound, Order, Reversed};

// Two labels of an order, whose least upper label is asked for. Their greatest lower one is that of the reversed order.
#[derive(Clone, Copy)]
pub(crate) struct Pair<O> {
    pub(crate) order: O,
    pub(crate) a: u64,
    pub(crate) b: u64,
}

impl<O: Order> Pair<O> {
    // Whether both labels flow to this one.
    fn is_upper(&self, label: u64) -> bool
        ensures { result ≡ upper (O.Order.meaning self.now.order).flow self.now.a self.now.b label }
    {
        self.order.flows(self.a, label) && self.order.flows(self.b, label)
    }

    // Whether both flow to the label, and it flows to the best so far, if there is one.
    fn is_better(&self, label: u64, best: Option<u64>) -> bool
        ensures { result ≡ better (O.Order.meaning self.now.order).flow self.now.a self.now.b label best }
    {
        self.is_upper(label) && best.is_none_or(|best| self.order.flows(label, best))
    }

    // The one label that can be their least upper one, by one pass over the labels.
    pub(crate) fn candidate(&self) -> Option<u64>
        ensures { Candidate (O.Order.meaning self.now.order) (self.now.a ∷ self.now.b ∷ []) result }
    {
        let mut best = None;
        for label in 0..self.order.count() {
            if self.is_better(label, best) {
                best = Some(label);
            }
        }
        best
    }

    // Whether the label flows to the other, if both labels flow to the other.
    fn is_under(&self, label: u64, other: u64) -> bool
        ensures { result ≡ (not (upper (O.Order.meaning self.now.order).flow self.now.a self.now.b other) || (O.Order.meaning self.now.order).flow label other) }
    {
        !self.is_upper(other) || self.order.flows(label, other)
    }

    // Whether the label flows to every label that both flow to.
    fn is_least(&self, label: u64) -> bool
        ensures { result ≡ least_in (O.Order.meaning self.now.order) self.now.a self.now.b label }
    {
        (0..self.order.count()).all(|other| self.is_under(label, other))
    }

    // Whether they have a least upper label. If one flows to the other, that is it.
    fn has_bound(&self) -> bool
        ensures { result ≡ bounded_in (O.Order.meaning self.now.order) self.now.a self.now.b }
    {
        if self.order.flows(self.a, self.b) || self.order.flows(self.b, self.a) {
            return true;
        }
        self.candidate().is_some_and(|label| self.is_least(label))
    }
}

// Whether labels a and b have the bound.
fn has_bound<O: Order>(order: &O, which: Bound, a: u64, b: u64) -> bool
    ensures { result ≡ bounded_in (toward which (O.Order.meaning order.now)) a b }
{
    match which {
        Bound::Join => Pair { order, a, b }.has_bound(),
        Bound::Meet => {
            let order = Reversed { inner: order };
            Pair { order, a, b }.has_bound()
        }
    }
}

// The fault of two labels that lack the bound.
fn lacking_bound(which: Bound, a: u64, b: u64) -> TableFault
    ensures { result ≡ lacking which a b }
{
    match which {
        Bound::Join => TableFault::NoJoin { a, b },
        Bound::Meet => TableFault::NoMeet { a, b },
    }
}

// Label a has the bound with every later label.
fn judge_bounds_after<O: Order>(order: &O, which: Bound, a: u64) -> Result<(), TableFault>
    requires { a < (O.Order.meaning order.now).count }
    ensures { result ≡ each_after (bounded_at which (O.Order.meaning order.now).count (O.Order.meaning order.now).flow) (O.Order.meaning order.now).count a }
{
    for b in a + 1..order.count() {
        if !has_bound(order, which, a, b) {
            return Err(lacking_bound(which, a, b));
        }
    }
    Ok(())
}

// Every two labels have the bound.
#[tactic(auto, using(refusal::proofs::Judging::left_more))]
pub(crate) fn judge_bounds<O: Order>(order: &O, which: Bound) -> Result<(), TableFault>
    ensures { result ≡ bounds_judged which (O.Order.meaning order.now).count (O.Order.meaning order.now).flow }
{
    for a in 0..order.count() {
        judge_bounds_after(order, which, a)?;
    }
    Ok(())
}
