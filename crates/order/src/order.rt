ghost use Rattle.std.specs.Prelude.{◌≡◌, [], ◌∷◌};
ghost use Rattle.order.specs.Orders.{PartialOrder, dual};
ghost use Rattle.order.specs.Bounds.{Joined, IsLattice};

// An order of labels, numbered from 0.
pub trait Order {
    ghost meaning: { Self → PartialOrder };

    fn count(&self) -> u64
        ensures { result ≡ (meaning self.now).count };

    fn flows(&self, a: u64, b: u64) -> bool
        ensures { result ≡ (meaning self.now).flow a b };
}

// An order in which every two labels have a least upper and a greatest lower label.
pub trait Lattice: Order {
    fn join(&self, a: u64, b: u64) -> Option<u64>
        ensures { Joined (Self.Order.meaning self.now) (a ∷ b ∷ []) result };

    fn meet(&self, a: u64, b: u64) -> Option<u64>
        ensures { Joined (dual (Self.Order.meaning self.now)) (a ∷ b ∷ []) result };

    ghost bounds: { (s : Self) → IsLattice (Self.Order.meaning s) };
}
