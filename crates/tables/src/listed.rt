ghost use Rattle.std.specs.Prelude.{◌≡◌, [], ◌∷◌, is_ok, Ok, Err, Decides, MatchResult};
ghost use Rattle.order.specs.Bounds.{IsLattice};
ghost use Rattle.tables.specs.contracts.ordered.OrderedOrder.TheImpl.{ghosts as ordered};
ghost use Rattle.tables.specs.Listed.{rows_judged, LatticeRows, Holds};
ghost use Rattle.tables.specs.Lattices.{lattice_of};

use crate::bounds::{Pair, judge_bounds};
use crate::fault::TableFault;
use crate::ordered::Ordered;
use order::{Bound, Lattice, Order, Reversed};

// A lattice of labels, given by its rows: label a flows to label b where bit b of row a is 1.
#[derive(Clone, Copy)]
pub struct Listed {
    table: Ordered,
    ghost lattice: { ∥ IsLattice (ordered.meaning table) ∥₁ },
}

impl Listed {
    // The lattice of one label.
    pub fn new() -> Listed
        ensures { Holds (1 ∷ []) result.table.rows.count result.table.rows.places }
    {
        Listed {
            table: Ordered::new(),
        }
    }

    // Takes these rows in place of its own, if they are 1 to 32 and a lattice; else it stays as it is.
    pub fn write(&mut self, rows: &[u32]) -> Result<(), TableFault>
        ensures answer { result ≡ rows_judged rows.now }
        ensures place { MatchResult result (λ _. Holds rows.now self.new.table.rows.count self.new.table.rows.places) (λ _. self.new ≡ self.old) }
        ensures law { Decides (is_ok result) (LatticeRows rows.now) }
    {
        *self = Listed::try_from(rows)?;
        Ok(())
    }
}

// The lattice of these rows, or their first fault.
impl TryFrom<&[u32]> for Listed {
    type Error = TableFault;

    ghost try_from_gives = { λ rows r. MatchResult r (λ t. (rows_judged rows.now ≡ Ok tt) × Holds rows.now t.table.rows.count t.table.rows.places) (λ e. rows_judged rows.now ≡ Err e)
        × Decides (is_ok r) (LatticeRows rows.now) };

    fn try_from(rows: &[u32]) -> Result<Listed, TableFault> {
        let table = Ordered::try_from(rows)?;
        judge_bounds(&table, Bound::Join)?;
        judge_bounds(&table, Bound::Meet)?;
        Ok(Listed { table })
    }
}

impl Order for Listed {
    ghost meaning = { λ s. ordered.meaning s.table };

    fn count(&self) -> u64 {
        self.table.count()
    }

    fn flows(&self, a: u64, b: u64) -> bool {
        self.table.flows(a, b)
    }
}

impl Lattice for Listed {
    ghost bounds = { λ s. lattice_of (ordered.meaning s.table) s.lattice };

    fn join(&self, a: u64, b: u64) -> Option<u64> {
        let order = &self.table;
        Pair { order, a, b }.candidate()
    }

    fn meet(&self, a: u64, b: u64) -> Option<u64> {
        let order = Reversed { inner: &self.table };
        Pair { order, a, b }.candidate()
    }
}
