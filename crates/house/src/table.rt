ghost use Rattle.house.specs.Kinds.{table_order};
ghost use Rattle.tables.specs.contracts.graded.GradedLattice.TheImpl.Laws.{bounds-law as graded_bounds};
ghost use Rattle.tables.specs.contracts.listed.ListedLattice.TheImpl.Laws.{bounds-law as listed_bounds};
ghost use Rattle.house.specs.declared.table.Table.TheVariants.{Listed, Graded};

use order::{Lattice, Order};
use tables::{Graded, Listed};

// The lattice of a house, whatever its kind. Either is no plainer: Left and Right would stand for the kinds.
#[derive(Clone, Copy)]
pub enum Table {
    Listed(Listed),
    Graded(Graded),
}

impl Order for Table {
    ghost meaning = { table_order };

    fn count(&self) -> u64 {
        match self {
            Table::Listed(table) => table.count(),
            Table::Graded(table) => table.count(),
        }
    }

    fn flows(&self, a: u64, b: u64) -> bool {
        match self {
            Table::Listed(table) => table.flows(a, b),
            Table::Graded(table) => table.flows(a, b),
        }
    }
}

impl Lattice for Table {
    ghost bounds = { elim [ Listed t ↦ listed_bounds t | Graded t ↦ graded_bounds t ] };

    fn join(&self, a: u64, b: u64) -> Option<u64> {
        match self {
            Table::Listed(table) => table.join(a, b),
            Table::Graded(table) => table.join(a, b),
        }
    }

    fn meet(&self, a: u64, b: u64) -> Option<u64> {
        match self {
            Table::Listed(table) => table.meet(a, b),
            Table::Graded(table) => table.meet(a, b),
        }
    }
}
