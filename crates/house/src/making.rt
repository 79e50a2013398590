ghost use Rattle.std.specs.Prelude.{is_ok, Decides};
ghost use Rattle.tables.specs.contracts.listed.ListedOrder.TheImpl.{ghosts as listed};
ghost use Rattle.house.specs.Houses.{Built, IsHouse};
ghost use Rattle.house.specs.contracts.table.TableOrder.TheImpl.{ghosts as ordered};

use crate::description::{House, MAX_ROWS};
use crate::table::Table;
use fixed::FixedList;
use tables::{Graded, Listed, TableFault};

impl House {
    // The lattice that is described, or what is wrong with the description.
    pub fn table(&self) -> Result<Table, TableFault>
        ensures answer { Built ordered.meaning self.now result }
        ensures law { Decides (is_ok result) (IsHouse self.now) }
    {
        match self {
            House::Listed(rows) => Ok(Table::Listed(listed_table(rows)?)),
            House::Graded {
                levels,
                compartments,
            } => Ok(Table::Graded(Graded::new(*levels, *compartments)?)),
        }
    }
}

// The lattice of the rows. More than there is room for are refused.
fn listed_table(rows: &FixedList<u32, MAX_ROWS>) -> Result<Listed, TableFault>
    ensures answer { Built listed.meaning (House.Listed rows.now) result }
    ensures law { Decides (is_ok result) (IsHouse (House.Listed rows.now)) }
{
    if rows.count > MAX_ROWS as u64 {
        return Err(TableFault::Rows);
    }
    Listed::try_from(rows.as_slice())
}
