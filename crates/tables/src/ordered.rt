ghost use Rattle.std.specs.Prelude.{◌≡◌, ◌≤◌, [], ◌∷◌, Ok, Err, MatchResult};
ghost use Rattle.tables.specs.Rows.{listed_order, IsOrder};
ghost use Rattle.tables.specs.Listed.{order_judged, Holds};

use crate::fault::TableFault;
use crate::judge::judge_order;
use crate::rows::{MAX_ROWS, Rows};
use fixed::FixedList;
use order::Order;

// A table of 1 to 32 rows that are an order of labels.
#[derive(Clone, Copy)]
pub(crate) struct Ordered {
    rows: FixedList<u32, MAX_ROWS>,
    ghost some: { 1 ≤ rows.count },
    ghost few: { rows.count ≤ 32 },
    ghost lawful: { ∥ IsOrder rows.count rows.places ∥₁ },
}

impl Ordered {
    // The order of one label.
    pub(crate) fn new() -> Ordered
        ensures { Holds (1 ∷ []) result.rows.count result.rows.places }
    {
        Ordered {
            rows: FixedList::of(0, &[1]),
        }
    }
}

// The table of these rows, or their first fault as an order.
impl TryFrom<&[u32]> for Ordered {
    type Error = TableFault;

    ghost try_from_gives = { λ rows r. MatchResult r (λ t. (order_judged rows.now ≡ Ok tt) × Holds rows.now t.rows.count t.rows.places) (λ e. order_judged rows.now ≡ Err e) };

    fn try_from(rows: &[u32]) -> Result<Ordered, TableFault> {
        judge_order(rows)?;
        Ok(Ordered {
            rows: FixedList::of(0, rows),
        })
    }
}

impl Order for Ordered {
    ghost meaning = { λ s. listed_order s.rows.count s.rows.places s.some s.few s.lawful };

    fn count(&self) -> u64 {
        self.rows.count
    }

    fn flows(&self, a: u64, b: u64) -> bool {
        let rows = self.rows.as_slice();
        Rows { rows }.flows(a, b)
    }
}
