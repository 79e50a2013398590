ghost use Rattle.std.specs.Prelude.{◌≡◌};
ghost use Rattle.fixed.specs.Lists.{list_of};

use agreement::{Agreement, Item};
use fixed::FixedList;
use house::{House, Table};

// The most labels of a house, and so the most entries of a map.
pub(crate) const MOST_LABELS: usize = 64;

// The most items of a house.
pub(crate) const MOST_ITEMS: usize = 255;

// The parts of a sheet before its script.
#[derive(Clone, Copy)]
pub struct Parts {
    pub near: House,
    pub far: House,
    pub out: FixedList<u64, MOST_LABELS>,
    pub back: FixedList<u64, MOST_LABELS>,
    pub near_items: FixedList<Item, MOST_ITEMS>,
    pub far_items: FixedList<Item, MOST_ITEMS>,
}

impl Parts {
    // The agreement between the two houses.
    pub fn agreement(&self) -> Agreement<'_>
        ensures out { result.out.now ≡ list_of self.now.out }
        ensures back { result.back.now ≡ list_of self.now.back }
        ensures near_items { result.near_items.now ≡ list_of self.now.near_items }
        ensures far_items { result.far_items.now ≡ list_of self.now.far_items }
    {
        Agreement {
            out: self.out.as_slice(),
            back: self.back.as_slice(),
            near_items: self.near_items.as_slice(),
            far_items: self.far_items.as_slice(),
        }
    }
}

// A sheet that was read: its parts, the bit where its script begins, and how many lines that has.
#[derive(Clone, Copy)]
pub struct Sheet {
    pub parts: Parts,
    pub script: u128,
    pub lines: u64,
}

// A sheet and the lattices of its houses.
#[derive(Clone, Copy)]
pub struct Opened {
    pub near: Table,
    pub far: Table,
    pub sheet: Sheet,
}
