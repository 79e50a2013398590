use agreement::Item;
use fixed::FixedList;
use machine::{Stage, Values};

// The most labels that a house has, and the most items.
const MOST_LABELS: usize = 64;

const MOST_ITEMS: usize = 128;

// The images of the labels of each house.
#[derive(Clone, Copy)]
pub struct Maps {
    pub(crate) out: FixedList<u64, MOST_LABELS>,
    pub(crate) back: FixedList<u64, MOST_LABELS>,
}

impl Maps {
    // Before certification there are no entries.
    pub(crate) const NONE: Maps = Maps {
        out: NO_ENTRIES,
        back: NO_ENTRIES,
    };
}

const NO_ENTRIES: FixedList<u64, MOST_LABELS> = FixedList {
    count: 0,
    places: [0; MOST_LABELS],
};

#[derive(Clone, Copy)]
pub struct Items {
    pub(crate) near: FixedList<Item, MOST_ITEMS>,
    pub(crate) far: FixedList<Item, MOST_ITEMS>,
}

impl Items {
    pub(crate) const NONE: Items = Items {
        near: NO_ITEMS,
        far: NO_ITEMS,
    };
}

const NO_ITEMS: FixedList<Item, MOST_ITEMS> = FixedList {
    count: 0,
    places: [BLANK_ITEM; MOST_ITEMS],
};

// What stands behind the items of a house.
pub(crate) const BLANK_ITEM: Item = Item { role: 0, label: 0 };

// The items of both houses, and what they hold.
#[derive(Clone, Copy)]
pub struct Table {
    pub(crate) items: Items,
    pub(crate) values: Values,
}

// A session between two houses, given by their lattices. No Model, since what is known of it is a joint, which has no code.
#[derive(Drop)]
pub struct Session<N, F> {
    pub(crate) near: N,
    pub(crate) far: F,
    pub(crate) maps: Maps,
    pub(crate) stage: Stage,
    pub(crate) table: Table,
}
