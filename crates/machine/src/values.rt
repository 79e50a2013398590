ghost use Rattle.std.specs.Prelude.{◌≡◌, slice_set};
ghost use Rattle.machine.specs.Places.{place, held, put};

use refusal::Side;

// The most items that a house has.
const MOST_ITEMS: usize = 128;

// What the items of both houses hold, by number: two tables, as the record of a session keeps them.
#[derive(Clone, Copy)]
pub struct Values {
    pub near: [u64; MOST_ITEMS],
    pub far: [u64; MOST_ITEMS],
}

impl Values {
    pub const ZERO: Values = Values {
        near: [0; MOST_ITEMS],
        far: [0; MOST_ITEMS],
    };

    // What the item holds; 0 past the last.
    pub fn get(&self, side: Side, item: u64) -> u64
        ensures { result ≡ held self.now (place side item) }
    {
        let values = match side {
            Side::Near => &self.near,
            Side::Far => &self.far,
        };
        values.get(item as usize).copied().unwrap_or(0)
    }

    // Writes into the item; past the last there is nothing to write to.
    pub fn put(&mut self, side: Side, item: u64, value: u64)
        ensures { self.new ≡ put self.old (place side item) value }
    {
        match side {
            Side::Near => set_value(&mut self.near, item, value),
            Side::Far => set_value(&mut self.far, item, value),
        }
    }
}

// By a test, since a slice's `get_mut` tells a proof nothing of the elements: tried, the proof does not close.
fn set_value(values: &mut [u64; MOST_ITEMS], item: u64, value: u64)
    ensures { values.new ≡ slice_set values.old item value }
{
    if item < MOST_ITEMS as u64 {
        values[item as usize] = value;
    }
}
