use fixed::FixedList;

// The largest number of rows.
pub(crate) const MAX_ROWS: usize = 32;

// A house as it is described: rows, lattice or not, or levels and compartments. Any numbers may come.
#[derive(Clone, Copy)]
pub enum House {
    Listed(FixedList<u32, MAX_ROWS>),
    Graded { levels: u64, compartments: u64 },
}
