ghost use Rattle.std.specs.Prelude.{◌≡◌, ◌≤◌, length};
ghost use Rattle.tables.specs.Rows.{rows_flow};
ghost use Rattle.tables.specs.Listed.{carries};

// The largest number of rows.
pub(crate) const MAX_ROWS: usize = 32;

// The rows of a table, lent. Label a flows to label b where bit b of row a is 1.
#[derive(Clone, Copy)]
pub(crate) struct Rows<'a> {
    pub(crate) rows: &'a [u32],
    ghost few: { length rows.now ≤ 32 },
}

impl Rows<'_> {
    // The number of labels.
    pub(crate) fn count(&self) -> u64
        ensures { result ≡ length self.now.rows.now }
    {
        self.rows.len() as u64
    }

    // Whether label a flows to label b.
    pub(crate) fn flows(&self, a: u64, b: u64) -> bool
        ensures { result ≡ rows_flow self.now.rows.now a b }
    {
        let count = self.count();
        if a >= count || b >= count {
            return false;
        }
        self.rows[a as usize] >> b & 1 == 1
    }

    // Whether label a, if it flows to b, flows to every label that b flows to.
    #[tactic(auto, using(crate::specs::Rows::flow_known))]
    pub(crate) fn carries(&self, a: u64, b: u64) -> bool
        ensures { result ≡ carries (length self.now.rows.now) (rows_flow self.now.rows.now) a b }
    {
        if !self.flows(a, b) {
            return true;
        }
        let known = (1u64 << self.count()) - 1;
        let onward = self.rows[b as usize] as u64 & known;
        onward & self.rows[a as usize] as u64 == onward
    }
}
