ghost use Rattle.std.specs.Prelude.{◌≡◌, ◌<◌, ◌&&◌, length, is_ok, Decides};
ghost use Rattle.refusal.specs.Judging.{each_from};
ghost use Rattle.tables.specs.Bounded.{each_after, each_pair};
ghost use Rattle.tables.specs.Rows.{rows_flow};
ghost use Rattle.tables.specs.Listed.{reflexive_at, antisymmetric_at, transitive_from, laws_judged, order_judged, OrderRows};

use crate::fault::TableFault;
use crate::rows::{MAX_ROWS, Rows};

#[tactic(auto, using(refusal::proofs::Judging::left_more, refusal::proofs::Judging::left_break))]
impl Rows<'_> {
    // Every label flows to itself.
    fn judge_reflexive(&self) -> Result<(), TableFault>
        ensures { result ≡ each_from (reflexive_at (rows_flow self.now.rows.now)) 0 (length self.now.rows.now) }
    {
        for label in 0..self.count() {
            if !self.flows(label, label) {
                return Err(TableFault::NotReflexive { label });
            }
        }
        Ok(())
    }

    // Whether labels a and b flow to each other.
    fn flow_both_ways(&self, a: u64, b: u64) -> bool
        ensures { result ≡ (rows_flow self.now.rows.now a b && rows_flow self.now.rows.now b a) }
    {
        self.flows(a, b) && self.flows(b, a)
    }

    // Label a and a later label do not flow to each other.
    fn judge_antisymmetric_after(&self, a: u64) -> Result<(), TableFault>
        requires { a < length self.now.rows.now }
        ensures { result ≡ each_after (antisymmetric_at (rows_flow self.now.rows.now)) (length self.now.rows.now) a }
    {
        for b in a + 1..self.count() {
            if self.flow_both_ways(a, b) {
                return Err(TableFault::NotAntisymmetric { a, b });
            }
        }
        Ok(())
    }

    // No two different labels flow to each other.
    fn judge_antisymmetric(&self) -> Result<(), TableFault>
        ensures { result ≡ each_pair (antisymmetric_at (rows_flow self.now.rows.now)) (length self.now.rows.now) }
    {
        for a in 0..self.count() {
            self.judge_antisymmetric_after(a)?;
        }
        Ok(())
    }

    // Label a flows to whatever the labels flow to that it flows to.
    fn judge_transitive_at(&self, a: u64) -> Result<(), TableFault>
        ensures { result ≡ transitive_from (length self.now.rows.now) (rows_flow self.now.rows.now) a }
    {
        for b in 0..self.count() {
            if !self.carries(a, b) {
                return Err(TableFault::NotTransitive { a, b });
            }
        }
        Ok(())
    }

    // Flow carries on. One text for this law and the one before takes a closure with a contract, which is no plainer.
    fn judge_transitive(&self) -> Result<(), TableFault>
        ensures { result ≡ each_from (transitive_from (length self.now.rows.now) (rows_flow self.now.rows.now)) 0 (length self.now.rows.now) }
    {
        for a in 0..self.count() {
            self.judge_transitive_at(a)?;
        }
        Ok(())
    }

    // Each law over all labels, before the next law.
    fn judge_laws(&self) -> Result<(), TableFault>
        ensures { result ≡ laws_judged (length self.now.rows.now) (rows_flow self.now.rows.now) }
    {
        self.judge_reflexive()?;
        self.judge_antisymmetric()?;
        self.judge_transitive()
    }
}

// The rows are 1 to 32, and keep the laws of an order.
pub(crate) fn judge_order(rows: &[u32]) -> Result<(), TableFault>
    ensures answer { result ≡ order_judged rows.now }
    ensures law { Decides (is_ok result) (OrderRows rows.now) }
{
    if rows.is_empty() || rows.len() > MAX_ROWS {
        return Err(TableFault::Rows);
    }
    Rows { rows }.judge_laws()
}
