ghost use Rattle.std.specs.Prelude.{◌≡◌};
ghost use Rattle.machine.specs.Calls.{as_done, as_shown, as_typed, line_step, run as a_run, show as a_show, step as a_step};
ghost use Rattle.machine.specs.Steps.{compute as a_compute, fetch as a_fetch, store as a_store, outward as an_outward, inward as an_inward};
ghost use Rattle.session.specs.Records.{after_call, answer_to, judging};

use crate::keeping::lent;
use crate::pass::OpenPass;
use crate::record::Session;
use machine::{CallFault, ScriptType, Stage, at_stage, may_judge};
use order::Lattice;
use refusal::Side;
use script::{Assignment, Line};
use steps::{judge_script, perform, run_script};

impl<N: Lattice, F: Lattice> Session<N, F> {
    // Assignments on working items of one house.
    pub fn compute(
        &mut self,
        _pass: &OpenPass,
        side: Side,
        assignments: &[Assignment],
    ) -> Result<(), CallFault>
        ensures answer { as_done result ≡ answer_to N.Order.meaning F.Order.meaning self.old (a_step (a_compute side assignments.now)) }
        ensures record { self.new ≡ after_call N.Order.meaning F.Order.meaning self.old (a_step (a_compute side assignments.now)) }
    {
        at_stage(self.stage, Stage::Open)?;
        let houses = lent(&self.near, &self.far, &self.maps, &self.table.items);
        steps::compute(&houses, &mut self.table.values, side, assignments)?;
        Ok(())
    }

    // A step as a line of a script has it.
    fn take(&mut self, _pass: &OpenPass, line: &Line) -> Result<(), CallFault>
        ensures answer { as_done result ≡ answer_to N.Order.meaning F.Order.meaning self.old (a_step (line_step line.now)) }
        ensures record { self.new ≡ after_call N.Order.meaning F.Order.meaning self.old (a_step (line_step line.now)) }
    {
        at_stage(self.stage, Stage::Open)?;
        let houses = lent(&self.near, &self.far, &self.maps, &self.table.items);
        perform(&houses, &mut self.table.values, line)?;
        Ok(())
    }

    // Copies an import to a working item of its house. No plainer as one call with `store`, which would take the kind of copy.
    pub fn fetch(
        &mut self,
        pass: &OpenPass,
        side: Side,
        target: u64,
        source: u64,
    ) -> Result<(), CallFault>
        ensures answer { as_done result ≡ answer_to N.Order.meaning F.Order.meaning self.old (a_step (a_fetch side target source)) }
        ensures record { self.new ≡ after_call N.Order.meaning F.Order.meaning self.old (a_step (a_fetch side target source)) }
    {
        self.take(
            pass,
            &Line::Fetch {
                side,
                target,
                source,
            },
        )
    }

    // Copies a working item to an export of its house.
    pub fn store(
        &mut self,
        pass: &OpenPass,
        side: Side,
        target: u64,
        source: u64,
    ) -> Result<(), CallFault>
        ensures answer { as_done result ≡ answer_to N.Order.meaning F.Order.meaning self.old (a_step (a_store side target source)) }
        ensures record { self.new ≡ after_call N.Order.meaning F.Order.meaning self.old (a_step (a_store side target source)) }
    {
        self.take(
            pass,
            &Line::Store {
                side,
                target,
                source,
            },
        )
    }

    // Copies a near export to a far import.
    pub fn outward(&mut self, pass: &OpenPass, target: u64, source: u64) -> Result<(), CallFault>
        ensures answer { as_done result ≡ answer_to N.Order.meaning F.Order.meaning self.old (a_step (an_outward target source)) }
        ensures record { self.new ≡ after_call N.Order.meaning F.Order.meaning self.old (a_step (an_outward target source)) }
    {
        self.take(pass, &Line::Outward { target, source })
    }

    // Copies a far export to a near import.
    pub fn inward(&mut self, pass: &OpenPass, target: u64, source: u64) -> Result<(), CallFault>
        ensures answer { as_done result ≡ answer_to N.Order.meaning F.Order.meaning self.old (a_step (an_inward target source)) }
        ensures record { self.new ≡ after_call N.Order.meaning F.Order.meaning self.old (a_step (an_inward target source)) }
    {
        self.take(pass, &Line::Inward { target, source })
    }

    // Judges the script that begins at a bit of the bytes, then does every line of it, or does nothing.
    pub fn run(&mut self, _pass: &OpenPass, bytes: &[u8], at: u128) -> Result<ScriptType, CallFault>
        ensures answer { as_typed result ≡ answer_to N.Order.meaning F.Order.meaning self.old (a_run bytes.now at) }
        ensures record { self.new ≡ after_call N.Order.meaning F.Order.meaning self.old (a_run bytes.now at) }
    {
        at_stage(self.stage, Stage::Open)?;
        let houses = lent(&self.near, &self.far, &self.maps, &self.table.items);
        let typed = run_script(&houses, &mut self.table.values, bytes, at)?;
        Ok(typed)
    }

    // The value of an item, for somebody cleared for a label of its house.
    pub fn show(
        &self,
        _pass: &OpenPass,
        side: Side,
        label: u64,
        item: u64,
    ) -> Result<u64, CallFault>
        ensures { as_shown result ≡ answer_to N.Order.meaning F.Order.meaning self.now (a_show side label item) }
    {
        at_stage(self.stage, Stage::Open)?;
        let value = steps::show(&self.houses(), &self.table.values, side, label, item)?;
        Ok(value)
    }

    // The type of the script that begins at a bit of the bytes; a certified or open session judges it, and needs no pass.
    pub fn judge(&self, bytes: &[u8], at: u128) -> Result<ScriptType, CallFault>
        ensures { as_typed result ≡ judging N.Order.meaning F.Order.meaning self.now (a_run bytes.now at) }
    {
        may_judge(self.stage)?;
        let typed = judge_script(&self.houses(), bytes, at)?;
        Ok(typed)
    }
}
