ghost use Rattle.std.specs.Prelude.{◌≡◌, ◌∷◌, get_or, length};
ghost use Rattle.refusal.specs.Judging.{each_from};
ghost use Rattle.agreement.specs.Agreements.{joined};
ghost use Rattle.script.specs.Lines.{blank};
ghost use Rattle.machine.specs.Calls.{after, step};
ghost use Rattle.machine.specs.Operations.{operands};
ghost use Rattle.machine.specs.Places.{all_written, written};
ghost use Rattle.machine.specs.Steps.{all_flow, all_working, assignment_write, label_of, compute as compute_step, compute_judged, flows_judged, form_judged, operation_judged, roles_judged, step_judged, step_writes, target_judged};

use crate::inside::Inside;
use agreement::{Joined, Role};
use machine::{Operation, StepFault, Values, result_of};
use order::Order;
use refusal::{Side, check};
use script::Assignment;

// Loops over assignments go over the lent list with its places, in checks and in execution: a rule of the project.

// The most assignments of a compute.
const MOST_ASSIGNMENTS: usize = 8;

fn operations_known(side: Side, assignments: &[Assignment]) -> Result<(), StepFault>
    ensures { result ≡ each_from (operation_judged side assignments.now) 0 (length assignments.now) }
{
    for (place, assignment) in assignments.iter().enumerate() {
        if Operation::try_from(assignment.operation).is_err() {
            return Err(StepFault::UnknownOperation {
                side,
                place: place as u64,
                operation: assignment.operation,
            });
        }
    }
    Ok(())
}

fn well_formed(side: Side, assignments: &[Assignment]) -> Result<(), StepFault>
    ensures { result ≡ form_judged side assignments.now }
{
    check(
        assignments.len() <= MOST_ASSIGNMENTS,
        StepFault::TooManyAssignments { side },
    )?;
    operations_known(side, assignments)
}

impl<'a, O: Order> Inside<'a, O> {
    // The target and the operands that the operation has are working items.
    fn working(&self, assignment: &Assignment) -> Result<(), StepFault>
        ensures { result ≡ all_working self.now.side self.now.items.now (assignment.now.target ∷ operands assignment.now) }
    {
        let needed = Some(Role::Working);
        self.suitable(assignment.target, needed)?;
        match Operation::try_from(assignment.operation) {
            Err(_) | Ok(Operation::Put) => Ok(()),
            Ok(Operation::Copy) => self.suitable(assignment.left, needed),
            Ok(Operation::Sum | Operation::Difference | Operation::Smaller | Operation::Larger) => {
                self.suitable(assignment.left, needed)?;
                self.suitable(assignment.right, needed)
            }
        }
    }

    fn all_working(&self, assignments: &[Assignment]) -> Result<(), StepFault>
        ensures { result ≡ roles_judged self.now.side self.now.items.now assignments.now }
    {
        for (_place, assignment) in assignments.iter().enumerate() {
            self.working(assignment)?;
        }
        Ok(())
    }

    // Whether the operands of an assignment flow to a label.
    fn operands_flow(&self, assignment: &Assignment, label: u64) -> bool
        ensures { result ≡ all_flow (O.Order.meaning self.now.order) self.now.items.now (operands assignment.now) label }
    {
        match Operation::try_from(assignment.operation) {
            Err(_) | Ok(Operation::Put) => true,
            Ok(Operation::Copy) => self.flows(assignment.left, label),
            Ok(Operation::Sum | Operation::Difference | Operation::Smaller | Operation::Larger) =>
                self.flows(assignment.left, label) && self.flows(assignment.right, label),
        }
    }

    // Every operand of the compute flows to the label of the target at a place.
    fn all_flow_to(
        &self,
        assignments: &[Assignment],
        target: usize,
        label: u64,
    ) -> Result<(), StepFault>
        requires { label ≡ label_of self.now.items.now (get_or assignments.now target blank).target }
        ensures { result ≡ target_judged (O.Order.meaning self.now.order) self.now.side self.now.items.now assignments.now target }
    {
        for (place, assignment) in assignments.iter().enumerate() {
            if !self.operands_flow(assignment, label) {
                return Err(StepFault::NotAllowed {
                    side: Some(self.side),
                    target: target as u64,
                    source: place as u64,
                });
            }
        }
        Ok(())
    }

    // Every operand of the compute flows to every target of it.
    fn flows_allowed(&self, assignments: &[Assignment]) -> Result<(), StepFault>
        ensures { result ≡ flows_judged (O.Order.meaning self.now.order) self.now.side self.now.items.now assignments.now }
    {
        for (target, assignment) in assignments.iter().enumerate() {
            self.all_flow_to(assignments, target, self.label_of(assignment.target))?;
        }
        Ok(())
    }

    // The assignments as a compute in this house.
    fn judge(&self, assignments: &[Assignment]) -> Result<(), StepFault>
        ensures { result ≡ compute_judged (O.Order.meaning self.now.order) self.now.side self.now.items.now assignments.now }
    {
        well_formed(self.side, assignments)?;
        self.all_working(assignments)?;
        self.flows_allowed(assignments)
    }
}

// By a match, so that the loops over the assignments go over the order itself, which is faster.
pub(crate) fn judge_compute<N: Order, F: Order>(
    houses: &Joined<'_, N, F>,
    side: Side,
    assignments: &[Assignment],
) -> Result<(), StepFault>
    ensures { result ≡ step_judged (joined N.Order.meaning F.Order.meaning houses.now) (compute_step side assignments.now) }
{
    let agreement = houses.agreement;
    match side {
        Side::Near => Inside {
            order: houses.near,
            side,
            items: agreement.near_items,
        }
        .judge(assignments),
        Side::Far => Inside {
            order: houses.far,
            side,
            items: agreement.far_items,
        }
        .judge(assignments),
    }
}

fn assign(values: &mut Values, side: Side, assignment: &Assignment)
    ensures { values.new ≡ written values.old (assignment_write side assignment.now) }
{
    let left = values.get(side, assignment.left);
    let right = values.get(side, assignment.right);
    let result = result_of(assignment.operation, assignment.constant, left, right);
    values.put(side, assignment.target, result);
}

// The assignments in order, each on the values that the one before left.
pub(crate) fn assign_all(values: &mut Values, side: Side, assignments: &[Assignment])
    ensures { values.new ≡ all_written values.old (step_writes (compute_step side assignments.now)) }
{
    for (_place, assignment) in assignments.iter().enumerate() {
        assign(values, side, assignment);
    }
}

// Assignments on working items of one house, judged together and then done.
pub fn compute<N: Order, F: Order>(
    houses: &Joined<'_, N, F>,
    values: &mut Values,
    side: Side,
    assignments: &[Assignment],
) -> Result<(), StepFault>
    ensures answer { result ≡ step_judged (joined N.Order.meaning F.Order.meaning houses.now) (compute_step side assignments.now) }
    ensures values { values.new ≡ after (joined N.Order.meaning F.Order.meaning houses.now) values.old (step (compute_step side assignments.now)) }
{
    judge_compute(houses, side, assignments)?;
    assign_all(values, side, assignments);
    Ok(())
}
