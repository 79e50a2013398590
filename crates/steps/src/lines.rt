ghost use Rattle.std.specs.Prelude.{◌≡◌};
ghost use Rattle.agreement.specs.Agreements.{joined};
ghost use Rattle.machine.specs.Calls.{after, line_step, step};
ghost use Rattle.machine.specs.Places.{all_written};
ghost use Rattle.machine.specs.Steps.{step_judged, step_writes};

use crate::computing::{assign_all, judge_compute};
use crate::copying::{FETCH, STORE, copy, judge_copy, judge_move};
use agreement::Joined;
use machine::{StepFault, Values};
use order::Order;
use refusal::Side;
use script::Line;

pub(crate) fn judge_line<N: Order, F: Order>(
    houses: &Joined<'_, N, F>,
    line: &Line,
) -> Result<(), StepFault>
    ensures { result ≡ step_judged (joined N.Order.meaning F.Order.meaning houses.now) (line_step line.now) }
{
    match line {
        Line::Compute { side, assignments } => {
            judge_compute(houses, *side, assignments.as_slice())
        }
        Line::Fetch {
            side,
            target,
            source,
        } => judge_copy(houses, *side, FETCH, *target, *source),
        Line::Store {
            side,
            target,
            source,
        } => judge_copy(houses, *side, STORE, *target, *source),
        Line::Outward { target, source } => judge_move(houses, Side::Near, *target, *source),
        Line::Inward { target, source } => judge_move(houses, Side::Far, *target, *source),
    }
}

pub(crate) fn do_line(values: &mut Values, line: &Line)
    ensures { values.new ≡ all_written values.old (step_writes (line_step line.now)) }
{
    match line {
        Line::Compute { side, assignments } => assign_all(values, *side, assignments.as_slice()),
        Line::Fetch {
            side,
            target,
            source,
        }
        | Line::Store {
            side,
            target,
            source,
        } => copy(values, *side, *target, *side, *source),
        Line::Outward { target, source } => {
            copy(values, Side::Far, *target, Side::Near, *source)
        }
        Line::Inward { target, source } => copy(values, Side::Near, *target, Side::Far, *source),
    }
}

// A step as a line of a script has it, judged and then done.
pub fn perform<N: Order, F: Order>(
    houses: &Joined<'_, N, F>,
    values: &mut Values,
    line: &Line,
) -> Result<(), StepFault>
    ensures answer { result ≡ step_judged (joined N.Order.meaning F.Order.meaning houses.now) (line_step line.now) }
    ensures values { values.new ≡ after (joined N.Order.meaning F.Order.meaning houses.now) values.old (step (line_step line.now)) }
{
    judge_line(houses, line)?;
    do_line(values, line);
    Ok(())
}
