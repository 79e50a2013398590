ghost use Rattle.std.specs.Prelude.{◌≡◌, [], ◌∷◌};
ghost use Rattle.agreement.specs.Agreements.{joined};
ghost use Rattle.machine.specs.Calls.{line_step};
ghost use Rattle.machine.specs.Steps.{compute, label_of, move};
ghost use Rattle.machine.specs.Types.{for_house, or_top};
ghost use Rattle.steps.specs.Folds.{Lowers, LowersBoth, LowersBy};

use crate::inside::house_of;
use agreement::Joined;
use order::{Bound, Lattice, bound_of_none, bound_of_two};
use refusal::Side;
use script::{Assignment, Line};

// The greatest lower label, in each house, of the labels that were given so far; absent where one is unknown.
#[derive(Clone, Copy)]
pub(crate) struct Lowest {
    pub near: Option<u64>,
    pub far: Option<u64>,
}

// One label more.
fn lowered<L: Lattice>(lattice: &L, bound: Option<u64>, label: u64) -> Option<u64>
    ensures { Lowers (L.Order.meaning lattice.now) (label ∷ []) bound result }
{
    bound_of_two(lattice, Bound::Meet, bound?, label)
}

// The label of an item of one of the houses.
fn lowered_by_item<N: Lattice, F: Lattice>(
    houses: &Joined<'_, N, F>,
    lowest: Lowest,
    side: Side,
    item: u64,
) -> Lowest
    ensures { LowersBy (joined N.Order.meaning F.Order.meaning houses.now) (λ u. for_house side u (label_of ((joined N.Order.meaning F.Order.meaning houses.now).items side) item ∷ [])) lowest result }
{
    let label = house_of(houses, side).label_of(item);
    // By a match, since one bound of the two is set: to read it and to set it by its side would be a match each.
    match side {
        Side::Near => Lowest {
            near: lowered(houses.near, lowest.near, label),
            ..lowest
        },
        Side::Far => Lowest {
            far: lowered(houses.far, lowest.far, label),
            ..lowest
        },
    }
}

// The labels of the targets of a compute.
fn lowered_by_compute<N: Lattice, F: Lattice>(
    houses: &Joined<'_, N, F>,
    lowest: Lowest,
    side: Side,
    assignments: &[Assignment],
) -> Lowest
    ensures { LowersBoth (joined N.Order.meaning F.Order.meaning houses.now) (compute side assignments.now) lowest result }
{
    let mut lowered = lowest;
    for assignment in assignments {
        lowered = lowered_by_item(houses, lowered, side, assignment.target);
    }
    lowered
}

// The labels of both items of a copy out of the house of a side.
fn lowered_by_move<N: Lattice, F: Lattice>(
    houses: &Joined<'_, N, F>,
    lowest: Lowest,
    side: Side,
    target: u64,
    source: u64,
) -> Lowest
    ensures { LowersBoth (joined N.Order.meaning F.Order.meaning houses.now) (move side target source) lowest result }
{
    let given = lowered_by_item(houses, lowest, side, source);
    lowered_by_item(houses, given, side.other(), target)
}

// The labels that a line gives both houses.
pub(crate) fn lowered_by_line<N: Lattice, F: Lattice>(
    houses: &Joined<'_, N, F>,
    lowest: Lowest,
    line: &Line,
) -> Lowest
    ensures { LowersBoth (joined N.Order.meaning F.Order.meaning houses.now) (line_step line.now) lowest result }
{
    match line {
        Line::Compute { side, assignments } => {
            lowered_by_compute(houses, lowest, *side, assignments.as_slice())
        }
        Line::Fetch { side, target, .. } | Line::Store { side, target, .. } => {
            lowered_by_item(houses, lowest, *side, *target)
        }
        Line::Outward { target, source } => {
            lowered_by_move(houses, lowest, Side::Near, *target, *source)
        }
        Line::Inward { target, source } => {
            lowered_by_move(houses, lowest, Side::Far, *target, *source)
        }
    }
}

// An absent bound counts as the top.
pub(crate) fn type_label<L: Lattice>(lattice: &L, bound: Option<u64>) -> u64
    ensures { result ≡ or_top (L.Order.meaning lattice.now) bound }
{
    bound.unwrap_or_else(|| bound_of_none(lattice, Bound::Meet))
}
