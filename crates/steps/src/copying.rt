ghost use Rattle.std.specs.Prelude.{◌≡◌};
ghost use Rattle.agreement.specs.Agreements.{joined};
ghost use Rattle.machine.specs.Places.{place, written};
ghost use Rattle.machine.specs.Steps.{copy_judged, copy_write, move, step_judged};

use crate::inside::house_of;
use agreement::{Joined, Role};
use machine::{StepFault, Values};
use order::Order;
use refusal::{Side, check};

// The roles of the items of a copy inside a house: a fetch and a store differ in nothing else.
#[derive(Clone, Copy)]
pub(crate) struct Roles {
    pub to: Role,
    pub from: Role,
}

pub(crate) const FETCH: Roles = Roles {
    to: Role::Working,
    from: Role::Import,
};

pub(crate) const STORE: Roles = Roles {
    to: Role::Export,
    from: Role::Working,
};

// A copy inside one of the houses.
pub(crate) fn judge_copy<N: Order, F: Order>(
    houses: &Joined<'_, N, F>,
    side: Side,
    roles: Roles,
    target: u64,
    source: u64,
) -> Result<(), StepFault>
    ensures { result ≡ copy_judged ((joined N.Order.meaning F.Order.meaning houses.now).order side) side ((joined N.Order.meaning F.Order.meaning houses.now).items side) roles.to roles.from target source }
{
    let Roles { to, from } = roles;
    let house = house_of(houses, side);
    house.suitable(target, Some(to))?;
    house.suitable(source, Some(from))?;
    check(
        house.flows(source, house.label_of(target)),
        StepFault::NotAllowed {
            side: Some(side),
            target,
            source,
        },
    )
}

// A copy from an export of the house of a side to an import of the other house.
pub(crate) fn judge_move<N: Order, F: Order>(
    houses: &Joined<'_, N, F>,
    side: Side,
    target: u64,
    source: u64,
) -> Result<(), StepFault>
    ensures { result ≡ step_judged (joined N.Order.meaning F.Order.meaning houses.now) (move side target source) }
{
    let from = house_of(houses, side);
    let to = house_of(houses, side.other());
    to.suitable(target, Some(Role::Import))?;
    from.suitable(source, Some(Role::Export))?;
    let map = houses.trip(side).across();
    check(
        map.allows(from.label_of(source), to.label_of(target)),
        StepFault::NotAllowed {
            side: None,
            target,
            source,
        },
    )
}

pub(crate) fn copy(values: &mut Values, to: Side, target: u64, from: Side, source: u64)
    ensures { values.new ≡ written values.old (copy_write (place to target) (place from source)) }
{
    let value = values.get(from, source);
    values.put(to, target, value);
}
