ghost use Rattle.std.specs.Prelude.{◌≡◌};
ghost use Rattle.agreement.specs.Agreements.{joined};
ghost use Rattle.machine.specs.Calls.{if_accepted};
ghost use Rattle.machine.specs.Places.{held, place};
ghost use Rattle.machine.specs.Steps.{show_judged};

use crate::inside::house_of;
use agreement::Joined;
use machine::{StepFault, Values};
use order::Order;
use refusal::{Side, check};

fn judge_show<N: Order, F: Order>(
    houses: &Joined<'_, N, F>,
    side: Side,
    label: u64,
    item: u64,
) -> Result<(), StepFault>
    ensures { result ≡ show_judged ((joined N.Order.meaning F.Order.meaning houses.now).order side) side ((joined N.Order.meaning F.Order.meaning houses.now).items side) label item }
{
    let house = house_of(houses, side);
    check(
        label < house.order.count(),
        StepFault::UnknownLabel { side, label },
    )?;
    house.suitable(item, None)?;
    check(
        house.flows(item, label),
        StepFault::NotAllowed {
            side: Some(side),
            target: item,
            source: label,
        },
    )
}

// The value of an item, for somebody cleared for a label of its house.
pub fn show<N: Order, F: Order>(
    houses: &Joined<'_, N, F>,
    values: &Values,
    side: Side,
    label: u64,
    item: u64,
) -> Result<u64, StepFault>
    ensures { result ≡ if_accepted (show_judged ((joined N.Order.meaning F.Order.meaning houses.now).order side) side ((joined N.Order.meaning F.Order.meaning houses.now).items side) label item) (held values.now (place side item)) }
{
    judge_show(houses, side, label, item)?;
    Ok(values.get(side, item))
}
