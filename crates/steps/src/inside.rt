ghost use Rattle.std.specs.Prelude.{◌≡◌};
ghost use Rattle.agreement.specs.Agreements.{joined};
ghost use Rattle.machine.specs.Steps.{item_judged, label_of, serves};

use agreement::{Item, Joined, Role};
use either::Either;
use machine::StepFault;
use order::Order;
use refusal::{Side, check};

// One of the joined houses as the steps inside it see it.
#[derive(Clone, Copy)]
pub(crate) struct Inside<'a, O> {
    pub order: O,
    pub side: Side,
    pub items: &'a [Item],
}

// The house of a side.
pub(crate) fn house_of<'a, N: Order, F: Order>(
    houses: &Joined<'a, N, F>,
    side: Side,
) -> Inside<'a, Either<&'a N, &'a F>>
    ensures order { ⟦<Either<&'a N, &'a F> as Order>⟧.meaning result.order ≡ (joined N.Order.meaning F.Order.meaning houses.now).order side }
    ensures side { result.side ≡ side }
    ensures items { result.items.now ≡ (joined N.Order.meaning F.Order.meaning houses.now).items side }
{
    Inside {
        order: houses.house(side),
        side,
        items: houses.items(side),
    }
}

impl<'a, O: Order> Inside<'a, O> {
    // The label of an item, 0 for an unknown one.
    pub(crate) fn label_of(&self, item: u64) -> u64
        ensures { result ≡ label_of self.now.items.now item }
    {
        self.items.get(item as usize).map_or(0, |item| item.label)
    }

    // Whether there is such an item, with the role that is needed.
    pub(crate) fn suitable(&self, item: u64, role: Option<Role>) -> Result<(), StepFault>
        ensures { result ≡ item_judged self.now.side self.now.items.now item role }
    {
        let found = self.items.get(item as usize);
        check(
            found.is_some_and(|found| serves(role, found.role)),
            StepFault::Unsuitable {
                side: self.side,
                item,
                role,
            },
        )
    }

    // Whether the label of an item flows to a label.
    pub(crate) fn flows(&self, item: u64, label: u64) -> bool
        ensures { result ≡ (O.Order.meaning self.now.order).flow (label_of self.now.items.now item) label }
    {
        self.order.flows(self.label_of(item), label)
    }
}

// Whether a role, which may be handed in as any number, is the one that is needed.
fn serves(needed: Option<Role>, role: u64) -> bool
    ensures { result ≡ serves needed role }
{
    needed.is_none_or(|needed| role == u64::from(needed))
}
