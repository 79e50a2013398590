ghost use Rattle.std.specs.Prelude.{◌≡◌, IfOk, vec_items};
ghost use Rattle.std.specs.Option.{option_map};
ghost use Rattle.agreement.specs.Agreements.{joined};
ghost use Rattle.agreement.specs.Views.{view_at, view_in, highest_in, listed, Lists, ListsView};

use crate::item::Item;
use crate::joined::Joined;
use order::Order;
use refusal::Side;
use std::alloc::{AllocError, Global};

// What somebody cleared for a label may come to depend on: in each house the labels that flow to the highest one.
#[derive(Clone, Copy, PartialEq, Eq, Debug)]
pub struct View {
    pub near: u64,
    pub far: u64,
}

impl View {
    // The view with this highest label in the house of a side, and that one across.
    fn at(side: Side, own: u64, across: u64) -> View
        ensures { result ≡ view_at side own across }
    {
        match side {
            Side::Near => View {
                near: own,
                far: across,
            },
            Side::Far => View {
                near: across,
                far: own,
            },
        }
    }

    // The highest label in a house.
    fn highest(&self, house: Side) -> u64
        ensures { result ≡ highest_in self.now house }
    {
        match house {
            Side::Near => self.near,
            Side::Far => self.far,
        }
    }
}

// The items of a house whose label flows to the highest, by number.
pub fn items_up_to<O: Order>(
    heap: Global,
    order: &O,
    highest: u64,
    items: &[Item],
) -> Result<Vec<u64>, AllocError>
    ensures items { IfOk result (λ v. v.items ≡ listed (O.Order.meaning order.now) highest 0 items.now) }
    ensures exact { IfOk result (λ v. Lists (O.Order.meaning order.now) highest items.now v.items) }
{
    items
        .iter()
        .enumerate()
        .filter(|(_, item)| order.flows(item.label, highest))
        .map(|(number, _)| number as u64)
        .collect(heap)
}

impl<'a, N: Order, F: Order> Joined<'a, N, F> {
    // The view of a label, absent where the label is unknown or a map on the way has no label for it.
    pub fn view(&self, side: Side, label: u64) -> Option<View>
        ensures { result ≡ view_in (joined N.Order.meaning F.Order.meaning self.now) side label }
    {
        let trip = self.trip(side);
        let across = trip.across().image(label)?;
        let own = trip.home().image(across)?;
        Some(View::at(side, own, across))
    }

    // The items of a house that somebody cleared for a label may come to depend on, by number; absent where the label
    // has no view.
    pub fn items_in_view(
        &self,
        heap: Global,
        side: Side,
        label: u64,
        house: Side,
    ) -> Result<Option<Vec<u64>>, AllocError>
        ensures { IfOk result (λ o. ListsView (joined N.Order.meaning F.Order.meaning self.now) side label house (option_map vec_items o)) }
    {
        let Some(view) = self.view(side, label) else {
            return Ok(None);
        };
        let items = items_up_to(
            heap,
            &self.house(house),
            view.highest(house),
            self.items(house),
        )?;
        Ok(Some(items))
    }
}
