ghost use Rattle.std.specs.Prelude.{◌≡◌, IfOk, vec_items};
ghost use Rattle.std.specs.Option.{option_map};
ghost use Rattle.agreement.specs.Views.{ListsView};
ghost use Rattle.session.specs.Records.{known};

use crate::record::Session;
use agreement::Item;
use order::{Lattice, Order};
use refusal::Side;
use std::alloc::{AllocError, Global};

impl<N: Lattice, F: Lattice> Session<N, F> {
    // How many labels a house has.
    pub fn labels(&self, side: Side) -> u64
        ensures { result ≡ ((known N.Order.meaning F.Order.meaning self.now).order side).count }
    {
        self.houses().house(side).count()
    }

    // The items of a house.
    pub fn items(&self, side: Side) -> &[Item]
        ensures { result.now ≡ (known N.Order.meaning F.Order.meaning self.now).items side }
    {
        self.houses().items(side)
    }

    // The items of a house that somebody cleared for a label may come to depend on, by number; absent where the label
    // is unknown, and before certification.
    pub fn items_in_view(
        &self,
        heap: Global,
        side: Side,
        label: u64,
        house: Side,
    ) -> Result<Option<Vec<u64>>, AllocError>
        ensures { IfOk result (λ o. ListsView (known N.Order.meaning F.Order.meaning self.now) side label house (option_map vec_items o)) }
    {
        self.houses().items_in_view(heap, side, label, house)
    }
}
