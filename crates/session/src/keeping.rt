// The houses of a session as the record lends them, joined by the agreement that it keeps.
ghost use Rattle.std.specs.Prelude.{◌≡◌};
ghost use Rattle.agreement.specs.Agreements.{joined};
ghost use Rattle.session.specs.Records.{known, known_of};

use crate::record::{Items, Maps, Session};
use agreement::{Agreement, Joined};
use order::{Lattice, Order};

// Apart from the values, which a call may write while the houses are lent.
pub(crate) fn lent<'a, N: Order, F: Order>(
    near: &'a N,
    far: &'a F,
    maps: &'a Maps,
    items: &'a Items,
) -> Joined<'a, N, F>
    ensures { joined N.Order.meaning F.Order.meaning result ≡ known_of (N.Order.meaning near.now) (F.Order.meaning far.now) maps.now items.now }
{
    Joined {
        near,
        far,
        agreement: Agreement {
            out: maps.out.as_slice(),
            back: maps.back.as_slice(),
            near_items: items.near.as_slice(),
            far_items: items.far.as_slice(),
        },
    }
}

impl<N: Lattice, F: Lattice> Session<N, F> {
    pub(crate) fn houses(&self) -> Joined<'_, N, F>
        ensures { joined N.Order.meaning F.Order.meaning result ≡ known N.Order.meaning F.Order.meaning self.now }
    {
        lent(&self.near, &self.far, &self.maps, &self.table.items)
    }
}
