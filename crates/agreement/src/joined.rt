use crate::certification::Agreement;
use crate::item::Item;
use crate::trip::RoundTrip;
use either::{Either, Left, Right};
use order::Order;
use refusal::Side;

// Two lent orders and the agreement that joins them. No Model is plainer: its value would be a joint, and functions have no code.
#[derive_where(Clone, Copy)]
pub struct Joined<'a, N, F> {
    pub near: &'a N,
    pub far: &'a F,
    pub agreement: Agreement<'a>,
}

impl<'a, N: Order, F: Order> Joined<'a, N, F> {
    ghost use Rattle.std.specs.Prelude.{◌≡◌};
    ghost use Rattle.refusal.specs.Sides.{other};
    ghost use Rattle.agreement.specs.Agreements.{joined};

    // The order of the house of a side.
    pub fn house(&self, side: Side) -> Either<&'a N, &'a F>
        ensures { ⟦<Either<&'a N, &'a F> as Order>⟧.meaning result ≡ (joined N.Order.meaning F.Order.meaning self.now).order side }
    {
        match side {
            Side::Near => Left(self.near),
            Side::Far => Right(self.far),
        }
    }

    // The map of the house of a side to the other house.
    pub fn map(&self, side: Side) -> &'a [u64]
        ensures { result.now ≡ (joined N.Order.meaning F.Order.meaning self.now).map side }
    {
        match side {
            Side::Near => self.agreement.out,
            Side::Far => self.agreement.back,
        }
    }

    pub fn items(&self, side: Side) -> &'a [Item]
        ensures { result.now ≡ (joined N.Order.meaning F.Order.meaning self.now).items side }
    {
        match side {
            Side::Near => self.agreement.near_items,
            Side::Far => self.agreement.far_items,
        }
    }

    // The way from the house of a side to the other house and home.
    pub fn trip(&self, side: Side) -> RoundTrip<'a, Either<&'a N, &'a F>, Either<&'a N, &'a F>>
        ensures from { ⟦<Either<&'a N, &'a F> as Order>⟧.meaning result.from ≡ (joined N.Order.meaning F.Order.meaning self.now).order side }
        ensures to { ⟦<Either<&'a N, &'a F> as Order>⟧.meaning result.to ≡ (joined N.Order.meaning F.Order.meaning self.now).order (other side) }
        ensures out { result.out.now ≡ (joined N.Order.meaning F.Order.meaning self.now).map side }
        ensures back { result.back.now ≡ (joined N.Order.meaning F.Order.meaning self.now).map (other side) }
    {
        let across = side.other();
        RoundTrip {
            from: self.house(side),
            to: self.house(across),
            out: self.map(side),
            back: self.map(across),
        }
    }
}
