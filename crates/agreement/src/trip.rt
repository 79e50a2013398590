ghost use Rattle.std.specs.Prelude.{◌≡◌};
ghost use Rattle.agreement.specs.Maps.{round_of, is_settled};
ghost use Rattle.agreement.specs.Connection.{SettledAreImages};
ghost use Rattle.agreement.specs.Rules.{rises, rising_judged, stays, stable_judged, lawful_item, items_judged};

use crate::fault::Broken;
use crate::item::{Item, Role, UnknownRole};
use crate::map::LabelMap;
use order::Order;

// The way across by one map, and home by another.
#[derive(Clone, Copy)]
pub struct RoundTrip<'a, P, Q> {
    pub from: P,
    pub to: Q,
    pub out: &'a [u64],
    pub back: &'a [u64],
}

impl<'a, P: Order + Copy, Q: Order + Copy> RoundTrip<'a, P, Q> {
    pub fn across(&self) -> LabelMap<'a, P, Q>
        ensures { result ≡ record { from = self.now.from; to = self.now.to; images = self.now.out } }
    {
        LabelMap {
            from: self.from,
            to: self.to,
            images: self.out,
        }
    }

    pub fn home(&self) -> LabelMap<'a, Q, P>
        ensures { result ≡ record { from = self.now.to; to = self.now.from; images = self.now.back } }
    {
        LabelMap {
            from: self.to,
            to: self.from,
            images: self.back,
        }
    }

    // The label that going across and back gives.
    pub fn again(&self, label: u64) -> Option<u64>
        ensures { result ≡ round_of (P.Order.meaning self.now.from) (Q.Order.meaning self.now.to) self.now.out.now self.now.back.now label }
    {
        let across = self.across().image(label)?;
        self.home().image(across)
    }

    // Whether going across and back gives the label again. In a connection, whether it is an image of the map back.
    pub fn settled(&self, label: u64) -> bool
        ensures value { result ≡ is_settled (P.Order.meaning self.now.from) (Q.Order.meaning self.now.to) self.now.out.now self.now.back.now label }
        ensures images { SettledAreImages (P.Order.meaning self.now.from) (Q.Order.meaning self.now.to) self.now.out.now self.now.back.now label result }
    {
        self.again(label) == Some(label)
    }

    fn rises_at(&self, label: u64) -> bool
        ensures { result ≡ rises (P.Order.meaning self.now.from) (Q.Order.meaning self.now.to) self.now.out.now self.now.back.now label }
    {
        let from = self.from;
        self.again(label)
            .is_some_and(|again| from.flows(label, again))
    }

    // A label flows to its round trip.
    #[tactic(auto, using(refusal::proofs::Judging::judging))]
    pub fn rising(&self) -> Result<(), Broken>
        ensures { result ≡ rising_judged (P.Order.meaning self.now.from) (Q.Order.meaning self.now.to) self.now.out.now self.now.back.now }
    {
        for label in 0..self.from.count() {
            if !self.rises_at(label) {
                return Err(Broken::Falls { label });
            }
        }
        Ok(())
    }

    fn stays_at(&self, label: u64) -> bool
        ensures { result ≡ stays (P.Order.meaning self.now.from) (Q.Order.meaning self.now.to) self.now.out.now self.now.back.now label }
    {
        // No `is_some_and`: tried, and the proof over a closure that asks for another image did not close.
        let (map, home) = (self.across(), self.home());
        let Some(across) = map.image(label) else {
            return false;
        };
        let Some(again) = home.image(across) else {
            return false;
        };
        map.image(again) == Some(across)
    }

    // Going across, back and across again is going across. One text for this and `rising` is no plainer: it takes two closures, each with a contract.
    #[tactic(auto, using(refusal::proofs::Judging::judging))]
    pub fn stable(&self) -> Result<(), Broken>
        ensures { result ≡ stable_judged (P.Order.meaning self.now.from) (Q.Order.meaning self.now.to) self.now.out.now self.now.back.now }
    {
        for label in 0..self.from.count() {
            if !self.stays_at(label) {
                return Err(Broken::Drifts { label });
            }
        }
        Ok(())
    }

    fn lawful_item(&self, item: Item) -> bool
        ensures { result ≡ lawful_item (P.Order.meaning self.now.from) (Q.Order.meaning self.now.to) self.now.out.now self.now.back.now item }
    {
        match Role::try_from(item.role) {
            Ok(Role::Working) => item.label < self.from.count(),
            Ok(Role::Import | Role::Export) => self.settled(item.label),
            Err(UnknownRole(_)) => false,
        }
    }

    // At most 128 items, each with a role of at most 2, a known label, and a settled one if it is an import or export.
    #[tactic(auto, using(refusal::proofs::Judging::judging))]
    pub fn lawful(&self, items: &[Item]) -> Result<(), Broken>
        ensures { result ≡ items_judged (P.Order.meaning self.now.from) (Q.Order.meaning self.now.to) self.now.out.now self.now.back.now items.now }
    {
        if items.len() > 128 {
            return Err(Broken::TooMany);
        }
        for (place, item) in items.iter().enumerate() {
            if !self.lawful_item(*item) {
                return Err(Broken::Unlawful {
                    item: place as u64,
                    label: item.label,
                });
            }
        }
        Ok(())
    }
}
