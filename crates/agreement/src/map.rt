ghost use Rattle.std.specs.Prelude.{◌≡◌};
ghost use Rattle.agreement.specs.Maps.{image_of, moves};
ghost use Rattle.agreement.specs.Connection.{MovesWithinView};
ghost use Rattle.agreement.specs.Rules.{total_judged, keeps, monotone_judged};

use crate::fault::Broken;
use order::Order;

// A map from the labels of one order to those of another, by the image of each label.
#[derive(Clone, Copy)]
pub struct LabelMap<'a, P, Q> {
    pub from: P,
    pub to: Q,
    pub images: &'a [u64],
}

impl<'a, P: Order, Q: Order> LabelMap<'a, P, Q> {
    // The image of a label: absent where the label is unknown, has no entry, or has one that is no label of the other order.
    pub fn image(&self, label: u64) -> Option<u64>
        ensures { result ≡ image_of (P.Order.meaning self.now.from) (Q.Order.meaning self.now.to) self.now.images.now label }
    {
        if label >= self.from.count() {
            return None;
        }
        let entry = self.images.get(label as usize).copied()?;
        if entry < self.to.count() {
            Some(entry)
        } else {
            None
        }
    }

    // Whether the image of the source label flows to the target label. In a connection, to a settled target, whether the source is in the target's view.
    pub fn allows(&self, source: u64, target: u64) -> bool
        ensures value { result ≡ moves (P.Order.meaning self.now.from) (Q.Order.meaning self.now.to) self.now.images.now source target }
        ensures view { MovesWithinView (P.Order.meaning self.now.from) (Q.Order.meaning self.now.to) self.now.images.now source target result }
    {
        let to = &self.to;
        self.image(source)
            .is_some_and(|across| to.flows(across, target))
    }

    // One entry for each label, and the entry is a label of the other order.
    #[tactic(auto, using(refusal::proofs::Judging::judging))]
    pub fn total(&self) -> Result<(), Broken>
        ensures { result ≡ total_judged (P.Order.meaning self.now.from) (Q.Order.meaning self.now.to) self.now.images.now }
    {
        if self.images.len() as u64 != self.from.count() {
            return Err(Broken::Length);
        }
        let known = self.to.count();
        for (label, entry) in self.images.iter().enumerate() {
            if *entry >= known {
                return Err(Broken::Entry {
                    label: label as u64,
                    entry: *entry,
                });
            }
        }
        Ok(())
    }

    // Whether the map keeps the order of a and b; the image of a is handed in, since it is the same for every b.
    fn keeps_pair(&self, a: u64, image: Option<u64>, b: u64) -> bool
        requires { image ≡ image_of (P.Order.meaning self.now.from) (Q.Order.meaning self.now.to) self.now.images.now a }
        ensures { result ≡ keeps (P.Order.meaning self.now.from) (Q.Order.meaning self.now.to) self.now.images.now a b }
    {
        if !self.from.flows(a, b) {
            return true;
        }
        match (image, self.image(b)) {
            (Some(x), Some(y)) => self.to.flows(x, y),
            _ => false,
        }
    }

    // If a flows to b, the image of a flows to the image of b. Pairs by nested loops, left by a label: a rule of the project.
    #[tactic(auto, using(refusal::proofs::Judging::judging))]
    pub fn monotone(&self) -> Result<(), Broken>
        ensures { result ≡ monotone_judged (P.Order.meaning self.now.from) (Q.Order.meaning self.now.to) self.now.images.now }
    {
        let count = self.from.count();
        let mut judged = Ok(());
        'pairs: for a in 0..count {
            let image = self.image(a);
            for b in 0..count {
                if !self.keeps_pair(a, image, b) {
                    judged = Err(Broken::NotMonotone { a, b });
                    break 'pairs;
                }
            }
        }
        judged
    }
}
