ghost use Rattle.std.specs.Prelude.{◌≡◌};
ghost use Rattle.agreement.specs.Faults.{broken_refusal, fault_refusal};

use refusal::{Refusal, Side};

// The smallest case in which one house breaks a rule.
#[derive(Clone, Copy, Debug)]
pub enum Broken {
    // the map has not one entry for each label
    Length,
    // the entry is no label of the other house
    Entry { label: u64, entry: u64 },
    // a flows to b, and the image of a not to the image of b
    NotMonotone { a: u64, b: u64 },
    // the label does not flow to its round trip
    Falls { label: u64 },
    // the label's round trip has another image than the label
    Drifts { label: u64 },
    // over 128 items
    TooMany,
    // the item's role, its label, or an unsettled label of an import or export
    Unlawful { item: u64, label: u64 },
}

// What is refused where no side is told.
impl From<Broken> for Refusal {
    ghost from_gives = { λ broken refusal. refusal ≡ broken_refusal broken };

    fn from(broken: Broken) -> Refusal {
        let (number, p, q) = match broken {
            Broken::Length => (7, 64, 0),
            Broken::Entry { label, entry } => (7, u128::from(label), entry),
            Broken::NotMonotone { a, b } => (8, u128::from(a), b),
            Broken::Falls { label } => (9, u128::from(label), 0),
            Broken::Drifts { label } => (10, u128::from(label), 0),
            Broken::TooMany => (11, 128, 0),
            Broken::Unlawful { item, label } => (11, u128::from(item), label),
        };
        Refusal {
            number,
            side: None,
            p,
            q,
        }
    }
}

// A broken rule with the side that broke it.
#[derive(Clone, Copy, Debug)]
pub struct Fault {
    pub side: Side,
    pub broken: Broken,
}

// What is refused, with its side.
impl From<Fault> for Refusal {
    ghost from_gives = { λ fault refusal. refusal ≡ fault_refusal fault };

    fn from(fault: Fault) -> Refusal {
        Refusal {
            side: Some(fault.side),
            ..Refusal::from(fault.broken)
        }
    }
}
