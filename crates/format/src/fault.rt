ghost use Rattle.std.specs.Prelude.{◌≡◌};
ghost use Rattle.format.specs.Faults.{field_refusal};
ghost use Rattle.format.specs.declared.fault.FieldFault.TheVariants.{Lacking as lacks};

use bits::Lacking;
use refusal::Refusal;

// A field that cannot be read: too few bits remain, or its value is outside its limits. Both name its first bit.
#[derive(Clone, Copy, Debug)]
pub enum FieldFault {
    Lacking { at: u128 },
    NotAllowed { at: u128, value: u64 },
}

impl From<Lacking> for FieldFault {
    ghost from_gives = { λ lacking r. r ≡ lacks lacking.at };

    fn from(lacking: Lacking) -> FieldFault {
        FieldFault::Lacking { at: lacking.at }
    }
}

// The refusal that names a fault.
impl From<FieldFault> for Refusal {
    ghost from_gives = { λ fault r. r ≡ field_refusal fault };

    fn from(fault: FieldFault) -> Refusal {
        let (number, p, q) = match fault {
            FieldFault::Lacking { at } => (1, at, 0),
            FieldFault::NotAllowed { at, value } => (2, at, value),
        };
        Refusal {
            number,
            side: None,
            p,
            q,
        }
    }
}
