ghost use Rattle.std.specs.Prelude.{◌≡◌};
ghost use Rattle.sheet.specs.Verdicts.{sheet_verdict, too_much};

use crate::fault::SheetFault;
use refusal::{Refusal, Refused};

// Bits behind what a sheet may have, from this one on.
fn too_much(at: u128) -> Refusal
    ensures { result ≡ too_much at }
{
    Refusal {
        number: 3,
        side: None,
        p: at,
        q: 0,
    }
}

impl From<SheetFault> for Refused {
    ghost from_gives = { λ fault r. r ≡ sheet_verdict fault };

    fn from(fault: SheetFault) -> Refused {
        Refused::from(match fault {
            SheetFault::TooLong => too_much(157_272),
            SheetFault::Field(fault) => Refusal::from(fault),
            SheetFault::Script(fault) => return Refused::from(fault),
            SheetFault::Trailing { at } => too_much(at),
            SheetFault::House { side, fault } => Refusal {
                side: Some(side),
                ..Refusal::from(fault)
            },
            SheetFault::Agreement(fault) => Refusal::from(fault),
        })
    }
}
