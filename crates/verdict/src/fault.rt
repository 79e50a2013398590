ghost use Rattle.std.specs.Prelude.{◌≡◌};
ghost use Rattle.verdict.specs.Verdicts.{judge_refused};
ghost use Rattle.verdict.specs.declared.fault.JudgeFault.TheVariants.{Sheet as in_sheet, Call as in_call};

use machine::CallFault;
use refusal::Refused;
use sheet::SheetFault;

// Why a sheet is refused: in reading it and making its houses, or in a call of the session, for its agreement or script.
#[derive(Clone, Copy)]
pub enum JudgeFault {
    Sheet(SheetFault),
    Call(CallFault),
}

impl From<SheetFault> for JudgeFault {
    ghost from_gives = { λ fault r. r ≡ in_sheet fault };

    fn from(fault: SheetFault) -> JudgeFault {
        JudgeFault::Sheet(fault)
    }
}

impl From<CallFault> for JudgeFault {
    ghost from_gives = { λ fault r. r ≡ in_call fault };

    fn from(fault: CallFault) -> JudgeFault {
        JudgeFault::Call(fault)
    }
}

// What the sheet is refused with, and the line that it is in.
impl From<JudgeFault> for Refused {
    ghost from_gives = { λ fault r. r ≡ judge_refused fault };

    fn from(fault: JudgeFault) -> Refused {
        match fault {
            JudgeFault::Sheet(fault) => Refused::from(fault),
            JudgeFault::Call(fault) => Refused::from(fault),
        }
    }
}
