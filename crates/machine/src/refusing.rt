ghost use Rattle.std.specs.Prelude.{◌≡◌};
ghost use Rattle.machine.specs.Faults.{step_refusal, line_refused, run_refused, call_refused};

use crate::fault::{CallFault, LineFault, RunFault, StepFault};
use refusal::{Refusal, Refused};

// The rules number the refusals.
impl From<StepFault> for Refusal {
    ghost from_gives = { λ fault r. r ≡ step_refusal fault };

    fn from(fault: StepFault) -> Refusal {
        let (number, side, p, q) = match fault {
            StepFault::Unsuitable { side, item, role } => {
                (14, Some(side), item, agreement::role_number(role))
            }
            StepFault::TooManyAssignments { side } => (15, Some(side), 8, 0),
            StepFault::UnknownOperation {
                side,
                place,
                operation,
            } => (15, Some(side), place, operation),
            StepFault::NotAllowed {
                side,
                target,
                source,
            } => (16, side, target, source),
            StepFault::UnknownLabel { side, label } => (17, Some(side), label, 0),
        };
        Refusal {
            number,
            side,
            p: u128::from(p),
            q,
        }
    }
}

impl From<LineFault> for Refused {
    ghost from_gives = { λ fault r. r ≡ line_refused fault };

    fn from(fault: LineFault) -> Refused {
        Refused {
            line: fault.line,
            refusal: Refusal::from(fault.fault),
        }
    }
}

impl From<RunFault> for Refused {
    ghost from_gives = { λ fault r. r ≡ run_refused fault };

    fn from(fault: RunFault) -> Refused {
        match fault {
            RunFault::Unreadable(fault) => Refused::from(fault),
            RunFault::Line(fault) => Refused::from(fault),
        }
    }
}

// What a call is refused with, and the line that it is in.
impl From<CallFault> for Refused {
    ghost from_gives = { λ fault r. r ≡ call_refused fault };

    fn from(fault: CallFault) -> Refused {
        let refusal = match fault {
            CallFault::WrongStage { stage, needed } => Refusal {
                number: 12,
                side: None,
                p: u128::from(u64::from(stage)),
                q: u64::from(needed),
            },
            CallFault::Agreement(fault) => Refusal::from(fault),
            CallFault::Values { side, needed } => Refusal {
                number: 13,
                side: Some(side),
                p: u128::from(needed),
                q: 0,
            },
            CallFault::Step(fault) => Refusal::from(fault),
            CallFault::Script(fault) => return Refused::from(fault),
        };
        Refused::from(refusal)
    }
}
