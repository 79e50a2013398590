ghost use Rattle.std.specs.Prelude.{◌≡◌};
ghost use Rattle.machine.specs.declared.fault.CallFault.TheVariants.{Agreement as in_agreement, Step as in_step, Script as in_script};
ghost use Rattle.machine.specs.declared.fault.RunFault.TheVariants.{Unreadable as unreadable, Line as in_line};

use crate::stage::Stage;
use agreement::{Fault, Role};
use refusal::Side;
use script::ScriptFault;

// Why a step or a show is refused.
#[derive(Clone, Copy, Debug)]
pub enum StepFault {
    // an unknown item, or one without the role that is needed; no role where any will do
    Unsuitable {
        side: Side,
        item: u64,
        role: Option<Role>,
    },
    // over 8 assignments
    TooManyAssignments {
        side: Side,
    },
    // the assignment at this place has a number that stands for no operation
    UnknownOperation {
        side: Side,
        place: u64,
        operation: u64,
    },
    // what the source holds may not come to be in the target; for a compute both are places of assignments, and for a
    // show the label stands for the source
    NotAllowed {
        side: Option<Side>,
        target: u64,
        source: u64,
    },
    // a show at an unknown label
    UnknownLabel {
        side: Side,
        label: u64,
    },
}

// The refusal of one line of a script, with its number, from 1.
#[derive(Clone, Copy, Debug)]
pub struct LineFault {
    pub line: u64,
    pub fault: StepFault,
}

// Why a script is refused: a field that cannot be read, or a line that is refused.
#[derive(Clone, Copy, Debug)]
pub enum RunFault {
    Unreadable(ScriptFault),
    Line(LineFault),
}

impl From<ScriptFault> for RunFault {
    ghost from_gives = { λ fault r. r ≡ unreadable fault };

    fn from(fault: ScriptFault) -> RunFault {
        RunFault::Unreadable(fault)
    }
}

impl From<LineFault> for RunFault {
    ghost from_gives = { λ fault r. r ≡ in_line fault };

    fn from(fault: LineFault) -> RunFault {
        RunFault::Line(fault)
    }
}

// Why a call of a session is refused.
#[derive(Clone, Copy, Debug)]
pub enum CallFault {
    // the record is at another stage than the call needs
    WrongStage { stage: Stage, needed: Stage },
    // the agreement breaks a rule
    Agreement(Fault),
    // a list of values of another length than the items
    Values { side: Side, needed: u64 },
    // a step or a show
    Step(StepFault),
    // a script
    Script(RunFault),
}

impl From<Fault> for CallFault {
    ghost from_gives = { λ fault r. r ≡ in_agreement fault };

    fn from(fault: Fault) -> CallFault {
        CallFault::Agreement(fault)
    }
}

impl From<StepFault> for CallFault {
    ghost from_gives = { λ fault r. r ≡ in_step fault };

    fn from(fault: StepFault) -> CallFault {
        CallFault::Step(fault)
    }
}

impl From<RunFault> for CallFault {
    ghost from_gives = { λ fault r. r ≡ in_script fault };

    fn from(fault: RunFault) -> CallFault {
        CallFault::Script(fault)
    }
}
