ghost use Rattle.std.specs.Prelude.{◌≡◌};
ghost use Rattle.machine.specs.Calls.{may_judge, stage_judged};

use crate::fault::CallFault;
use crate::stage::Stage;
use refusal::check;

// Whether a record at one stage may take a call that needs another.
pub fn at_stage(stage: Stage, needed: Stage) -> Result<(), CallFault>
    ensures { result ≡ stage_judged stage needed }
{
    check(stage == needed, CallFault::WrongStage { stage, needed })
}

// Whether scripts may be judged: by a certified or open record.
pub fn may_judge(stage: Stage) -> Result<(), CallFault>
    ensures { result ≡ may_judge stage }
{
    match stage {
        Stage::Draft => Err(CallFault::WrongStage {
            stage,
            needed: Stage::Certified,
        }),
        Stage::Certified | Stage::Open => Ok(()),
    }
}
