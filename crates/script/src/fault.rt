ghost use Rattle.std.specs.Prelude.{◌≡◌};
ghost use Rattle.script.specs.Faults.{script_refused};

use format::FieldFault;
use refusal::{Refusal, Refused};

// A fault in reading a script, with its line, from 1; line 0 is the number of lines itself.
#[derive(Clone, Copy, Debug)]
pub struct ScriptFault {
    pub line: u64,
    pub fault: FieldFault,
}

impl From<ScriptFault> for Refused {
    ghost from_gives = { λ fault r. r ≡ script_refused fault };

    fn from(fault: ScriptFault) -> Refused {
        Refused {
            line: fault.line,
            refusal: Refusal::from(fault.fault),
        }
    }
}
