ghost use Rattle.verdict.specs.Verdicts.{Judges, VerdictOn};

use crate::fault::JudgeFault;
use crate::opened::Verdict;
use crate::opening::open_sheet;
use machine::ScriptType;

// The type of the sheet's script, or the first thing that is refused.
fn judge(bytes: &[u8]) -> Result<ScriptType, JudgeFault>
    ensures { Judges bytes.now result }
{
    let opened = open_sheet(bytes)?;
    Ok(opened.session.judge(bytes, opened.script)?)
}

// The verdict on a sheet: it is read whole, then its near house, its far house, its agreement and its script are judged.
pub fn judge_sheet(bytes: &[u8]) -> Verdict
    ensures { VerdictOn bytes.now result }
{
    match judge(bytes) {
        Ok(typed) => Verdict::Accept(typed),
        Err(fault) => Verdict::Refuse(fault.into()),
    }
}
