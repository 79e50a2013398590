ghost use Rattle.house.specs.contracts.table.TableOrder.TheImpl.{ghosts as ordered};
ghost use Rattle.verdict.specs.Opening.{Opens};

use crate::fault::JudgeFault;
use crate::opened::Opened;
use session::{Returned, Session};
use sheet::read_sheet;

// Reads a whole sheet, makes the near house, then the far house, and certifies the agreement in a session between them.
#[tactic(auto, using(sheet::proofs::Unhoused::unread, sheet::proofs::Unhoused::unhoused))]
pub fn open_sheet(bytes: &[u8]) -> Result<Opened, JudgeFault>
    ensures { Opens ordered.meaning bytes.now result }
{
    let sheet = read_sheet(bytes)?;
    let (near, far) = sheet.parts.lattices()?;
    let (mut session, draft) = Session::new(near, far);
    // A match, since the proof over `map_err` did not close.
    match session.certify(draft, &sheet.parts.agreement()) {
        Ok(pass) => Ok(Opened {
            session,
            pass,
            script: sheet.script,
        }),
        Err(Returned { pass: _, fault }) => Err(JudgeFault::Call(fault)),
    }
}
