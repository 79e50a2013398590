ghost use Rattle.std.specs.Prelude.{◌≡◌};
ghost use Rattle.house.specs.contracts.table.TableOrder.TheImpl.{ghosts as ordered};
ghost use Rattle.sheet.specs.Opening.{Opens, OpensHouses, BothMade, Made};

use crate::fault::SheetFault;
use crate::parts::{Opened, Parts};
use crate::whole_sheet::read_sheet;
use agreement::Joined;
use house::{House, Table};
use refusal::Side;

// The lattice of a house, or its fault with its side.
fn lattice_of(side: Side, house: &House) -> Result<Table, SheetFault>
    ensures { Made ordered.meaning side house.now result }
{
    house
        .table()
        .map_err(|fault| SheetFault::House { side, fault })
}

impl Parts {
    // The lattices of the near house and of the far house, made in this order.
    pub fn lattices(&self) -> Result<(Table, Table), SheetFault>
        ensures { BothMade ordered.meaning self.now result }
    {
        let near = lattice_of(Side::Near, &self.near)?;
        let far = lattice_of(Side::Far, &self.far)?;
        Ok((near, far))
    }
}

// Reads a whole sheet, and makes the near house, then the far house.
#[tactic(auto, using(crate::proofs::Unhoused::unread, crate::proofs::Unhoused::unhoused))]
pub fn open_houses(bytes: &[u8]) -> Result<Opened, SheetFault>
    ensures { OpensHouses ordered.meaning bytes.now result }
{
    let sheet = read_sheet(bytes)?;
    let (near, far) = sheet.parts.lattices()?;
    Ok(Opened { near, far, sheet })
}

// Reads a whole sheet, makes its houses, and certifies the agreement between them.
#[tactic(auto, using(crate::proofs::Unhoused::judged_so))]
pub fn open_sheet(bytes: &[u8]) -> Result<Opened, SheetFault>
    ensures { Opens ordered.meaning bytes.now result }
{
    let sheet = read_sheet(bytes)?;
    let parts = &sheet.parts;
    let (near, far) = parts.lattices()?;
    let agreement = parts.agreement();
    let joined = Joined {
        near: &near,
        far: &far,
        agreement,
    };
    joined.certify()?;
    Ok(Opened { near, far, sheet })
}
