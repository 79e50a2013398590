ghost use Rattle.std.specs.Prelude.{◌≡◌};
ghost use Rattle.sheet.specs.declared.fault.SheetFault.TheVariants.{Field as in_field, Script as in_script, Agreement as in_agreement};

use agreement::Fault;
use format::FieldFault;
use refusal::Side;
use script::ScriptFault;
use tables::TableFault;

// Why a sheet is refused: in reading it, in making its houses, or in certifying its agreement.
#[derive(Clone, Copy, Debug)]
pub enum SheetFault {
    // over 19,659 bytes
    TooLong,
    // a field before the script
    Field(FieldFault),
    // a field of the script
    Script(ScriptFault),
    // behind the last line a bit that is set, or a whole byte; the first bit behind it
    Trailing { at: u128 },
    // a house that is no lattice
    House { side: Side, fault: TableFault },
    // an agreement that breaks a rule
    Agreement(Fault),
}

impl From<FieldFault> for SheetFault {
    ghost from_gives = { λ fault r. r ≡ in_field fault };

    fn from(fault: FieldFault) -> SheetFault {
        SheetFault::Field(fault)
    }
}

impl From<ScriptFault> for SheetFault {
    ghost from_gives = { λ fault r. r ≡ in_script fault };

    fn from(fault: ScriptFault) -> SheetFault {
        SheetFault::Script(fault)
    }
}

impl From<Fault> for SheetFault {
    ghost from_gives = { λ fault r. r ≡ in_agreement fault };

    fn from(fault: Fault) -> SheetFault {
        SheetFault::Agreement(fault)
    }
}
