use house::Table;
use machine::ScriptType;
use refusal::Refused;
use session::{CertifiedPass, Session};

// A session over the houses of a sheet, its agreement certified, and the bit where the sheet's script begins.
#[derive(Drop)]
pub struct Opened {
    pub session: Session<Table, Table>,
    pub pass: CertifiedPass,
    pub script: u128,
}

// What is said of a sheet: the type of its script, or how it is refused.
// No Result: it prints itself, and a refusal is what was asked for and no error of the one who asked.
#[derive(Clone, Copy)]
pub enum Verdict {
    Accept(ScriptType),
    Refuse(Refused),
}
