// Sheets: an agreement with its script as a bit-packed file, read whole and then judged.
#![tactic(auto)]

mod fault;
mod opening;
mod parts;
mod reading;
mod refusing;
mod whole_sheet;

pub use fault::SheetFault;
pub use opening::{open_houses, open_sheet};
pub use parts::{Opened, Parts, Sheet};
pub use whole_sheet::{MOST_BYTES, read_sheet};
