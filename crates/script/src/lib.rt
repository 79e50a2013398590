// Scripts: lines, assignments and their operations, and reading them from bits.
#![tactic(auto)]

mod fault;
mod line;
mod operation;
mod reading;

pub use fault::ScriptFault;
pub use line::{Assignment, Line};
pub use operation::{Operation, UnknownOperation};
pub use reading::{line_count, numbered_line, read_line, read_script};
