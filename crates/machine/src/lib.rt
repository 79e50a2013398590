// The machine of two memories: values, operations, faults and what is refused with them. Its specs/ say what every call
// does, and what certified agreements promise of any list of calls.
#![tactic(auto)]

mod fault;
mod operation;
mod refusing;
mod script_type;
mod stage;
mod staging;
mod values;

pub use fault::{CallFault, LineFault, RunFault, StepFault};
pub use operation::result_of;
pub use script::Operation;
pub use script_type::ScriptType;
pub use stage::Stage;
pub use staging::{at_stage, may_judge};
pub use values::Values;
