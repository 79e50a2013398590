// The steps of the machine as code: judged by orders, maps and items, and then done on the values. A refusal has nothing
// to undo.
#![tactic(auto)]

mod computing;
mod copying;
mod inside;
mod lines;
mod scripts;
mod showing;
mod typing;

pub use computing::compute;
pub use lines::perform;
pub use scripts::{judge_script, run_script};
pub use showing::show;
