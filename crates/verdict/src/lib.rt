// The verdict on a sheet: read whole, its houses made, its agreement certified and its script judged by a session's calls.
#![tactic(auto)]

mod fault;
mod judging;
mod opened;
mod opening;
mod telling;

pub use fault::JudgeFault;
pub use judging::judge_sheet;
pub use opened::{Opened, Verdict};
pub use opening::open_sheet;
